ghost use Rattle.std.specs.Prelude.{◌≡◌, ◌⊎◌, ◌++◌, IfErr, IfOk, OnErr};
ghost use Rattle.emulation.specs.Showing.{end_of};
ghost use Rattle.host_io.specs.Taken.{BeganText};
ghost use Rattle.host_io.specs.declared.error.RunError.TheVariants as refusals;
ghost use Rattle.round_planner.specs.Settings.{IsReason, RefusedInOrder, settings_fault};
ghost use Rattle.machine.specs.Runs.{after_run};
ghost use Rattle.program_files.specs.Asked.{AskedRun, EndsFor, RefusedSetRun, SetRun};
ghost use Rattle.program_files.specs.Failures.{HasFailed, IsUnprinted, failure_number};
ghost use Rattle.program_files.specs.declared.failure.CommandFailure.TheVariants as failures;
ghost use Rattle.run_commands.specs.Printed.{IsPrinted, printed_text, run_status};
ghost use Rattle.host_io.specs.Writes.{IsFaultOr, WritesAnswer};

use crate::looping::tell_loops;
use crate::shown::{run_status, shown_of};
use command_line::{Print, Shown};
use emulation::{RunEnd, report_run, show_run};
use host_io::RunError;
use machine::{GuestFiles, Observed, Observer, Settings};
use program_files::{
    CommandFailure, ExitStatus, Output, ProgressLine, RunFiles, World, guest_files, read_run,
    settings_of,
};
use std::alloc::Global;
use std::sync::Wait;
use std::thread::Threads;

/// Runs a guest program, and prints what is asked for of the run. Where a hart runs on and the line asks how harts end, standard
/// error says which ones run for ever.
///
/// # Errors
///
/// `File` where a file can't be read, the refusals of the run, and `SinkFailed`.
#[inline(never)]
pub fn run_command<W: World, O: Output, R: Threads + Wait + Sync>(
    threads: &R,
    alloc: Global,
    world: &W,
    asked: &Print<'_>,
    out: &mut O,
) -> Result<ExitStatus, CommandFailure>
    // All that was printed is what the line asks for of the run that it asks for, and the status is that of how its harts end.
    ensures runs { IfOk result (λ status. (a : AskedRun (W.files world.now) asked.now.run) ×
        (O.took out.new ≡ O.took out.old ++ printed_text asked.now a.made.settings a.image a.input
        a.made.plan) × O.is_out out.new × (status ≡ run_status asked.now.strict
        (end_of (after_run a.made.settings a.image a.input a.made.plan).state.harts))) }
    // Else nothing was printed, or a beginning of that.
    ensures begun { OnErr result ((O.took out.new ≡ O.took out.old) ⊎
        ((a : AskedRun (W.files world.now) asked.now.run) ×
        BeganText (O.took out.old) (O.took out.new)
        (printed_text asked.now a.made.settings a.image a.input a.made.plan))) }
    // After a refusal for another cause than memory and the output nothing was printed.
    ensures unprinted { IfErr result (λ f.
        IsUnprinted (failure_number f) (O.took out.old) (O.took out.new)) }
    ensures errors { IfErr result (EndsFor (W.files world.now) asked.now.run
        (HasFailed O.failures O.is_stuck out.old out.new)) }
{
    let program = &asked.run.program;
    let mut progress = world.progress(program.progress, program.rounds, 1, None);
    let given = read_run(world, alloc, &asked.run)?;
    run_given(threads, alloc, world, &given, asked, &mut progress, out)
}

/// Does the same with what the files gave.
fn run_given<W: World, O: Output, R: Threads + Wait + Sync>(
    threads: &R,
    alloc: Global,
    world: &W,
    given: &RunFiles,
    asked: &Print<'_>,
    progress: &mut W::Progress,
    out: &mut O,
) -> Result<ExitStatus, CommandFailure>
    ensures runs { IfOk result (λ status.
        (r : SetRun asked.now.run.program given.now.plan.text.items given.now.plan.budget) ×
        (O.took out.new ≡ O.took out.old ++ printed_text asked.now r.settings
        given.now.program.image.items
        given.now.program.input.items r.plan) × O.is_out out.new ×
        (status ≡ run_status asked.now.strict
        (end_of (after_run r.settings given.now.program.image.items given.now.program.input.items
        r.plan).state.harts))) }
    ensures begun { OnErr result ((O.took out.new ≡ O.took out.old) ⊎
        ((r : SetRun asked.now.run.program given.now.plan.text.items given.now.plan.budget) ×
        BeganText (O.took out.old) (O.took out.new)
        (printed_text asked.now r.settings given.now.program.image.items
        given.now.program.input.items r.plan))) }
    ensures unprinted { IfErr result (λ f.
        IsUnprinted (failure_number f) (O.took out.old) (O.took out.new)) }
    ensures errors { IfErr result (λ f. ((f ≡ failures.Refused refusals.SinkFailed) ×
        HasFailed O.failures O.is_stuck out.old out.new) ⊎
        RefusedSetRun asked.now.run.program given.now.plan.text.items given.now.plan.budget
        given.now.program.image.items (HasFailed O.failures O.is_stuck out.old out.new) f) }
{
    let end = print_given(threads, alloc, given, asked, progress, out)?;
    out.hand_on()?;
    if end == RunEnd::RunsOn && (asked.strict || asked.show == Shown::Harts) {
        // What was asked for is out.
        let _untold = tell_loops(threads, alloc, &asked.run.program, given, world);
    }
    Ok(run_status(asked.strict, end))
}

/// Runs the guest program, and prints what is asked for. Answers how its harts have ended.
fn print_given<O: Output, P: ProgressLine, R: Threads + Wait + Sync>(
    threads: &R,
    alloc: Global,
    given: &RunFiles,
    asked: &Print<'_>,
    progress: &mut P,
    out: &mut O,
) -> Result<RunEnd, CommandFailure>
    ensures runs { IfOk result (λ end.
        (r : SetRun asked.now.run.program given.now.plan.text.items given.now.plan.budget) ×
        (O.took out.new ≡ O.took out.old ++ printed_text asked.now r.settings
        given.now.program.image.items
        given.now.program.input.items r.plan) ×
        (end ≡ end_of (after_run r.settings given.now.program.image.items
        given.now.program.input.items r.plan).state.harts)) }
    ensures begun { OnErr result ((O.took out.new ≡ O.took out.old) ⊎
        ((r : SetRun asked.now.run.program given.now.plan.text.items given.now.plan.budget) ×
        BeganText (O.took out.old) (O.took out.new)
        (printed_text asked.now r.settings given.now.program.image.items
        given.now.program.input.items r.plan))) }
    ensures unprinted { IfErr result (λ f.
        IsUnprinted (failure_number f) (O.took out.old) (O.took out.new)) }
    ensures errors { IfErr result (RefusedSetRun asked.now.run.program given.now.plan.text.items
        given.now.plan.budget
        given.now.program.image.items (HasFailed O.failures O.is_stuck out.old out.new)) }
{
    let settings = settings_of(&asked.run.program, &given.plan);
    let answer = print_guest(
        threads,
        alloc,
        &guest_files(&given.program),
        &settings,
        asked,
        progress,
        out,
    );
    progress.end();
    given.plan.explain(alloc, settings.harts, answer)
}

/// Runs a guest by these settings, and prints what is asked for.
fn print_guest<O: Output, P: Observer, R: Threads + Wait + Sync>(
    threads: &R,
    alloc: Global,
    guest: &GuestFiles<'_>,
    settings: &Settings<'_>,
    asked: &Print<'_>,
    progress: &mut P,
    out: &mut O,
) -> Result<RunEnd, RunError>
    ensures writes { WritesAnswer O.took O.failures
        (IsPrinted asked.now settings.now guest.now.image.now guest.now.input.now)
        (IsFaultOr (settings_fault settings.now) (IsReason settings.now guest.now.image.now))
        refusals.OutOfMemory refusals.SinkFailed out.old out.new result }
    ensures in_order { RefusedInOrder settings.now guest.now.image.now result }
{
    let mut observed = Observed { observer: progress };
    match shown_of(asked) {
        Some(shown) => show_run(threads, alloc, guest, settings, shown, &mut observed, out),
        None => report_run(threads, alloc, guest, settings, &mut observed, out),
    }
}
