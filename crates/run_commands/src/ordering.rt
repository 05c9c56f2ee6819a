ghost use Rattle.std.specs.Prelude.{◌≡◌, ◌⊎◌, ◌++◌, ℕ, List, IfErr, IfOk, OnErr, OnOk};
ghost use Rattle.emulation.specs.OrderedRun.{IsOrderOfRun, ordered_text};
ghost use Rattle.host_io.specs.Taken.{BeganText};
ghost use Rattle.program_files.specs.Asked.{AskedRun, EndsFor, RefusedSetRun, SetRun};
ghost use Rattle.program_files.specs.Failures.{HasFailed, IsUnprinted, failure_number};
ghost use Rattle.program_files.specs.declared.exit_status.ExitStatus.TheVariants as statuses;

use command_line::Run;
use emulation::order_run;
use machine::Observed;
use program_files::{
    CommandFailure, ExitStatus, Output, ProgressLine, RunFiles, World, read_run, settings_of,
};
use std::alloc::Global;
use std::sync::Wait;
use std::thread::Threads;

/// Runs a guest program, and prints the order of its memory operations.
///
/// # Errors
///
/// `File` where a file can't be read, the refusals of the run, and `SinkFailed`.
#[inline(never)]
pub fn order_command<W: World, O: Output, R: Threads + Wait + Sync>(
    threads: &R,
    alloc: Global,
    world: &W,
    run: &Run<'_>,
    out: &mut O,
) -> Result<ExitStatus, CommandFailure>
    // All that was printed is an order of the memory operations of the run that the line asks for.
    ensures orders { IfOk result (λ status.
        (a : AskedRun (W.files world.now) run.now) × (indices : List ℕ) ×
        IsOrderOfRun a.made.settings a.image a.input a.made.plan indices ×
        (O.took out.new ≡ O.took out.old ++
        ordered_text a.made.settings a.image a.input a.made.plan indices) × O.is_out out.new ×
        (status ≡ statuses.Done)) }
    // Else nothing was printed, or a beginning of such a text.
    ensures begun { OnErr result ((O.took out.new ≡ O.took out.old) ⊎
        ((a : AskedRun (W.files world.now) run.now) × (indices : List ℕ) ×
        IsOrderOfRun a.made.settings a.image a.input a.made.plan indices ×
        BeganText (O.took out.old) (O.took out.new)
        (ordered_text a.made.settings a.image a.input a.made.plan indices))) }
    // After a refusal for another cause than memory and the output nothing was printed.
    ensures unprinted { IfErr result (λ f.
        IsUnprinted (failure_number f) (O.took out.old) (O.took out.new)) }
    ensures errors { IfErr result (EndsFor (W.files world.now) run.now
        (HasFailed O.failures O.is_stuck out.old out.new)) }
{
    let mut progress = world.progress(run.program.progress, run.program.rounds, 1, None);
    let given = read_run(world, alloc, run)?;
    order_given(threads, alloc, &given, run, &mut progress, out)?;
    out.hand_on()?;
    Ok(ExitStatus::Done)
}

/// Does the same with what the files gave.
fn order_given<O: Output, P: ProgressLine, R: Threads + Wait + Sync>(
    threads: &R,
    alloc: Global,
    given: &RunFiles,
    run: &Run<'_>,
    progress: &mut P,
    out: &mut O,
) -> Result<(), CommandFailure>
    ensures orders { OnOk result
        ((r : SetRun run.now.program given.now.plan.text.items given.now.plan.budget) ×
        (indices : List ℕ) ×
        IsOrderOfRun r.settings given.now.program.image.items given.now.program.input.items r.plan
        indices ×
        (O.took out.new ≡ O.took out.old ++ ordered_text r.settings given.now.program.image.items
        given.now.program.input.items r.plan indices)) }
    ensures begun { OnErr result ((O.took out.new ≡ O.took out.old) ⊎
        ((r : SetRun run.now.program given.now.plan.text.items given.now.plan.budget) ×
        (indices : List ℕ) ×
        IsOrderOfRun r.settings given.now.program.image.items given.now.program.input.items r.plan
        indices ×
        BeganText (O.took out.old) (O.took out.new)
        (ordered_text r.settings given.now.program.image.items
        given.now.program.input.items r.plan indices))) }
    ensures unprinted { IfErr result (λ f.
        IsUnprinted (failure_number f) (O.took out.old) (O.took out.new)) }
    ensures errors { IfErr result (RefusedSetRun run.now.program given.now.plan.text.items
        given.now.plan.budget
        given.now.program.image.items (HasFailed O.failures O.is_stuck out.old out.new)) }
{
    let settings = settings_of(&run.program, &given.plan);
    let answer = order_run(
        threads,
        alloc,
        &given.program.image,
        &given.program.input,
        &settings,
        &mut Observed {
            observer: &mut *progress,
        },
        out,
    );
    progress.end();
    given.plan.explain(alloc, settings.harts, answer)
}
