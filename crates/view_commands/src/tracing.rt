ghost use Rattle.std.specs.Prelude.{◌≡◌, ◌⊎◌, ◌++◌, IfErr, IfOk, OnErr, OnOk};
ghost use Rattle.drawing.specs.Drawn.{trace_events_after};
ghost use Rattle.host_io.specs.Taken.{BeganText};
ghost use Rattle.program_files.specs.Asked.{AskedRun, EndsFor, RefusedSetRun, SetRun};
ghost use Rattle.program_files.specs.Failures.{HasFailed, IsUnprinted, failure_number};
ghost use Rattle.program_files.specs.declared.exit_status.ExitStatus.TheVariants as statuses;

use command_line::Run;
use drawing::trace_run;
use machine::Observed;
use program_files::{
    CommandFailure, ExitStatus, Output, ProgressLine, RunFiles, World, guest_files, read_run,
    settings_of,
};
use std::alloc::Global;
use std::sync::Wait;
use std::thread::Threads;

/// Runs a guest program, and prints its trace for viewers of traces.
///
/// # Errors
///
/// `File` where a file can't be read, the refusals of the run, and `SinkFailed`.
#[inline(never)]
pub fn trace_command<W: World, O: Output, R: Threads + Wait + Sync>(
    threads: &R,
    alloc: Global,
    world: &W,
    run: &Run<'_>,
    out: &mut O,
) -> Result<ExitStatus, CommandFailure>
    // All that was printed is the trace of the run that the line asks for, as JSON.
    ensures traces { IfOk result (λ status. (a : AskedRun (W.files world.now) run.now) ×
        (O.took out.new ≡ O.took out.old ++ trace_events_after a.made.settings a.image a.input
        a.made.plan) × O.is_out out.new × (status ≡ statuses.Done)) }
    // Else nothing was printed, or a beginning of that.
    ensures begun { OnErr result ((O.took out.new ≡ O.took out.old) ⊎
        ((a : AskedRun (W.files world.now) run.now) × BeganText (O.took out.old) (O.took out.new)
        (trace_events_after a.made.settings a.image a.input a.made.plan))) }
    // After a refusal for another cause than memory and the output nothing was printed.
    ensures unprinted { IfErr result (λ f.
        IsUnprinted (failure_number f) (O.took out.old) (O.took out.new)) }
    ensures errors { IfErr result (EndsFor (W.files world.now) run.now
        (HasFailed O.failures O.is_stuck out.old out.new)) }
{
    let mut progress = world.progress(run.program.progress, run.program.rounds, 1, None);
    let given = read_run(world, alloc, run)?;
    trace_given(threads, alloc, &given, run, &mut progress, out)?;
    out.hand_on()?;
    Ok(ExitStatus::Done)
}

/// Does the same with what the files gave.
fn trace_given<O: Output, P: ProgressLine, R: Threads + Wait + Sync>(
    threads: &R,
    alloc: Global,
    given: &RunFiles,
    run: &Run<'_>,
    progress: &mut P,
    out: &mut O,
) -> Result<(), CommandFailure>
    ensures traces { OnOk result
        ((r : SetRun run.now.program given.now.plan.text.items given.now.plan.budget) ×
        (O.took out.new ≡ O.took out.old ++ trace_events_after r.settings
        given.now.program.image.items
        given.now.program.input.items r.plan)) }
    ensures begun { OnErr result ((O.took out.new ≡ O.took out.old) ⊎
        ((r : SetRun run.now.program given.now.plan.text.items given.now.plan.budget) ×
        BeganText (O.took out.old) (O.took out.new)
        (trace_events_after r.settings given.now.program.image.items
        given.now.program.input.items r.plan))) }
    ensures unprinted { IfErr result (λ f.
        IsUnprinted (failure_number f) (O.took out.old) (O.took out.new)) }
    ensures errors { IfErr result (RefusedSetRun run.now.program given.now.plan.text.items
        given.now.plan.budget
        given.now.program.image.items (HasFailed O.failures O.is_stuck out.old out.new)) }
{
    let settings = settings_of(&run.program, &given.plan);
    let mut observed = Observed { observer: progress };
    let answer = trace_run(
        threads,
        alloc,
        &guest_files(&given.program),
        &settings,
        &mut observed,
        out,
    );
    progress.end();
    given.plan.explain(alloc, settings.harts, answer)
}
