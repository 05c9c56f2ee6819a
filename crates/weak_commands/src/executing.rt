ghost use Rattle.std.specs.Prelude.{◌≡◌, ◌⊎◌, ◌++◌, IfErr, IfOk, OnErr};
ghost use Rattle.weak_commands.specs.AskedExecutions.{AskedExecution, EndsExecution, IsAskedFile, IsNumbered, IsRun, IsRunOf, IsUnmadeFile, RefusedNumber, number_of};
ghost use Rattle.execution_file.specs.Grammar.{execution};
ghost use Rattle.execution_file.specs.Views.{as_recorded};
ghost use Rattle.host_io.specs.Taken.{BeganText};
ghost use Rattle.program_files.specs.Asked.{IsFileOfRun, LacksSpurious, RefusedRun, RefusedSetRun};
ghost use Rattle.program_files.specs.Failures.{HasFailed, IsFileFailure};
ghost use Rattle.program_files.specs.declared.exit_status.ExitStatus.TheVariants as statuses;

use crate::makers::WeakExecutions;
use command_line::{Execution, Run};
use execution_makers::execution_of_run;
use execution_scripts::{ExecutionFile, write_execution};
use hunt_commands::program_settings;
use program_files::{
    CommandFailure, ExitStatus, Output, ProgressLine, RunFiles, World, read_program, read_run,
    settings_of,
};
use std::alloc::Global;
use std::sync::Wait;
use std::thread::Threads;

/// Prints an execution of a guest program: that of a number, in which loads come early and stores late, or a run.
///
/// # Errors
///
/// `File` where one can't be read, and `NoSpurious`; the refusals of a run; `Hunt` where the execution of a number is refused, for the settings
/// and then for the image, or isn't confirmed; `SinkFailed`; the refusal of memory at any time.
#[inline(never)]
pub fn execution_command<W: World, M: WeakExecutions, O: Output, R: Threads + Wait + Sync>(
    threads: &R,
    alloc: Global,
    world: &W,
    maker: &M,
    asked: &Execution<'_>,
    out: &mut O,
) -> Result<ExitStatus, CommandFailure>
    // All that was printed is the text of the execution that the line asks for.
    ensures prints { IfOk result (λ status.
        (a : AskedExecution (W.files world.now) M.makes asked.now) ×
        (O.took out.new ≡ O.took out.old ++ execution.spelled a.file) × O.is_out out.new ×
        (status ≡ statuses.Done)) }
    // Else nothing was printed, or a beginning of that.
    ensures begun { OnErr result ((O.took out.new ≡ O.took out.old) ⊎
        ((a : AskedExecution (W.files world.now) M.makes asked.now) ×
        BeganText (O.took out.old) (O.took out.new) (execution.spelled a.file))) }
    ensures errors { IfErr result (EndsExecution (W.files world.now) asked.now
        (HasFailed O.failures O.is_stuck out.old out.new)) }
{
    let program = &asked.run.program;
    let mut progress = world.progress(program.progress, program.rounds, 1, None);
    let file = asked_execution(threads, alloc, world, maker, asked, &mut progress)?;
    write_execution(alloc, &file, out)?;
    out.hand_on()?;
    Ok(ExitStatus::Done)
}

/// The execution that the line asks for.
fn asked_execution<W: World, M: WeakExecutions, R: Threads + Wait + Sync>(
    threads: &R,
    alloc: Global,
    world: &W,
    maker: &M,
    asked: &Execution<'_>,
    progress: &mut W::Progress,
) -> Result<ExecutionFile, CommandFailure>
    ensures asked { IfOk result (λ f.
        IsAskedFile (W.files world.now) M.makes asked.now (as_recorded f)) }
    ensures errors { IfErr result (IsUnmadeFile (W.files world.now) asked.now) }
{
    match number_of(asked) {
        Some(number) => numbered_execution(alloc, world, maker, asked, number),
        None => Ok(run_as_execution(threads, alloc, world, &asked.run, progress)?),
    }
}

/// The number of the execution that the line asks for; none where it asks for a run.
fn number_of(asked: &Execution<'_>) -> Option<u32>
    ensures { result ≡ number_of asked.now.weak asked.now.run.plan.number }
{
    if asked.weak {
        asked.run.plan.number
    } else {
        None
    }
}

/// The execution of a number of the guest program, of as many steps at most as the line says.
fn numbered_execution<W: World, M: WeakExecutions>(
    alloc: Global,
    world: &W,
    maker: &M,
    asked: &Execution<'_>,
    number: u32,
) -> Result<ExecutionFile, CommandFailure>
    ensures numbered { IfOk result (λ f.
        IsNumbered (W.files world.now) M.makes asked.now.run asked.now.steps number
        (as_recorded f)) }
    ensures errors { IfErr result (λ f.
        IsFileFailure (W.files world.now) (IsFileOfRun asked.now.run)
        (LacksSpurious (W.files world.now) asked.now.run.program) f ⊎
        RefusedNumber (W.files world.now) asked.now.run number f) }
{
    let program = &asked.run.program;
    let given = read_program(world, alloc, program)?;
    let settings = program_settings(alloc, program, asked.run.plan.seed);
    let (image, input) = (given.image.as_slice(), given.input.as_slice());
    Ok(maker.execute_weakly(alloc, image, input, &settings, asked.steps, number)?)
}

/// Runs the guest program, and gives the run as an execution.
fn run_as_execution<W: World, R: Threads + Wait + Sync>(
    threads: &R,
    alloc: Global,
    world: &W,
    run: &Run<'_>,
    progress: &mut W::Progress,
) -> Result<ExecutionFile, CommandFailure>
    ensures run { IfOk result (λ f. IsRun (W.files world.now) run.now (as_recorded f)) }
    ensures errors { IfErr result (λ f. IsFileFailure (W.files world.now) (IsFileOfRun run.now)
        (LacksSpurious (W.files world.now) run.now.program) f ⊎
        RefusedRun (W.files world.now) run.now ⊥ f) }
{
    let given = read_run(world, alloc, run)?;
    run_given(threads, alloc, &given, run, progress)
}

/// Does the same with what the files gave.
fn run_given<P: ProgressLine, R: Threads + Wait + Sync>(
    threads: &R,
    alloc: Global,
    given: &RunFiles,
    run: &Run<'_>,
    progress: &mut P,
) -> Result<ExecutionFile, CommandFailure>
    ensures run { IfOk result (λ f.
        IsRunOf run.now.program given.now.plan.text.items given.now.plan.budget
        given.now.program.image.items given.now.program.input.items (as_recorded f)) }
    ensures errors { IfErr result (RefusedSetRun run.now.program given.now.plan.text.items
        given.now.plan.budget
        given.now.program.image.items ⊥) }
{
    let settings = settings_of(&run.program, &given.plan);
    let made = execution_of_run(
        threads,
        alloc,
        &given.program.image,
        &given.program.input,
        &settings,
        progress,
    );
    progress.end();
    given.plan.explain(alloc, settings.harts, made)
}
