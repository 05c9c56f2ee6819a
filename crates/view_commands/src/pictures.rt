ghost use Rattle.std.specs.Prelude.{◌≡◌, ◌⊎◌, IfErr, IfOk, OnErr};
ghost use Rattle.program_files.specs.Failures.{HasFailed, IsUnprinted, failure_number};
ghost use Rattle.view_commands.specs.Drawings.{AskedDraw, Draws, EndsDraw, IsBegun, IsDrawEnd, is_of_execution};

use crate::executions::draw_execution;
use crate::guests::draw_guest;
use command_line::Draw;
use execution_commands::is_execution;
use program_files::{
    CommandFailure, ExitStatus, Output, ProgressLine, RunFiles, World, read_run, tell_of_decimals,
};
use std::alloc::Global;
use std::sync::Wait;
use std::thread::Threads;

/// Runs a guest program, and prints a picture of the run. Where the image's file holds an execution, it prints a picture of that, or what
/// `check` prints, where RVWMO doesn't allow it.
///
/// # Errors
///
/// `File` where one can't be read, and `NoSpurious`. Of a run, the refusals for the settings, the image and the plan in this order, and then
/// `Naming` for bytes that can't be looked at. Of an execution `NoExecution`, `NoRounds` where the line has --from or --to, `Refused` for the
/// number of workers and then for its guest, and `Naming`. The refusal of memory at any time, and `SinkFailed`.
#[inline(never)]
pub fn draw_command<W: World, O: Output, R: Threads + Wait + Sync>(
    threads: &R,
    alloc: Global,
    world: &W,
    asked: &Draw<'_>,
    out: &mut O,
) -> Result<ExitStatus, CommandFailure>
    // All that was printed is the picture that the line asks for, or else what is found of the execution.
    ensures draws { IfOk result (λ status. (a : AskedDraw (W.files world.now) asked.now) ×
        Draws asked.now a.image a.input a.text a.budget (O.took out.old) (O.took out.new) status ×
        O.is_out out.new) }
    // Else nothing was printed, or a beginning of that.
    ensures begun { OnErr result ((O.took out.new ≡ O.took out.old) ⊎
        ((a : AskedDraw (W.files world.now) asked.now) ×
        IsBegun asked.now a.image a.input a.text a.budget (O.took out.old) (O.took out.new))) }
    // After a refusal for another cause than memory and the output nothing was printed.
    ensures unprinted { IfErr result (λ f.
        IsUnprinted (failure_number f) (O.took out.old) (O.took out.new)) }
    ensures errors { IfErr result (EndsDraw (W.files world.now) asked.now
        (HasFailed O.failures O.is_stuck out.old out.new)) }
{
    let program = &asked.run.program;
    let mut progress = world.progress(program.progress, program.rounds, 1, None);
    let given = read_run(world, alloc, &asked.run)?;
    let status = draw_given(threads, alloc, &given, asked, &mut progress, out)?;
    out.hand_on()?;
    tell_of_decimals(world, &given.program.image, program.flat, &asked.seen);
    Ok(status)
}

/// Does the same with what the files gave.
fn draw_given<O: Output, P: ProgressLine, R: Threads + Wait + Sync>(
    threads: &R,
    alloc: Global,
    given: &RunFiles,
    asked: &Draw<'_>,
    progress: &mut P,
    out: &mut O,
) -> Result<ExitStatus, CommandFailure>
    ensures draws { IfOk result (Draws asked.now given.now.program.image.items
        given.now.program.input.items
        given.now.plan.text.items given.now.plan.budget (O.took out.old) (O.took out.new)) }
    ensures begun { OnErr result ((O.took out.new ≡ O.took out.old) ⊎
        IsBegun asked.now given.now.program.image.items given.now.program.input.items
        given.now.plan.text.items given.now.plan.budget (O.took out.old) (O.took out.new)) }
    ensures unprinted { IfErr result (λ f.
        IsUnprinted (failure_number f) (O.took out.old) (O.took out.new)) }
    ensures errors { IfErr result (IsDrawEnd asked.now given.now.program.image.items
        given.now.plan.text.items given.now.plan.budget
        (HasFailed O.failures O.is_stuck out.old out.new)) }
{
    if is_of_execution(asked, &given.program.image) {
        draw_execution(alloc, &given.program.image, asked, out)
    } else {
        draw_guest(threads, alloc, given, asked, progress, out)
    }
}

/// Whether the bytes of the image are an execution's, and no program's.
fn is_of_execution(asked: &Draw<'_>, image: &[u8]) -> bool
    ensures { result ≡ is_of_execution asked.now image.now }
{
    !asked.run.program.flat && is_execution(image)
}
