ghost use Rattle.std.specs.Prelude.{◌≡◌, ◌⊎◌, ◌++◌, IfErr, IfOk, OnErr, OnOk};
ghost use Rattle.host_io.specs.Taken.{BeganText};
ghost use Rattle.program_files.specs.Failures.{HasFailed, IsCutEnd, IsUnprinted, failure_number};
ghost use Rattle.hunt_commands.specs.Shrinks.{AskedShrink, EndsShrink, IsShrinkEnd, SetShrink, shrunk_text};
ghost use Rattle.program_files.specs.declared.exit_status.ExitStatus.TheVariants as statuses;
ghost use Rattle.round_planner.specs.PlanText.{plan_text};

use crate::refusing::refused_for_guest;
use crate::repeating::tell_shrunk;
use crate::settings::{named_in, settings_of, tell_decimals};
use command_line::Shrink;
use host_io::put_all;
use hunter::shrink;
use program_files::{
    CommandFailure, ExitStatus, NamedBytes, Output, ProgramFiles, ProgressLine, World, read_program,
};
use round_planner::Plan;
use std::alloc::Global;
use std::sync::Wait;
use std::thread::Threads;

/// Looks for a smaller plan that leads to the same ending, and prints it. Standard error says its budget, and the line that runs the
/// program by it.
///
/// # Errors
///
/// `File` where one can't be read, and `NoSpurious`; `Hunt` for the settings and then for the image; then `Naming` for bytes that can't be
/// looked at; `SinkFailed`; the refusal of memory at any time.
#[inline(never)]
pub fn shrink_command<W: World, O: Output, R: Threads + Wait + Sync>(
    threads: &R,
    alloc: Global,
    world: &W,
    asked: &Shrink<'_>,
    out: &mut O,
) -> Result<ExitStatus, CommandFailure>
    // All that was printed is the text of a plan that the search of the line leads to.
    ensures shrinks { IfOk result (λ status. (a : AskedShrink (W.files world.now) asked.now) ×
        (O.took out.new ≡ O.took out.old ++ shrunk_text a.made) × O.is_out out.new ×
        (status ≡ statuses.Done)) }
    // Else nothing was printed, or a beginning of such a text.
    ensures begun { OnErr result ((O.took out.new ≡ O.took out.old) ⊎
        ((a : AskedShrink (W.files world.now) asked.now) ×
        BeganText (O.took out.old) (O.took out.new) (shrunk_text a.made))) }
    // After a refusal for another cause than memory and the output nothing was printed.
    ensures unprinted { IfErr result (λ f.
        IsUnprinted (failure_number f) (O.took out.old) (O.took out.new)) }
    ensures errors { IfErr result (EndsShrink (W.files world.now) asked.now
        (HasFailed O.failures O.is_stuck out.old out.new)) }
{
    let mut progress = world.progress(asked.search.program.progress, 0, 1, None);
    let given = read_program(world, alloc, &asked.search.program)?;
    let plan = shrink_given(threads, alloc, &given, asked, &mut progress)?;
    put_plan(alloc, &plan, out)?;
    out.hand_on()?;
    // What was asked for is out.
    let _untold = tell_shrunk(threads, alloc, asked, &given, &plan, world);
    tell_decimals(&asked.search, &given, world);
    Ok(ExitStatus::Done)
}

/// Looks for a smaller plan with what the files gave.
fn shrink_given<P: ProgressLine, R: Threads + Wait + Sync>(
    threads: &R,
    alloc: Global,
    files: &ProgramFiles,
    asked: &Shrink<'_>,
    progress: &mut P,
) -> Result<Plan, CommandFailure>
    ensures shrinks { IfOk result (λ plan.
        (s : SetShrink asked.now files.now.image.items files.now.input.items) ×
        (plan ≡ s.plan)) }
    ensures errors { IfErr result (IsShrinkEnd asked.now files.now.image.items) }
{
    let NamedBytes { bytes, fault } = named_in(alloc, &asked.search, files)?;
    let settings = settings_of(alloc, &asked.search, &bytes, asked.plan_number, 1, false)?;
    match fault {
        Some(fault) => Err(refused_for_guest(alloc, &files.image, &settings, fault)),
        None => {
            let (image, input) = (files.image.as_slice(), files.input.as_slice());
            let number = asked.plan_number;
            let answer = shrink(threads, alloc, image, input, &settings, number, progress);
            progress.end();
            Ok(answer?)
        }
    }
}

/// Prints a plan.
fn put_plan<O: Output>(alloc: Global, plan: &Plan, out: &mut O) -> Result<(), CommandFailure>
    ensures puts { OnOk result (O.took out.new ≡ O.took out.old ++ plan_text plan.now.rows) }
    ensures begun { OnErr result ((O.took out.new ≡ O.took out.old) ⊎
        BeganText (O.took out.old) (O.took out.new) (plan_text plan.now.rows)) }
    ensures unprinted { IfErr result (λ f.
        IsUnprinted (failure_number f) (O.took out.old) (O.took out.new)) }
    ensures errors { IfErr result (IsCutEnd (HasFailed O.failures O.is_stuck out.old out.new)) }
{
    let text = plan.text(alloc)?;
    put_all(out, text.as_slice())?;
    Ok(())
}
