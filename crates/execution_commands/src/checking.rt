ghost use Rattle.std.specs.Prelude.{◌≡◌, ◌⊎◌, ◌++◌, ℕ, IfErr, IfOk, List, OnErr};
ghost use Rattle.execution_commands.specs.Checks.{CheckedFile, EndsCheck, IsUncheckedFile, checked_in};
ghost use Rattle.execution_commands.specs.Verdicts.{IsVerdictText, verdict_status};
ghost use Rattle.host_io.specs.Taken.{BeganText};
ghost use Rattle.program_files.specs.Failures.{HasFailed, IsCutOff};

use crate::reading::read_execution_text;
use crate::verdicts::put_verdict;
use command_line::Check;
use execution_scripts::{Checked, check_file};
use host_io::RunError;
use program_files::{CommandFailure, ExitStatus, Output, World, read_file};
use std::alloc::Global;

/// Checks the execution of a file, and prints whether RVWMO allows it.
///
/// # Errors
///
/// `File` where it can't be read; `NoExecution` where it has no execution; then `Refused` where the guest of this is, for its harts and pages
/// and then for its image; the refusal of memory at any time; and `SinkFailed` at last.
pub fn check_command<W: World, O: Output>(
    alloc: Global,
    world: &W,
    asked: &Check<'_>,
    out: &mut O,
) -> Result<ExitStatus, CommandFailure>
    // All that was printed is what is found of the execution in the file of the line, and the status is 0 where RVWMO allows it, and else 3.
    ensures checks { IfOk result (λ status.
        (a : CheckedFile (W.files world.now) asked.now.file.now) × (text : List ℕ) ×
        IsVerdictText (checked_in a) text × (O.took out.new ≡ O.took out.old ++ text) ×
        O.is_out out.new × (status ≡ verdict_status (checked_in a).finding)) }
    // Else nothing was printed, or a beginning of that.
    ensures begun { OnErr result ((O.took out.new ≡ O.took out.old) ⊎
        ((a : CheckedFile (W.files world.now) asked.now.file.now) × (text : List ℕ) ×
        IsVerdictText (checked_in a) text × BeganText (O.took out.old) (O.took out.new) text)) }
    ensures errors { IfErr result (EndsCheck (W.files world.now) asked.now.file.now
        (HasFailed O.failures O.is_stuck out.old out.new)) }
{
    let checked = checked_file(world, alloc, asked.file)?;
    let printed = print_verdict(alloc, &checked, out);
    drop(checked);
    Ok(printed?)
}

/// Prints what was found of an execution.
fn print_verdict<O: Output>(
    alloc: Global,
    checked: &Checked,
    out: &mut O,
) -> Result<ExitStatus, RunError>
    ensures puts { IfOk result (λ status. (text : List ℕ) × IsVerdictText checked.now text ×
        (O.took out.new ≡ O.took out.old ++ text) × O.is_out out.new ×
        (status ≡ verdict_status checked.now.finding)) }
    ensures begun { OnErr result ((O.took out.new ≡ O.took out.old) ⊎
        ((text : List ℕ) × IsVerdictText checked.now text ×
        BeganText (O.took out.old) (O.took out.new) text)) }
    ensures errors { IfErr result (IsCutOff (HasFailed O.failures O.is_stuck out.old out.new)) }
{
    let status = put_verdict(alloc, checked, out)?;
    out.hand_on()?;
    Ok(status)
}

/// Checks the execution of the file of a path.
fn checked_file<W: World>(world: &W, alloc: Global, path: &str) -> Result<Checked, CommandFailure>
    ensures checks { IfOk result (λ c. (a : CheckedFile (W.files world.now) path.now) ×
        (c ≡ checked_in a)) }
    ensures errors { IfErr result (IsUncheckedFile (W.files world.now) path.now) }
{
    let text = read_file(world, alloc, path)?;
    let file = read_execution_text(alloc, &text)?;
    Ok(check_file(alloc, &file, None)?)
}
