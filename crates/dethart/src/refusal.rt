//! What refuses a command, and the status that the program ends with then.
ghost use Rattle.std.specs.Prelude.{◌≡◌, IfErr, IfOk};

use host_io::{NumberedRefusal, RunError};
use program_files::{CommandFailure, ExitStatus};
use std::io;

/// The status of a command that was done, or else that of a refusal, of which standard error then has the line `error N` and a line of words.
/// Nothing is said where its output failed because what reads it has gone, as `head` does.
pub(crate) fn finish(
    rt: &HostRuntime,
    reader_is_gone: bool,
    answer: Result<ExitStatus, CommandFailure>,
) -> ExitStatus
    ensures done { IfOk answer (λ status. result ≡ status) }
    ensures refused { IfErr answer (λ _. result ≡ ExitStatus.Refused) }
{
    match answer {
        Ok(status) => status,
        Err(failure) => {
            if !(reader_is_gone && is_of_output(&failure)) {
                // There is nobody left to tell where standard error takes nothing.
                let _unwritten = tell(rt, &failure);
            }
            ExitStatus::Refused
        }
    }
}

/// Whether the output failed. A file that can't be written is no fault of it, and has its number.
fn is_of_output(failure: &CommandFailure) -> bool {
    let is_file = matches!(failure, CommandFailure::Unwritten(_));
    !is_file && failure.number() == RunError::SinkFailed.number()
}

/// Says on standard error what refuses a command.
pub(crate) fn tell(rt: &HostRuntime, failure: &CommandFailure) -> io::Result<()> {
    let number = failure.number();
    eprintln!(rt; "error {number}")?;
    rt.eprintln(failure)
}
