//! Executions that are read from texts.
ghost use Rattle.std.specs.Prelude.{◌≡◌, ◌+◌, ◌-◌, IfErr, IfOk, drop, length, take};
ghost use Rattle.execution_commands.specs.Texts.{IsNoExecution, is_execution, line_ends};
ghost use Rattle.execution_file.specs.Grammar.{IsExecution};
ghost use Rattle.execution_file.specs.Views.{as_recorded};

use execution_scripts::{ExecutionFile, ReadError, read_execution};
use host_io::RunError;
use program_files::CommandFailure;
use std::alloc::Global;

/// The bytes that an execution begins with.
const EXECUTION: &[u8] = b"executio";

/// Whether a text begins as an execution.
pub fn is_execution(text: &[u8]) -> bool
    ensures { result ≡ is_execution text.now }
{
    text.starts_with(EXECUTION)
}

/// The execution that a text says.
///
/// # Errors
///
/// `NoExecution`, with the line in which the text is refused, and the refusal of memory.
pub fn read_execution_text(alloc: Global, text: &[u8]) -> Result<ExecutionFile, CommandFailure>
    ensures reads { IfOk result (λ file. IsExecution text.now (as_recorded file)) }
    ensures errors { IfErr result (IsNoExecution text.now) }
{
    match read_execution(alloc, text) {
        Ok(file) => Ok(file),
        Err(ReadError::OutOfMemory) => Err(CommandFailure::from(RunError::OutOfMemory)),
        Err(ReadError::Refused(refusal)) => Err(CommandFailure::NoExecution(
            refusal.cause,
            line_at(text, refusal.left),
        )),
    }
}

/// The number of the line, from 1 on, in which a text has so many bytes left.
fn line_at(text: &[u8], left: usize) -> usize
    ensures { result ≡ line_ends (take (length text.now - left) text.now) + 1 }
{
    let lines = &text[..text.len().saturating_sub(left)];
    let mut line = 1usize;
    for byte in lines {
        if *byte == b'\n' {
            line += 1;
        }
    }
    line
}
