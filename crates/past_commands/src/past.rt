//! What a question about the past is put to.
ghost use Rattle.std.specs.Prelude.{IfErr, IfOk};
ghost use Rattle.past_commands.specs.Past.{EndsReading, HoldsPast};

use execution_commands::is_execution;
use program_files::{CommandFailure, World, unreadable};
use recording::{Recording, read_recording};
use std::alloc::Global;

/// What a question about the past is put to.
#[derive(Drop)]
pub enum Past {
    /// A recording of a run.
    Recording(Recording),
    /// The text of an execution.
    Execution(Vec<u8>),
}

/// The recording or the text of an execution that a file holds, as its first bytes say. Of a file that begins as neither, no more than
/// that is read.
///
/// # Errors
///
/// `File` where it can't be read, or is an execution that is too large; `Unread` where it begins as neither, or is no recording; the refusal of
/// memory.
pub fn read_past<W: World>(world: &W, alloc: Global, path: &str) -> Result<Past, CommandFailure>
    ensures holds { IfOk result (HoldsPast (W.files world.now) path.now) }
    ensures errors { IfErr result (EndsReading (W.files world.now) path.now) }
{
    let text = match world.read_either(path, b"RVDETREC", b"executio") {
        Ok(text) => text,
        Err(fault) => return Err(unreadable(alloc, path, fault)),
    };
    if is_execution(&text) {
        return Ok(Past::Execution(text));
    }
    match read_recording(alloc, &text) {
        Ok(recorded) => Ok(Past::Recording(recorded)),
        Err(error) => Err(CommandFailure::Unread(error)),
    }
}
