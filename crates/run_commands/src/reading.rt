//! Recordings that files hold.
ghost use Rattle.std.specs.Prelude.{IfErr, IfOk};
ghost use Rattle.run_commands.specs.Reading.{EndsReading, HoldsRecording};

use program_files::{CommandFailure, World, unreadable};
use recording::{Recording, read_recording};
use std::alloc::Global;

/// The recording that the file of a path holds. Of a file that doesn't begin as one, no more than that is read.
///
/// # Errors
///
/// `File` where it can't be read; `Unread` where it is no recording; the refusal of memory.
pub fn read_recording_of<W: World>(
    world: &W,
    alloc: Global,
    path: &str,
) -> Result<Recording, CommandFailure>
    ensures holds { IfOk result (HoldsRecording (W.files world.now) path.now) }
    ensures errors { IfErr result (EndsReading (W.files world.now) path.now) }
{
    match world.read_marked(path, b"RVDETREC") {
        Ok(text) => match read_recording(alloc, &text) {
            Ok(recorded) => Ok(recorded),
            Err(error) => Err(CommandFailure::Unread(error)),
        },
        Err(fault) => Err(unreadable(alloc, path, fault)),
    }
}
