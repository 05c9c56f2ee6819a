//! Recordings that files are given.
ghost use Rattle.std.specs.Prelude.{◌≡◌, IfErr, OnOk};
ghost use Rattle.program_files.specs.Failures.{IsUnwritten};
ghost use Rattle.recording.specs.Grammar.{recording};

use host_io::{RunError, Sink};
use program_files::{CommandFailure, FileText, World};
use recording::{Recording, write_recording};
use std::alloc::Global;

/// A recording, as the text of a file.
#[derive(Drop)]
struct RecordingText<'a> {
    recorded: &'a Recording,
}

impl FileText for RecordingText<'_> {
    ghost text = { λ t. recording.spelled t.recorded.now };

    fn write_to<S: Sink>(&self, alloc: Global, out: &mut S) -> Result<(), RunError> {
        write_recording(alloc, self.recorded, out)
    }
}

/// Gives the file of a path the text of a recording, in place of what it held.
pub(crate) fn save<W: World>(
    world: &mut W,
    alloc: Global,
    recorded: &Recording,
    path: &str,
) -> Result<(), CommandFailure>
    ensures given { OnOk result (W.was_given world.old world.new path.now
        (recording.spelled recorded.now)) }
    ensures errors { IfErr result (IsUnwritten (W.wasnt_given world.new) path.now) }
{
    match world.replace(path, &RecordingText { recorded }) {
        Ok(()) => Ok(()),
        Err(error) => match (error, String::from_str(alloc, path)) {
            (RunError::OutOfMemory, _) | (_, Err(_)) => {
                Err(CommandFailure::Refused(RunError::OutOfMemory))
            }
            (_, Ok(path)) => Err(CommandFailure::Unwritten(path)),
        },
    }
}
