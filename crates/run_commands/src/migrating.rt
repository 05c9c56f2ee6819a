ghost use Rattle.std.specs.Prelude.{◌≡◌, ◌⊎◌, IfErr, IfOk};
ghost use Rattle.program_files.specs.declared.exit_status.ExitStatus.TheVariants as statuses;
ghost use Rattle.program_files.specs.Failures.{IsUnwritten};
ghost use Rattle.run_commands.specs.Made.{EndsMigrate, migrated_text};
ghost use Rattle.run_commands.specs.Reading.{HoldsRecording};
ghost use Rattle.recording.specs.Recorded.{Recorded};

use crate::reading::read_recording_of;
use crate::saving::save;
use command_line::Migrate;
use program_files::{CommandFailure, ExitStatus, World};
use recording::migrate;
use std::alloc::Global;

/// Writes the recording of a file to another file, in the newest version.
///
/// # Errors
///
/// `File` where it can't be read, and the refusal of memory; `Unread` where it is no recording: no file is written then. `Unwritten` where
/// the new one can't be written: its file holds what it held before.
pub fn migrate_command<W: World>(
    alloc: Global,
    world: &mut W,
    asked: &Migrate<'_>,
) -> Result<ExitStatus, CommandFailure>
    // The file that the line names was given, in the newest version, the recording that the other one holds.
    ensures migrates { IfOk result (λ status. (r : Recorded) ×
        HoldsRecording (W.files world.old) asked.now.recording.now r ×
        W.was_given world.old world.new asked.now.out.now (migrated_text r) ×
        (status ≡ statuses.Done)) }
    // Else no file was written, or this one couldn't be.
    ensures unwritten { IfErr result (λ f. (world.new ≡ world.old) ⊎
        IsUnwritten (W.wasnt_given world.new) asked.now.out.now f) }
    ensures errors { IfErr result (EndsMigrate (W.files world.old) (W.wasnt_given world.new)
        asked.now) }
{
    let recorded = read_recording_of(world, alloc, asked.recording)?;
    save(world, alloc, &migrate(recorded), asked.out)?;
    Ok(ExitStatus::Done)
}
