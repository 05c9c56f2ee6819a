ghost use Rattle.std.specs.Prelude.{◌≡◌};
ghost use Rattle.hunt_commands.specs.Status.{hunt_status, is_doubtful};

use command_line::FailOn;
use hunter::{all_end_well, is_one_exit};
use plan_hunt::Row;
use program_files::ExitStatus;

/// The exit status of a hunt, or of a merge, with this table.
pub fn hunt_status(fail_on: FailOn, rows: &[Row]) -> ExitStatus
    ensures { result ≡ hunt_status fail_on rows.now }
{
    if is_doubtful(fail_on, rows) {
        ExitStatus::Doubtful
    } else {
        ExitStatus::Done
    }
}

/// Whether a hunt with this table is doubtful.
fn is_doubtful(fail_on: FailOn, rows: &[Row]) -> bool
    ensures { result ≡ is_doubtful fail_on rows.now }
{
    match fail_on {
        FailOn::Differ => !is_one_exit(rows),
        FailOn::Bad => !all_end_well(rows),
        FailOn::Either => !is_one_exit(rows) || !all_end_well(rows),
        FailOn::Never => false,
    }
}
