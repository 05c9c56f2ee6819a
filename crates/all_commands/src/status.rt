ghost use Rattle.std.specs.Prelude.{◌≡◌};
ghost use Rattle.std.specs.List.{list_any};
ghost use Rattle.endings_table.specs.Endings.{is_bad};
ghost use Rattle.all_commands.specs.Status.{all_status};

use endings_table::{EndingsTable, FoundEnding, Others};
use program_files::ExitStatus;

/// Whether an ending is bad.
fn has_bad(endings: &[FoundEnding]) -> bool
    ensures { result ≡ list_any is_bad endings.now }
{
    endings.iter().any(|ending| ending.is_bad())
}

/// The exit status of a search with this table.
pub(crate) fn all_status(table: &EndingsTable) -> ExitStatus
    ensures { result ≡ all_status table.now }
{
    if has_bad(&table.endings) {
        return ExitStatus::Doubtful;
    }
    match table.others {
        Others::Absent => ExitStatus::Done,
        Others::Possible(_) => ExitStatus::Incomplete,
    }
}
