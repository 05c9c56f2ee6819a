ghost use Rattle.std.specs.Prelude.{◌≡◌};
ghost use Rattle.weak_commands.specs.Status.{fences_status};

use command_line::FencesFailOn;
use fence_table::FenceTable;
use program_files::ExitStatus;

/// The exit status of a search for missing fences with this table.
pub(crate) fn fences_status(fail_on: FencesFailOn, table: &FenceTable) -> ExitStatus
    ensures { result ≡ fences_status fail_on table.now }
{
    match fail_on {
        FencesFailOn::Never => ExitStatus::Done,
        FencesFailOn::Missing => {
            if table.missing.len() != 0 {
                ExitStatus::Lacking
            } else if table.ordinary.plans == 0
                && table.unnamed.plans == 0
                && table.running.plans == 0
            {
                ExitStatus::Done
            } else {
                ExitStatus::Doubtful
            }
        }
    }
}
