ghost use Rattle.std.specs.Prelude.{◌≡◌};
ghost use Rattle.run_commands.specs.Printed.{run_status, shown_of};

use command_line::{Print, Shown};
use emulation::RunEnd;
use program_files::ExitStatus;

/// What of a run the line asks for, where it isn't the whole report.
pub(crate) fn shown_of(asked: &Print<'_>) -> Option<emulation::ShownState>
    ensures { result ≡ shown_of asked.now.show asked.now.no_trace }
{
    match asked.show {
        Shown::Report if asked.no_trace => Some(emulation::ShownState::State),
        Shown::Report => None,
        Shown::Harts => Some(emulation::ShownState::Harts),
        Shown::Output => Some(emulation::ShownState::Output),
    }
}

/// The exit status of a run that ended so.
pub(crate) fn run_status(is_strict: bool, end: RunEnd) -> ExitStatus
    ensures { result ≡ run_status is_strict end }
{
    if is_strict && end != RunEnd::Well {
        ExitStatus::Doubtful
    } else {
        ExitStatus::Done
    }
}
