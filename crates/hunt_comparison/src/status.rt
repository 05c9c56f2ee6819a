ghost use Rattle.std.specs.Prelude.{◌≡◌};
ghost use Rattle.std.specs.List.{list_all};
ghost use Rattle.hunt_comparison.specs.Status.{compare_status, has_twin};

use crate::twins::Compared;
use program_files::ExitStatus;

/// The exit status of a comparison: whether each ending of either table is one of the other.
pub fn compare_status(olds: &[Compared<'_>], news: &[Compared<'_>]) -> ExitStatus
    ensures { result ≡ compare_status olds.now news.now }
{
    if have_twins(olds) && have_twins(news) {
        ExitStatus::Done
    } else {
        ExitStatus::Doubtful
    }
}

fn have_twins(compared: &[Compared<'_>]) -> bool
    ensures { result ≡ list_all has_twin compared.now }
{
    compared.iter().all(|each| each.twin.is_some())
}
