//! Why an instruction doesn't read the number of its hart's line.

ghost use Rattle.std.specs.Prelude.{◌≡◌, ◌≢◌, ℕ, MatchOption, Some};
ghost use Rattle.execution_scripts.specs.Courses.{misfit_for, misfit_of};

use crate::fault::Misfit;
use execution_checker::StepFault;

/// Why a hart has no next step that reads the number that it said, or none.
pub(crate) fn misfit_for(fault: StepFault, said: Option<u64>) -> Misfit
    ensures { result ≡ misfit_for fault said }
{
    match fault {
        StepFault::OtherNumber { read } => misfit_of(read, said),
        StepFault::NoSuchHart | StepFault::RoundFalls | StepFault::HasStopped => Misfit::NoStep,
    }
}

/// Why an instruction that read a number isn't what its hart said; none where it is.
pub(crate) fn misread(read: Option<u64>, said: Option<u64>) -> Option<Misfit>
    ensures { MatchOption result ((v : ℕ) → read ≡ Some v → said ≡ Some v)
        (λ m. (v : ℕ) × (read ≡ Some v) × (said ≢ Some v) × (m ≡ misfit_of v said)) }
{
    match read {
        Some(read) if said != Some(read) => Some(misfit_of(read, said)),
        _ => None,
    }
}

/// Why a hart that said another number, or none, doesn't read this one.
fn misfit_of(read: u64, said: Option<u64>) -> Misfit
    ensures { result ≡ misfit_of read said }
{
    match said {
        None => Misfit::NoNumber,
        Some(said) => Misfit::OtherNumber { read, said },
    }
}
