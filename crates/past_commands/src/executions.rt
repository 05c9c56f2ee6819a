//! What executions aren't asked.
ghost use Rattle.std.specs.Prelude.{◌≡◌, ◌||◌, IfErr, None, OnErr, OnOk, Err, false, is_some, true};
ghost use Rattle.host_io.specs.declared.error.RunError.TheVariants as refusals;
ghost use Rattle.program_files.specs.declared.failure.CommandFailure.TheVariants as failures;
ghost use Rattle.round_schedule.specs.Bounds.{AreNoWorkers, AreWorkers};

use host_io::RunError;
use program_files::CommandFailure;
use round_schedule::MOST_WORKERS;

/// Refuses a question about rounds.
///
/// # Errors
///
/// `NoRounds`.
pub fn refuse_rounds(asked: bool) -> Result<(), CommandFailure>
    ensures asked { asked ≡ true → result ≡ Err failures.NoRounds }
    ensures ok { OnOk result (asked ≡ false) }
    ensures errors { OnErr result (asked ≡ true) }
{
    if asked {
        return Err(CommandFailure::NoRounds);
    }
    Ok(())
}

/// Refuses a question about rounds from one on or up to one.
pub(crate) fn refuse_some_rounds(from: Option<u32>, to: Option<u32>) -> Result<(), CommandFailure>
    ensures from { OnOk result (from ≡ None) }
    ensures to { OnOk result (to ≡ None) }
    ensures errors { IfErr result (λ f. (f ≡ failures.NoRounds) ×
        ((is_some from || is_some to) ≡ true)) }
{
    match (from, to) {
        (None, None) => Ok(()),
        (Some(_), _) | (None, Some(_)) => Err(CommandFailure::NoRounds),
    }
}

/// Refuses a number of workers as the questions about recordings do.
///
/// # Errors
///
/// `WorkersOutOfRange` for a number that isn't 1 to 16.
pub fn refuse_workers(workers: u32) -> Result<(), CommandFailure>
    ensures ok { OnOk result (AreWorkers workers) }
    ensures errors { OnErr result (AreNoWorkers workers) }
    ensures refused { IfErr result (λ f. f
        ≡ failures.Refused refusals.WorkersOutOfRange) }
{
    if workers < 1 || workers > MOST_WORKERS {
        return Err(CommandFailure::from(RunError::WorkersOutOfRange));
    }
    Ok(())
}
