ghost use Rattle.std.specs.Prelude.{IfOk};

use crate::trying::{Found, Trial};
use pages::OutOfMemory;

/// Whoever looks at trials of numbers, also from their workers, and says with what they are over. What else it answers makes no difference to
/// what comes of the numbers that are done.
pub trait TrialObserver {
    ghost use Rattle.std.specs.Prelude.{Bool};
    ghost use Rattle.fence_trials.specs.declared.trying.Trial.{Trial as Came};

    /// Trials that end with a find are over with a number of which this came, or go on.
    ghost answers: { Self → Came → Bool → Type 0 };

    /// Looks at how many numbers are done, and at those that fail by what moved in their executions, and says how many are to be in the next
    /// block: at least one is, and at most 4,096 are.
    fn before_numbers(&self, done: u32, founds: &[Found]) -> u32;

    /// Whether trials that end with a find are over with a number of which this came.
    ///
    /// # Errors
    ///
    /// `OutOfMemory` alone.
    fn is_over_with(&self, trial: &Trial) -> Result<bool, OutOfMemory>
        ensures { IfOk result (answers self.now trial.now) };
}
