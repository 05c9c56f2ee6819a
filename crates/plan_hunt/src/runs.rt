ghost use Rattle.std.specs.Prelude.{◌≡◌, ℕ, IfOk};
ghost use denote.Param.Send.{IsSync};

use crate::ending::Ending;
use pages::OutOfMemory;
use std::sync::Wait;
use std::thread::Threads;

/// What can be run under the plans of a family, each by its number.
pub trait Runs {
    ghost use Rattle.plan_hunt.specs.Endings.{Ended};

    /// The ending of each plan's run.
    ghost ends: { Self → ℕ → Ended };

    /// Runs the plan of a number.
    ///
    /// # Errors
    ///
    /// The run was refused memory.
    fn run<R: Threads + Wait + Sync>(&self, rt: &R, number: u32) -> Result<Ending, OutOfMemory>
        requires { IsSync R.row }
        ensures { IfOk result (λ e. e ≡ ends self.now number) };
}
