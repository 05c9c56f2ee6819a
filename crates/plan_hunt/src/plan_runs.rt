ghost use Rattle.std.specs.Prelude.{◌≡◌, IfOk};
ghost use denote.Param.Send.{IsSync};

use crate::ending::Ending;
use pages::OutOfMemory;
use round_planner::Plan;
use std::sync::Wait;
use std::thread::Threads;

/// What can be run under any plan.
pub trait PlanRuns {
    ghost use Rattle.plan_hunt.specs.Endings.{Ended};
    ghost use Rattle.round_planner.specs.Quotas.{Planned};

    /// The ending of the run under each plan.
    ghost ends: { Self → Planned → Ended };

    /// Runs under a plan.
    ///
    /// # Errors
    ///
    /// The run was refused memory.
    fn run_under<R: Threads + Wait + Sync>(&self, rt: &R, plan: Plan) -> Result<Ending, OutOfMemory>
        requires { IsSync R.row }
        ensures { IfOk result (λ e. e ≡ ends self.now plan) };
}
