ghost use Rattle.std.specs.Prelude.{◌≡◌, ◌<◌, ◌≤◌, ◌+◌, ◌^◌, length, IfOk};
ghost use Rattle.hart_rounds.specs.Starts.{keeps_log};
ghost use Rattle.guest_rounds.specs.HalfRounds.{IsHalfDone};
ghost use Rattle.round_schedule.specs.Bounds.{AreWorkers};

use crate::crew::Crew;
use crate::guest::GuestState;
use hart_rounds::HartEnd;
use pages::OutOfMemory;
use parallel_phase::Gate;
use round_planner::Plan;
use serial_phase::SharedState;
use std::sync::Wait;
use std::thread::Threads;

/// A round between its parallel phase and its commit.
#[derive(Drop)]
pub struct HalfRound {
    /// What the harts share, as the round began.
    pub shared: SharedState,
    /// What the harts' part of the parallel phase left, in hart order.
    pub ends: Vec<HartEnd>,
}

impl GuestState {
    /// Does the parallel phase of the round after `done` rounds by the workers of a crew, and hands over what it left.
    pub fn into_half_round<G: Gate + Sync, R: Threads + Wait + Sync>(
        mut self,
        crew: &Crew<'_, G, R>,
        plan: &Plan,
        done: u32,
    ) -> Result<HalfRound, OutOfMemory>
        requires workers { AreWorkers crew.now.workers }
        requires harts { length self.harts ≡ plan.now.harts }
        requires done { done + 1 < 2 ^ 32 }
        ensures { IfOk result (λ r.
            IsHalfDone (keeps_log crew.now.form) plan.now done self r.shared r.ends.items) }
    {
        let ends = self.do_parallel(crew, plan, done)?;
        Ok(HalfRound {
            shared: self.into_shared(),
            ends,
        })
    }
}
