ghost use Rattle.std.specs.Prelude.{◌≤◌};

use hart_step::Hart;
use round_planner::Plan;

/// A round of fewer instructions is done by one worker: waking others takes longer than they save.
// docs/decisions/threads.md
const WORTH_SHARING: u64 = 12_288;

/// How many instructions of a larger round are worth a worker.
const WORTH_A_WORKER: u64 = 4_096;

/// About how many instructions the harts do together in the next round.
#[derive(Clone, Copy)]
pub struct RoundWork {
    /// How many they did in the last one, where there was one.
    last: Option<u64>,
}

impl RoundWork {
    /// Of a run none of whose rounds was noted.
    pub fn unknown() -> RoundWork {
        RoundWork { last: None }
    }

    /// Notes the last round, by how many instructions were done before it and after it.
    pub fn note(&mut self, before: u64, after: u64) {
        self.last = Some(after.wrapping_sub(before));
    }

    /// How many workers the round after `rounds` rounds is worth, of these at most. It does about as much as the last one, or what
    /// the plan allows. The part of each of the harts that run is work for one.
    pub fn workers_for(&self, plan: &Plan, rounds: u32, running: u32, workers: u32) -> u32
        requires { 1 ≤ workers }
        ensures some { 1 ≤ result }
        ensures most { result ≤ workers }
    {
        let work = match self.last {
            Some(work) => work,
            None => most_work(plan, rounds),
        };
        if work < WORTH_SHARING {
            return 1;
        }
        let worth = (work / WORTH_A_WORKER).min(u64::from(running));
        if worth <= 1 {
            1
        } else if worth < u64::from(workers) {
            worth as u32
        } else {
            workers
        }
    }
}

/// How many instructions the harts have done together, modulo 2 to the 64th.
pub fn instructions_done(harts: &[Hart]) -> u64 {
    let mut done: u64 = 0;
    for hart in harts {
        done = done.wrapping_add(hart.done);
    }
    done
}

/// How many instructions the harts may do together in the round after `rounds` rounds, outside their serial turns.
fn most_work(plan: &Plan, rounds: u32) -> u64 {
    if rounds == u32::MAX {
        return 0;
    }
    let mut work: u64 = 0;
    for hart in 0..plan.harts() {
        work = work.wrapping_add(u64::from(plan.quota(rounds + 1, hart)));
    }
    work
}
