//! How many rounds are looked through before a debugger is asked whether to go on.

ghost use Rattle.std.specs.Prelude.{◌≤◌, ◌-◌, ◌<◌, ◌^◌};
ghost use Rattle.gdb_runs.specs.Ways.{rounds_left};

use round_planner::Plan;
use watching::Way;

/// About how many instructions are looked through then.
pub const MOST_STEPS: u64 = 4_000_000;

/// On the way back each stretch has at least this part of the rounds before it, since it takes a run from the first round on.
const PART_BACK: u32 = 8;

/// How many instructions the harts may do in a round by a plan, in the parallel phase.
fn steps_of(plan: &Plan, round: u32) -> u64
    requires round { 1 ≤ round }
{
    let mut steps: u64 = 0;
    for hart in 0..plan.harts() {
        steps = steps.saturating_add(u64::from(plan.quota(round, hart)));
    }
    steps
}

/// How many steps of a hart are done before a debugger is answered, where each takes the instructions of the round after so many: one at least.
pub fn steps_in_round(plan: &Plan, done: u32) -> u64
    requires done { done ≤ 2 ^ 32 - 2 }
    ensures { 1 ≤ result }
{
    let steps = steps_of(plan, done + 1);
    if steps == 0 || MOST_STEPS < steps {
        return 1;
    }
    MOST_STEPS / steps
}

/// How many rounds the next stretch has where so many are done, of those that are left that way, and about how many instructions they
/// come to with those before: one round at least, and no more than asked for.
pub fn stretch_of(plan: &Plan, way: Way, done: u32, left: u32, most: u32, before: u64) -> (u32, u64)
    requires some { 1 ≤ left }
    requires left { left ≤ rounds_left way (2 ^ 32 - 2) done }
    requires done { done ≤ 2 ^ 32 - 2 }
    ensures some { 1 ≤ result.0 }
    ensures few { result.0 ≤ left }
{
    let least = match way {
        Way::On => 1,
        Way::Back => done / PART_BACK,
    };
    let mut steps = before;
    for count in 0..left {
        let round = round_of(way, done, count);
        steps = steps.saturating_add(steps_of(plan, round));
        if count + 1 >= most || (count + 1 >= least && steps >= MOST_STEPS) {
            return (count + 1, steps);
        }
    }
    (left, steps)
}

/// The round after so many others that way, where so many are done.
fn round_of(way: Way, done: u32, count: u32) -> u32
    requires left { count < rounds_left way (2 ^ 32 - 2) done }
    requires done { done ≤ 2 ^ 32 - 2 }
    ensures some { 1 ≤ result }
{
    match way {
        Way::On => done + count + 1,
        Way::Back => done - count,
    }
}
