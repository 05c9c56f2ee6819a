//! A hart before an instruction of its whole run, and what it saw there.
ghost use Rattle.std.specs.Prelude.{IfOk};
ghost use Rattle.past_commands.specs.Answers.{IsSightBefore};
ghost use Rattle.replayer.specs.Refusals.{RefusedInOrder};
ghost use Rattle.replayer.specs.Replayed.{IsPlanFor, start_of};
ghost use Rattle.round_planner.specs.Quotas.{Planned};

use host_io::RunError;
use recording::Recording;
use replayer::{Sight, sight_at, state_before};
use std::alloc::Global;
use std::sync::Wait;
use std::thread::Threads;

/// The round in which a hart did its instruction at a place of the run, and the hart and what it saw before it: after as many
/// instructions of that round as lie between the round's start and the place.
pub(crate) fn sight_before<R: Threads + Wait + Sync>(
    threads: &R,
    alloc: Global,
    recorded: &Recording,
    hart: u32,
    place: u64,
    workers: u32,
) -> Result<Option<(u32, Sight)>, RunError>
    ensures before { IfOk result (λ found. (plan : Planned) × IsPlanFor recorded.now plan ×
        IsSightBefore recorded.now.rounds (start_of recorded.now plan) hart place found) }
    ensures in_order { RefusedInOrder workers recorded.now result }
{
    let Some((round, _)) = state_before(threads, alloc, recorded, hart, place, workers)? else {
        return Ok(None);
    };
    // At most 1,000, and as many as 32 bits hold, so that no count of instructions wraps.
    let _bounds = (recorded.budget(), recorded.rounds());
    let Some(start) = sight_at(threads, alloc, recorded, round, hart, 0, workers)? else {
        unreachable!()
    };
    let count = place.saturating_sub(start.hart().done);
    match sight_at(threads, alloc, recorded, round, hart, count, workers)? {
        Some(sight) => Ok(Some((round, sight))),
        None => unreachable!(),
    }
}
