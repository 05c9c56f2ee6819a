//! What the rounds of a history left, in hart order.

ghost use Rattle.std.specs.Prelude.{◌≡◌, ◌<◌, ◌≤◌, [], length, slice_set, vec_capacity};
ghost use Rattle.parallel_phase.specs.Rounds.{IsWholeHistory, IsWholeRound};
ghost use Rattle.round_schedule.specs.declared.bounds.TheConstants.{MOST_HARTS};

use crate::claimed_round::HartRound;
use crate::run_starts::RunStarts;
use hart_rounds::HartEnd;

/// Moves what the rounds of a whole history left to the places of their harts: what stands there before is let go. The list of the
/// history stays, empty, for its capacity.
pub fn place_ends<S: RunStarts>(round: u32, history: &mut Vec<HartRound<S>>, ends: &mut [HartEnd])
    requires whole { IsWholeRound round (length ends.old) history.old.items }
    requires harts { length ends.old ≡ length (S.starts round).harts }
    requires few { length ends.old ≤ MOST_HARTS }
    ensures ends { IsWholeHistory (S.starts round) ends.new }
    ensures emptied { history.new.items ≡ [] }
    ensures room { vec_capacity history.new ≡ vec_capacity history.old }
{
    while let Some(entry) = history.pop() {
        let hart = entry.ticket.hart();
        set_end(ends, hart as usize, entry.into_end());
    }
}

/// Puts what a round left into a place.
fn set_end(ends: &mut [HartEnd], number: usize, end: HartEnd)
    requires { number < length ends.old }
    ensures { ends.new ≡ slice_set ends.old number end }
{
    ends[number] = end;
}
