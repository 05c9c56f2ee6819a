//! Whether a hart may end at a place.
ghost use Rattle.std.specs.Prelude.{◌≡◌, false, IfOk};
ghost use Rattle.hart_states.specs.States.{state_of};
ghost use Rattle.settled_walks.specs.KnownWalks.{GoesOn};

use all_endings::stops_are_known;
use hart_moves::{knows_registers, stop_of};
use hart_states::RunState;
use pages::{OutOfMemory, Pages};
use std::alloc::Global;

/// Whether a hart may end at a state.
pub(crate) fn may_end(alloc: Global, pages: &Pages, state: &RunState) -> Result<bool, OutOfMemory>
    ensures { IfOk result (λ ends. ends ≡ false →
        GoesOn pages.now.memory (state_of state.now)) }
{
    stops_are_known();
    if !knows_registers(state) {
        return Ok(false);
    }
    match stop_of(alloc, pages, state)? {
        Some(_) => Ok(true),
        None => Ok(false),
    }
}
