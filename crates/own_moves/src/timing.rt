//! The least time of an operation on own bytes.
ghost use Rattle.std.specs.Prelude.{◌≡◌, ◌≤◌, ◌<◌, ℕ, slice_index_or, option_map};
ghost use Rattle.run_bounds.specs.declared.touched.TouchedByte.{TouchedByte as KeptByte};
ghost use Rattle.run_bounds.specs.Operations.{access_of};
ghost use Rattle.all_endings.specs.HartRuns.{Stands};
ghost use Rattle.all_endings.specs.RunStates.{Move};
ghost use Rattle.hart_moves.specs.Choosing.{IsComing};
ghost use Rattle.hart_states.specs.States.{own_of, state_of};
ghost use Rattle.private_bytes.specs.PrivateMoves.{needs_of};

use hart_moves::{Coming, may_stand};
use hart_states::RunState;
use round_schedule::Access;
use run_bounds::TouchedByte;

/// The least time at which an operation may stand, by all rules but 2, 3, 8 and 12; no more than `end`.
pub(crate) fn earliest(state: &RunState, coming: &Coming, access: &Access, end: usize) -> usize
    requires coming { IsComing (state_of state.now) coming.now }
    requires access { access.now ≡ access_of coming.now.operation }
    ensures least { (v : Move) → v.instruction ≡ coming.now.instruction →
        v.access ≡ access_of coming.now.operation → Stands (state_of state.now) v →
        result ≤ v.time }
    ensures ends { result ≤ end }
{
    for time in 0..end {
        if may_stand(state, coming, access, time) {
            return time;
        }
    }
    end
}

/// Rule 12: the time of what the hart's own last store to a byte depends on.
fn needs_of(known: &TouchedByte) -> usize
    ensures { result ≡ needs_of (option_map own_of known.now.own) }
{
    match known.own {
        Some(own) => own.needs,
        None => 0,
    }
}

/// Rule 12: the least time behind what the hart's own last stores to some bytes depend on.
pub(crate) fn needs_of_all(known: &[TouchedByte; 8], count: usize) -> usize
    requires few { count ≤ 8 }
    ensures { (time : ℕ) → ((k : ℕ) (d : KeptByte) → k < count →
        needs_of (option_map own_of (slice_index_or known.now k d).own) ≤ time) → result ≤ time }
{
    let mut needs = 0;
    for k in 0..count {
        needs = needs_of(&known[k]).max(needs);
    }
    needs
}
