//! Where an operation may stand.
ghost use Rattle.std.specs.Prelude.{◌≡◌, ◌≤◌, ◌<◌, ℕ, true, slice_index_or};
ghost use Rattle.run_bounds.specs.declared.touched.TouchedByte.{TouchedByte as KeptByte};
ghost use Rattle.run_bounds.specs.Operations.{access_of};
ghost use Rattle.all_endings.specs.HartRuns.{Stands};
ghost use Rattle.all_endings.specs.RunStates.{Move};
ghost use Rattle.hart_states.specs.States.{state_of};
ghost use Rattle.hart_moves.specs.Choosing.{IsComing};

use crate::coming::Coming;
use hart_states::RunState;
use round_schedule::Access;
use run_bounds::{TouchedByte, allows_dependencies, allows_kind};

/// Rule 1: whether a store may stand at a time, behind the operations before it at its bytes.
fn stands_behind(known: &[TouchedByte; 8], count: usize, time: usize) -> bool
    requires few { count ≤ 8 }
    ensures { ((k : ℕ) (d : KeptByte) → k < count → (slice_index_or known.now k d).touched ≤ time) →
        result ≡ true }
{
    for k in 0..count {
        if known[k].touched > time {
            return false;
        }
    }
    true
}

/// Whether an operation may stand at a time, by all rules but 2, 3, 8 and 12.
pub fn may_stand(state: &RunState, coming: &Coming, access: &Access, time: usize) -> bool
    requires coming { IsComing (state_of state.now) coming.now }
    requires access { access.now ≡ access_of coming.now.operation }
    ensures { (v : Move) → v.instruction ≡ coming.now.instruction →
        v.access ≡ access_of coming.now.operation → v.time ≡ time →
        Stands (state_of state.now) v → result ≡ true }
{
    if !allows_kind(&state.kinds, access, time) {
        return false;
    }
    if !allows_dependencies(&state.carried, &coming.used, access, time) {
        return false;
    }
    if access.stores() {
        let count = coming.operation.width.bytes() as usize;
        return stands_behind(&coming.known, count, time);
    }
    true
}
