//! Whether the stores of a list that are laid into memory are behind what goes on late from a state.
ghost use Rattle.std.specs.Prelude.{◌≡◌, ℕ, Bool, length, IfSome, IsTrue};
ghost use Rattle.all_endings.specs.RunStates.{Move};
ghost use Rattle.hart_states.specs.States.{listed, state_of};
ghost use Rattle.hart_step.specs.Numbers.{plus};
ghost use Rattle.early_reads.specs.Checking.{has_early, map_of};
ghost use Rattle.early_reads.specs.EarlyMaps.{Agrees, LeavesOut};
ghost use Rattle.early_reads.specs.Windows.{late_of};
ghost use Rattle.late_spots.specs.LateRuns.{IsBehindThem};
ghost use Rattle.late_spots.specs.Onward.{IsOpened, MakesAt, OpensPassed};

use crate::own_stores::has_own_listed;
use crate::passing::{does_none, does_none_laid, has_passed, has_passed_all, loads_from};
use early_reads::{EarlyBytes, EarlyPoint, LateKinds, agrees_there, bytes_at, is_shut, leaves_out};
use hart_states::{ListedStore, RunState};
use round_schedule::Access;
use run_places::Against;

/// What is late behind a late access of a hart that owes stores of the list, or none.
pub(crate) fn late_of(access: &Access, owes: bool) -> LateKinds
    ensures { result ≡ late_of owes access.now }
{
    LateKinds {
        loads: access.loads(),
        stores: access.stores(),
        owes,
    }
}

/// Whether a map tells what a hart may load early behind a late operation from a state.
fn is_told(points: &[EarlyPoint], state: &RunState) -> bool
    ensures agrees { IsTrue result → Agrees ((map_of points.now).constants state.now.pc)
        state.now.registers }
    ensures leaves { IsTrue result → LeavesOut (map_of points.now) state.now.pc }
{
    agrees_there(points, state) && leaves_out(points, state.pc)
}

/// What a hart may load early behind a late access.
#[derive(Clone, Copy)]
pub(crate) enum Opened {
    /// Nothing.
    Nothing,
    /// What the map tells behind it.
    ByMap,
    /// All bytes, as far as is known.
    All,
}

/// What a hart may load early behind a late access from a state, if it owes stores of the list, or none.
pub(crate) fn opens(
    points: &[EarlyPoint],
    list: &[ListedStore],
    state: &RunState,
    access: &Access,
    owes: bool,
) -> Opened
    ensures { IsOpened result (map_of points.now) (length list.now) owes (state_of state.now)
        access.now }
{
    if list.len() <= loads_from(state) {
        return Opened::Nothing;
    }
    if !is_told(points, state) {
        return Opened::All;
    }
    if is_shut(late_of(access, owes), access) {
        return Opened::Nothing;
    }
    Opened::ByMap
}

/// The bytes that a map tells behind an access from a state. None where it tells none: all.
pub(crate) fn bytes_behind<'a>(
    points: &'a [EarlyPoint],
    state: &RunState,
    access: &Access,
    owes: bool,
) -> Option<&'a EarlyBytes>
    ensures { IfSome result (λ s. (x : ℕ) → (map_of points.now).bytes (late_of owes access.now)
        (plus state.now.pc 4) x ≡ has_early s.now x) }
{
    bytes_at(points, late_of(access, owes), state.pc.wrapping_add(4))
}

/// Whether a hart has passed the stores that are laid into memory to all bytes that it may load early behind a late access.
fn opens_passed(
    points: &[EarlyPoint],
    list: &[ListedStore],
    stays: &[bool],
    state: &RunState,
    access: &Access,
    owes: bool,
) -> bool
    ensures { IsTrue result → OpensPassed (map_of points.now) stays.now (listed list.now) owes
        (state_of state.now) access.now }
{
    match opens(points, list, state, access, owes) {
        Opened::Nothing => true,
        Opened::ByMap => match bytes_behind(points, state, access, owes) {
            Some(set) => has_passed(set, list, stays, state),
            None => has_passed_all(stays, state),
        },
        Opened::All => has_passed_all(stays, state),
    }
}

/// Whether the stores that are laid into memory are behind what goes on from a place by a late access.
pub(crate) fn goes_behind(
    points: &[EarlyPoint],
    against: &Against<'_>,
    stays: &[bool],
    state: &RunState,
    access: &Access,
) -> bool
    ensures { IsTrue result → (owes : Bool) × (bytes : ℕ → Bool) × ((v : Move) →
        MakesAt state.now.pc access.now v →
        IsBehindThem (map_of points.now) against.now.hart stays.now (listed against.now.list.now)
        owes bytes (state_of state.now) v) }
{
    if !has_own_listed(against.list, state) {
        return false;
    }
    if !does_none_laid(against.hart, against.list, stays, state) {
        return false;
    }
    let owes = !does_none(against.hart, against.list, state);
    opens_passed(points, against.list, stays, state, access, owes)
}
