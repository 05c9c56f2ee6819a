//! The stores of the list that a hart owes.
ghost use Rattle.std.specs.Prelude.{◌≡◌, ◌<◌, ℕ, length, true, false, IsTrue};
ghost use Rattle.memory_order.specs.Operations.{covers};
ghost use Rattle.hart_states.specs.States.{listed};
ghost use Rattle.list_suffixes.specs.LateDebts.{Owes};
ghost use Rattle.run_places.specs.Spots.{spot_of};
ghost use Rattle.late_spots.specs.Onward.{IsOwedAt, LosesDebts};

use crate::branching::is_branched_on;
use round_schedule::Access;
use run_places::{Against, Place, is_paid};

/// Whether a hart owes the store at a place of the list, and this writes a byte.
fn owes_at(against: &Against<'_>, place: &Place, index: usize, byte: u64) -> bool
    requires { index < length against.now.list.now }
    ensures { IsTrue result → IsOwedAt against.now.hart (listed against.now.list.now)
        (spot_of place.now) index byte }
{
    let store = &against.list[index];
    store.hart == against.hart && !is_paid(&place.paid, index) && store.writes(byte)
}

/// Whether a byte is one of an access's.
fn covers(access: &Access, byte: u64) -> bool
    ensures { result ≡ covers access.now byte }
{
    let start = access.address();
    start <= byte && byte - start < access.byte_count()
}

/// Whether a hart owes the store at a place of the list, and an access is on one of its bytes.
fn touches_at(against: &Against<'_>, place: &Place, index: usize, access: &Access) -> bool
    requires { index < length against.now.list.now }
    ensures { IsTrue result → (x : ℕ) × IsOwedAt against.now.hart (listed against.now.list.now)
        (spot_of place.now) index x × (covers access.now x ≡ true) }
{
    let byte = access.address().max(against.list[index].address);
    covers(access, byte) && owes_at(against, place, index, byte)
}

/// Whether a hart owes a store of the list.
fn owes_some(against: &Against<'_>, place: &Place) -> bool
    ensures { IsTrue result → Owes against.now.hart (listed against.now.list.now)
        (spot_of place.now) }
{
    for index in 0..against.list.len() {
        if owes_at(against, place, index, against.list[index].address) {
            return true;
        }
    }
    false
}

/// Whether a hart owes a store of the list, and an access is on one of its bytes.
fn touches_owed(against: &Against<'_>, place: &Place, access: &Access) -> bool
    ensures { IsTrue result → (o : Owes against.now.hart (listed against.now.list.now)
        (spot_of place.now)) × (covers access.now o.byte ≡ true) }
{
    for index in 0..against.list.len() {
        if touches_at(against, place, index, access) {
            return true;
        }
    }
    false
}

/// Whether a hart that owes stores of the list can't do them behind a late access: it is on a byte of one, or a load with a branch on it right behind.
pub(crate) fn loses_debts(against: &Against<'_>, place: &Place, access: &Access) -> bool
    ensures { IsTrue result → LosesDebts against.now.memory.pages.now.memory against.now.hart
        (listed against.now.list.now) (spot_of place.now) access.now }
{
    if touches_owed(against, place, access) {
        return true;
    }
    if !owes_some(against, place) {
        return false;
    }
    is_branched_on(against.memory.pages, place.state.pc)
}
