//! The stores of the list that a hart still owes.
ghost use Rattle.std.specs.Prelude.{IsTrue};
ghost use Rattle.all_endings.specs.Walking.{IsPaid};
ghost use Rattle.hart_states.specs.States.{listed};
ghost use Rattle.private_bytes.specs.PrivateWalks.{IsLost};
ghost use Rattle.run_places.specs.Spots.{place_of};

use crate::place::{Place, is_paid};
use hart_states::ListedStore;
use run_bounds::{TouchedByte, byte_known};

/// Whether a hart did all its stores of the list.
pub(crate) fn owes_nothing(hart: u8, list: &[ListedStore], place: &Place) -> bool
    ensures { IsPaid hart (listed list.now) (place_of place.now) → IsTrue result }
{
    for store in 0..list.len() {
        if list[store].hart == hart && !is_paid(&place.paid, store) {
            return false;
        }
    }
    true
}

/// Whether a hart owes a store of the list that it can't do any more, behind a move from a place that wasn't lost: then the move was on one of
/// the store's bytes.
pub fn is_lost(hart: u8, list: &[ListedStore], before: &Place, place: &Place) -> bool
    ensures { IsTrue result → IsLost hart (listed list.now) (place_of place.now) }
{
    if owes_nothing(hart, list, place) {
        return false;
    }
    for index in 0..place.state.bytes.len() {
        let byte = place.state.bytes[index];
        if is_raised(&before.state.bytes, index, byte.touched)
            && is_past_due(hart, list, place, byte.address)
        {
            return true;
        }
    }
    false
}

/// Whether the time behind the operations on the byte that is kept at an index is later than it was before.
fn is_raised(before: &[TouchedByte], index: usize, touched: usize) -> bool {
    match before.get(index) {
        Some(byte) => byte.touched < touched,
        None => true,
    }
}

/// Whether a hart owes a store to a byte, and an operation on that stands behind the store's place in the list.
#[tactic(auto, using(crate::proofs::Losing::lost_at))]
fn is_past_due(hart: u8, list: &[ListedStore], place: &Place, address: u64) -> bool
    ensures { IsTrue result → IsLost hart (listed list.now) (place_of place.now) }
{
    let touched = byte_known(&place.state.bytes, address).touched;
    for store in 0..list.len() {
        if store < touched
            && list[store].hart == hart
            && list[store].writes(address)
            && !is_paid(&place.paid, store)
        {
            return true;
        }
    }
    false
}
