//! Whether the last stores of a hart are those that a list has at their places.
ghost use Rattle.std.specs.Prelude.{◌≡◌, ℕ, true, IsTrue, Some};
ghost use Rattle.run_bounds.specs.Touched.{known_at};
ghost use Rattle.all_endings.specs.StoreLists.{byte_in, has_byte};
ghost use Rattle.hart_states.specs.States.{listed, own_of, state_of, stored_of};
ghost use Rattle.list_suffixes.specs.CurrentRuns.{OwnStoresAreListed};
ghost use Rattle.late_spots.specs.LateRuns.{IsListedAt, IsOwnListed, OwnStoresAreWithin};

use hart_states::{ListedStore, RunState, store_at};
use round_schedule::Access;
use run_bounds::{OwnByte, TouchedByte};

/// Whether a store wrote what is known of a byte, if that is.
fn wrote(store: &ListedStore, address: u64, byte: Option<u8>) -> bool
    ensures { IsTrue result → (n : ℕ) → byte ≡ Some n → byte_in (stored_of store.now) address ≡ n }
{
    let access = Access::Store {
        width: store.width,
        place: 0,
        address: store.address,
        written: store.number,
    };
    match byte {
        Some(byte) => access.byte_written(address) == byte,
        None => true,
    }
}

/// Whether a store is the last own one to a byte, as that is kept.
fn is_kept(store: &ListedStore, address: u64, own: &OwnByte) -> bool
    ensures writes { IsTrue result → has_byte (stored_of store.now) address ≡ true }
    ensures wrote { IsTrue result → (n : ℕ) → own.now.byte ≡ Some n →
        byte_in (stored_of store.now) address ≡ n }
{
    store.writes(address) && wrote(store, address, own.byte)
}

/// Whether a last own store to a byte stands before the list, or the list has it at its place.
#[tactic(auto, using(crate::proofs::OwnStores::before_listed))]
fn is_listed(list: &[ListedStore], address: u64, own: &OwnByte) -> bool
    ensures { IsTrue result → IsListedAt (listed list.now) address (own_of own.now) }
{
    if own.place == 0 {
        return true;
    }
    if own.place > list.len() {
        return false;
    }
    match store_at(list, own.place - 1) {
        Some(store) => is_kept(&store, address, own),
        None => false,
    }
}

/// The same of what is kept of a byte, if that has an own store.
fn is_own_listed(list: &[ListedStore], byte: &TouchedByte) -> bool
    ensures { IsTrue result → IsOwnListed (listed list.now) byte.now.address byte.now }
{
    match byte.own {
        Some(own) => is_listed(list, byte.address, &own),
        None => true,
    }
}

/// The same of all bytes that are kept.
fn all_listed(list: &[ListedStore], bytes: &[TouchedByte]) -> bool
    ensures { IsTrue result → (x : ℕ) → IsOwnListed (listed list.now) x (known_at bytes.now x) }
{
    for index in 0..bytes.len() {
        if !is_own_listed(list, &bytes[index]) {
            return false;
        }
    }
    true
}

/// Whether each last own store of a state stands before the list, or the list has it at its place.
pub(crate) fn has_own_listed(list: &[ListedStore], state: &RunState) -> bool
    ensures listed { IsTrue result → OwnStoresAreListed (listed list.now) (state_of state.now) }
    ensures within { IsTrue result → OwnStoresAreWithin (listed list.now) (state_of state.now) }
{
    all_listed(list, &state.bytes)
}
