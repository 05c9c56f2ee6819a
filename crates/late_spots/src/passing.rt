//! Whether the stores of a list are behind what goes on from a state.
ghost use Rattle.std.specs.Prelude.{◌≡◌, ◌≤◌, ◌<◌, ℕ, true, false, length, slice_index_or, IsTrue};
ghost use Rattle.pages.specs.Memory.{in_range, width_bytes};
ghost use Rattle.all_endings.specs.RunStates.{stores_from};
ghost use Rattle.all_endings.specs.StoreLists.{has_byte, no_store};
ghost use Rattle.hart_states.specs.States.{listed, state_of, stored_of};
ghost use Rattle.list_suffixes.specs.Staying.{stays_at};
ghost use Rattle.early_reads.specs.Checking.{has_early, is_loaded};
ghost use Rattle.early_reads.specs.Windows.{ArePassed, IsPassedAt, loads_from};
ghost use Rattle.late_spots.specs.LateRuns.{AreDone, AreLaidDone, IsDoneAt};

use early_reads::{EarlyBytes, LoadedBytes};
use hart_states::{ListedStore, RunState, store_at};
use run_bounds::byte_known;

/// The least time of each load that comes.
pub(crate) fn loads_from(state: &RunState) -> usize
    ensures { result ≡ loads_from (state_of state.now) }
{
    let kinds = &state.kinds;
    kinds.acquires.max(kinds.load_load.max(kinds.store_load))
}

/// The least time of each store to a byte that comes.
pub fn stores_from(state: &RunState, address: u64) -> usize
    ensures { result ≡ stores_from (state_of state.now) address }
{
    let (kinds, carried) = (&state.kinds, &state.carried);
    let by_kind = kinds.acquires.max(kinds.load_store.max(kinds.store_store));
    let by_registers = carried.steered.max(carried.addressed);
    byte_known(&state.bytes, address)
        .touched
        .max(by_kind.max(by_registers))
}

/// Whether the store at a place of a list stays in it: those behind what is told all do.
pub fn stays_at(stays: &[bool], index: usize) -> bool
    ensures { result ≡ stays_at stays.now index }
{
    match stays.get(index) {
        Some(stay) => *stay,
        None => true,
    }
}

// ---- stores that the hart does

/// Whether a store at a place of the list, if it is the hart's, was done.
pub(crate) fn is_done(hart: u8, index: usize, store: &ListedStore, state: &RunState) -> bool
    ensures { IsTrue result → IsDoneAt hart (state_of state.now) index (stored_of store.now) }
{
    store.hart != hart || (store.writes(store.address) && index < stores_from(state, store.address))
}

/// The same of the store that the list has at a place.
fn is_done_at(hart: u8, list: &[ListedStore], index: usize, state: &RunState) -> bool
    ensures { IsTrue result → IsDoneAt hart (state_of state.now) index
        (slice_index_or (listed list.now) index no_store) }
{
    match store_at(list, index) {
        Some(store) => is_done(hart, index, &store, state),
        None => false,
    }
}

/// Whether the hart does none of the stores of a list any more.
pub(crate) fn does_none(hart: u8, list: &[ListedStore], state: &RunState) -> bool
    ensures { IsTrue result → AreDone hart (listed list.now) (state_of state.now) }
{
    for index in 0..list.len() {
        if !is_done_at(hart, list, index, state) {
            return false;
        }
    }
    true
}

/// The same, if that store is laid into memory.
fn is_done_or_stays(
    hart: u8,
    list: &[ListedStore],
    stays: &[bool],
    index: usize,
    state: &RunState,
) -> bool
    ensures { IsTrue result → stays_at stays.now index ≡ false →
        IsDoneAt hart (state_of state.now) index (slice_index_or (listed list.now) index no_store) }
{
    stays_at(stays, index) || is_done_at(hart, list, index, state)
}

/// Whether the hart does none of the stores that are laid into memory.
pub(crate) fn does_none_laid(
    hart: u8,
    list: &[ListedStore],
    stays: &[bool],
    state: &RunState,
) -> bool
    ensures { IsTrue result → AreLaidDone hart stays.now (listed list.now) (state_of state.now) }
{
    for index in 0..stays.len() {
        if !is_done_or_stays(hart, list, stays, index, state) {
            return false;
        }
    }
    true
}

// ---- stores that loads have behind them

/// Whether a store is to a byte of a load.
fn meets(bytes: &LoadedBytes, store: &ListedStore) -> bool
    ensures { result ≡ false → (x : ℕ) →
        in_range bytes.now.address (width_bytes bytes.now.width) x ≡ true →
        has_byte (stored_of store.now) x ≡ false }
{
    if bytes.address <= store.address {
        store.address - bytes.address < bytes.width.bytes()
    } else {
        bytes.address - store.address < store.width.bytes()
    }
}

/// Whether a store is to none of the bytes of some loads.
fn misses_each(loads: &[LoadedBytes], store: &ListedStore) -> bool
    ensures { IsTrue result → (x : ℕ) → is_loaded loads.now x ≡ true →
        has_byte (stored_of store.now) x ≡ false }
{
    for bytes in loads {
        if meets(bytes, store) {
            return false;
        }
    }
    true
}

/// Whether it is to none of the bytes that may be loaded early.
fn misses(set: &EarlyBytes, store: &ListedStore) -> bool
    ensures { IsTrue result → (x : ℕ) → has_early set.now x ≡ true →
        has_byte (stored_of store.now) x ≡ false }
{
    match set {
        EarlyBytes::All => false,
        EarlyBytes::Among(loads) => misses_each(loads, store),
    }
}

/// Whether a store at a place of the list stands before each load that comes, or is to none of the bytes that may be loaded early.
pub(crate) fn is_passed(
    set: &EarlyBytes,
    index: usize,
    store: &ListedStore,
    state: &RunState,
) -> bool
    ensures { IsTrue result → IsPassedAt (has_early set.now) (state_of state.now) index
        (stored_of store.now) }
{
    index < loads_from(state) || misses(set, store)
}

/// The same of the store that the list has at a place.
fn is_passed_at(set: &EarlyBytes, list: &[ListedStore], index: usize, state: &RunState) -> bool
    ensures { IsTrue result → IsPassedAt (has_early set.now) (state_of state.now) index
        (slice_index_or (listed list.now) index no_store) }
{
    match store_at(list, index) {
        Some(store) => is_passed(set, index, &store, state),
        None => false,
    }
}

/// The same, if that store is laid into memory.
fn is_passed_or_stays(
    set: &EarlyBytes,
    list: &[ListedStore],
    stays: &[bool],
    index: usize,
    state: &RunState,
) -> bool
    ensures { IsTrue result → stays_at stays.now index ≡ false →
        IsPassedAt (has_early set.now) (state_of state.now) index
        (slice_index_or (listed list.now) index no_store) }
{
    stays_at(stays, index) || is_passed_at(set, list, index, state)
}

/// Whether each store of a list that is laid into memory, to the bytes that may be loaded early, stands before each load that comes.
pub(crate) fn has_passed(
    set: &EarlyBytes,
    list: &[ListedStore],
    stays: &[bool],
    state: &RunState,
) -> bool
    ensures { IsTrue result → ArePassed stays.now (listed list.now) (has_early set.now)
        (state_of state.now) }
{
    for index in 0..stays.len() {
        if !is_passed_or_stays(set, list, stays, index, state) {
            return false;
        }
    }
    true
}

/// Whether a store at a place stays in the list, or stands before each load that comes.
fn is_early_or_stays(stays: &[bool], index: usize, state: &RunState) -> bool
    ensures { IsTrue result → stays_at stays.now index ≡ false →
        index < loads_from (state_of state.now) }
{
    stays_at(stays, index) || index < loads_from(state)
}

/// Whether each that is laid into memory stands before each load that comes.
pub(crate) fn has_passed_all(stays: &[bool], state: &RunState) -> bool
    ensures { IsTrue result → (k : ℕ) → stays_at stays.now k ≡ false →
        k < loads_from (state_of state.now) }
{
    for index in 0..stays.len() {
        if !is_early_or_stays(stays, index, state) {
            return false;
        }
    }
    true
}
