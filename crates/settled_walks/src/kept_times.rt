//! Times that are counted by the stores that stay in a list, and places of stores among these.
ghost use Rattle.std.specs.Prelude.{◌≡◌, ◌≤◌, ◌<◌, ◌+◌, ◌&&◌, ℕ, length, not, slice_index, slice_index_or, Some};
ghost use Rattle.all_endings.specs.Lowering.{CarriedAtMost};
ghost use Rattle.all_endings.specs.StoreLists.{has_byte, no_store};
ghost use Rattle.hart_states.specs.States.{listed};
ghost use Rattle.list_suffixes.specs.Staying.{carried_kept, kept_before, kinds_kept, last_laid, place_kept, stays_at};
ghost use Rattle.round_schedule.specs.declared.span.Span.{Span as Held};
ghost use Rattle.run_bounds.specs.Bounds.{carried_of, kinds_of};

use hart_states::{ListedStore, store_at};
use late_spots::stays_at;
use round_schedule::Span;
use run_bounds::{CarriedTimes, KindTimes};

/// How many of so many first stores stay.
pub(crate) fn kept_before(stays: &[bool], time: usize) -> usize
    ensures { result ≡ kept_before stays.now time }
{
    let mut kept = 0;
    for store in 0..time {
        if stays_at(stays, store) {
            kept += 1;
        }
    }
    kept
}

/// Whether the store at a place of a list is laid into memory, and writes a byte.
fn lays_at(stays: &[bool], list: &[ListedStore], store: usize, address: u64) -> bool
    ensures { result ≡ (not (stays_at stays.now store)
        && has_byte (slice_index_or (listed list.now) store no_store) address) }
{
    if stays_at(stays, store) {
        return false;
    }
    match store_at(list, store) {
        Some(laid) => laid.writes(address),
        None => false,
    }
}

/// The place behind the last store that is laid into memory and writes a byte; 0 where none does.
fn last_laid(stays: &[bool], list: &[ListedStore], address: u64) -> usize
    ensures { result ≡ last_laid stays.now (listed list.now) address (length stays.now) }
{
    let mut last = 0;
    for store in 0..stays.len() {
        if lays_at(stays, list, store, address) {
            last = store + 1;
        }
    }
    last
}

/// Where a store to a byte stands among those that stay: nowhere, as what memory has, up to the last that is laid there.
pub(crate) fn store_kept(stays: &[bool], list: &[ListedStore], address: u64, place: usize) -> usize
    ensures { result ≡ place_kept stays.now (listed list.now) address place }
{
    let last = last_laid(stays, list, address);
    if place <= last {
        return 0;
    }
    kept_before(stays, place)
}

/// The bounds by kinds.
pub(crate) fn kinds_kept(kinds: &KindTimes, stays: &[bool]) -> KindTimes
    ensures { kinds_of result ≡ kinds_kept stays.now (kinds_of kinds.now) }
{
    KindTimes {
        loads: kept_before(stays, kinds.loads),
        stores: kept_before(stays, kinds.stores),
        acquires: kept_before(stays, kinds.acquires),
        annotated: kept_before(stays, kinds.annotated),
        load_load: kept_before(stays, kinds.load_load),
        load_store: kept_before(stays, kinds.load_store),
        store_load: kept_before(stays, kinds.store_load),
        store_store: kept_before(stays, kinds.store_store),
    }
}

/// The bounds by dependencies.
pub(crate) fn carried_kept(carried: &CarriedTimes, stays: &[bool]) -> CarriedTimes
    ensures { CarriedAtMost (carried_of result) (carried_kept stays.now (carried_of carried.now)) }
{
    CarriedTimes {
        registers: registers_kept(&carried.registers, stays),
        steered: kept_before(stays, carried.steered),
        addressed: kept_before(stays, carried.addressed),
    }
}

fn registers_kept(registers: &[usize; 32], stays: &[bool]) -> [usize; 32]
    ensures old { length registers.now ≡ 32 }
    ensures new { length result ≡ 32 }
    ensures each { (r : ℕ) → r < 32 →
        slice_index result r ≡ kept_before stays.now (slice_index registers.now r) }
{
    let mut kept = [0; 32];
    for register in 0..32 {
        kept[register] = kept_before(stays, registers[register]);
    }
    kept
}

/// The places of the stores that an LR read, byte by byte; 0 where no reservation is held.
pub(crate) fn sources_kept(
    stays: &[bool],
    list: &[ListedStore],
    held: Option<Span>,
    sources: &[usize; 8],
) -> [usize; 8]
    ensures { (s : Held) (k : ℕ) → held ≡ Some s →
        place_kept stays.now (listed list.now) (s.address + k) (slice_index sources.now k)
        ≤ slice_index result k }
{
    match held {
        Some(span) => sources_from(stays, list, span.address, sources),
        None => [0; 8],
    }
}

/// The same of the bytes from an address on.
fn sources_from(
    stays: &[bool],
    list: &[ListedStore],
    address: u64,
    sources: &[usize; 8],
) -> [usize; 8]
    ensures { (k : ℕ) →
        place_kept stays.now (listed list.now) (address + k) (slice_index sources.now k)
        ≤ slice_index result k }
{
    let mut kept = [0; 8];
    for index in 0..8 {
        kept[index] = source_kept(stays, list, address, index, sources[index]);
    }
    kept
}

/// The place of the store that an LR read of a byte, at a distance from an address. No store of the list writes one behind the last address.
fn source_kept(
    stays: &[bool],
    list: &[ListedStore],
    address: u64,
    distance: usize,
    source: usize,
) -> usize
    requires { distance < 8 }
    ensures { place_kept stays.now (listed list.now) (address + distance) source ≤ result }
{
    let end = u64::MAX - distance as u64;
    if address > end {
        return kept_before(stays, source);
    }
    store_kept(stays, list, address + distance as u64, source)
}
