//! What a load reads at a time.
ghost use Rattle.std.specs.Prelude.{◌≡◌, ◌+◌, ◌≤◌, ◌<◌, ◌^◌, ℕ, false, length, slice_index, slice_index_or, option_map, MatchOption, Some};
ghost use Rattle.pages.specs.Memory.{byte_of, width_bytes};
ghost use Rattle.hart_step.specs.Step.{width_bits};
ghost use Rattle.run_bounds.specs.Touched.{known_at};
ghost use Rattle.run_bounds.specs.declared.touched.OwnByte.{OwnByte as KeptByte};
ghost use Rattle.all_endings.specs.HartRuns.{Gets, IsRead};
ghost use Rattle.all_endings.specs.RunStates.{Move, RunState};
ghost use Rattle.all_endings.specs.StoreLists.{byte_at, has_byte, last_place, no_store};
ghost use Rattle.hart_states.specs.Opening.{opening_of};
ghost use Rattle.hart_states.specs.Readings.{IsReadingOf, IsSpan};
ghost use Rattle.hart_states.specs.States.{listed, own_of, stored_of};

use crate::listed_store::ListedStore;
use crate::opening_memory::OpeningMemory;
use crate::touching::byte_in;
use pages::Width;
use run_bounds::{OwnByte, TouchedByte, byte_known};

/// A byte that is read.
#[derive(Clone, Copy)]
pub(crate) struct ByteRead {
    /// The place behind the store that it is from.
    pub source: usize,
    /// The byte.
    pub byte: u8,
}

/// A number that is read.
#[derive(Clone, Copy)]
pub struct Reading {
    /// The number.
    pub number: u64,
    /// Of each of its bytes, the place behind the store that it is from.
    pub sources: [usize; 8],
}

/// The store at a place of a list.
#[tactic(auto, using(crate::proofs::Readings::store_listed, crate::proofs::Readings::store_past))]
pub fn store_at(list: &[ListedStore], index: usize) -> Option<ListedStore>
    ensures { MatchOption result (slice_index_or (listed list.now) index no_store ≡ no_store)
        (λ s. slice_index_or (listed list.now) index no_store ≡ stored_of s) }
{
    if index < list.len() {
        return Some(list[index]);
    }
    None
}

/// Whether the store at a place of a list writes a byte.
fn has_byte(list: &[ListedStore], index: usize, x: u64) -> bool
    ensures { result ≡ has_byte (slice_index_or (listed list.now) index no_store) x }
{
    match store_at(list, index) {
        Some(store) => store.writes(x),
        None => false,
    }
}

/// The place behind the last store before a time that writes a byte; 0 where none does.
fn last_place(list: &[ListedStore], x: u64, time: usize) -> usize
    ensures { result ≡ last_place (listed list.now) x time }
{
    for back in 0..time {
        if has_byte(list, time - 1 - back, x) {
            return time - back;
        }
    }
    0
}

/// The byte that the store before a place leaves; before all of them, that of memory where the list begins.
fn byte_behind(list: &[ListedStore], memory: &OpeningMemory<'_>, x: u64, place: usize) -> u8
    requires within { x < length memory.now.pages.now.memory.bytes }
    ensures { result ≡ byte_at (listed list.now) (opening_of memory.now) x place }
{
    if place == 0 {
        return memory.byte(x);
    }
    match store_at(list, place - 1) {
        Some(store) => byte_in(store.number, x.saturating_sub(store.address) as usize),
        None => byte_in(0, x as usize),
    }
}

/// The byte of the hart's own last store, which stands behind the load.
fn forwarded(own: &OwnByte, seen: usize, time: usize) -> Option<ByteRead>
    ensures { (byte : ℕ) → own.now.atomic ≡ false → own.now.needs ≤ time → seen ≤ own.now.place →
        own.now.byte ≡ Some byte →
        result ≡ Some (record { source = own.now.place; byte = byte }) }
{
    if own.atomic || own.needs > time || seen > own.place {
        return None;
    }
    match own.byte {
        Some(byte) => Some(ByteRead {
            source: own.place,
            byte,
        }),
        None => None,
    }
}

/// The hart's own last store to a byte, where it stands behind a time.
fn ahead(known: &TouchedByte, time: usize) -> Option<OwnByte>
    ensures { MatchOption result ((own : KeptByte) → known.now.own ≡ Some own → own.place ≤ time)
        (λ own. (known.now.own ≡ Some own) × (time < own.place)) }
{
    match known.own {
        Some(own) if time < own.place => Some(own),
        _ => None,
    }
}

/// The byte of the last store before a time.
fn remembered(
    list: &[ListedStore],
    memory: &OpeningMemory<'_>,
    seen: usize,
    x: u64,
    time: usize,
) -> Option<ByteRead>
    requires within { x < length memory.now.pages.now.memory.bytes }
    ensures { seen ≤ last_place (listed list.now) x time → result ≡ Some (record {
      source = last_place (listed list.now) x time;
      byte = byte_at (listed list.now) (opening_of memory.now) x
          (last_place (listed list.now) x time);
    }) }
{
    let source = last_place(list, x, time);
    if seen > source {
        return None;
    }
    Some(ByteRead {
        source,
        byte: byte_behind(list, memory, x, source),
    })
}

/// What a load reads of a byte at a time, where it can stand there: there is at most one answer.
fn byte_read(
    list: &[ListedStore],
    memory: &OpeningMemory<'_>,
    known: &TouchedByte,
    x: u64,
    time: usize,
) -> Option<ByteRead>
    requires within { x < length memory.now.pages.now.memory.bytes }
    ensures { (a : RunState) (place byte : ℕ) → a.own x ≡ option_map own_of known.now.own →
        a.seen x ≡ known.now.seen →
        IsRead (listed list.now) (opening_of memory.now) a time x place byte →
        result ≡ Some (record { source = place; byte = byte }) }
{
    match ahead(known, time) {
        Some(own) => forwarded(&own, known.seen, time),
        None => remembered(list, memory, known.seen, x, time),
    }
}

/// What is kept of bytes from an address on.
pub fn span_known(bytes: &[TouchedByte], address: u64, count: usize) -> [TouchedByte; 8]
    requires few { count ≤ 8 }
    requires fits { address + count ≤ 2 ^ 64 }
    ensures { (k : ℕ) (d : TouchedByte) → k < count →
        slice_index_or result k d ≡ known_at bytes.now (address + k) }
{
    let mut known = [TouchedByte {
        address: 0,
        touched: 0,
        seen: 0,
        own: None,
    }; 8];
    for k in 0..count {
        known[k] = byte_known(bytes, address + k as u64);
    }
    known
}

/// The number of some bytes, the least significant first.
fn number_of(bytes: &[u8; 8], width: Width) -> u64
    ensures { (n : ℕ) → n < 2 ^ width_bits width →
        ((k : ℕ) → k < width_bytes width → slice_index bytes.now k ≡ byte_of n k) → result ≡ n }
{
    let byte = u64::from(bytes[0]);
    if let Width::W1 = width {
        return byte;
    }
    let half = byte + 0x100 * u64::from(bytes[1]);
    if let Width::W2 = width {
        return half;
    }
    let word = half + 0x1_0000 * u64::from(bytes[2]) + 0x100_0000 * u64::from(bytes[3]);
    if let Width::W4 = width {
        return word;
    }
    word + 0x1_0000_0000 * u64::from(bytes[4])
        + 0x100_0000_0000 * u64::from(bytes[5])
        + 0x1_0000_0000_0000 * u64::from(bytes[6])
        + 0x100_0000_0000_0000 * u64::from(bytes[7])
}

/// What a load reads from an address on at a time, where it can stand there: there is at most one answer.
pub fn read_at(
    list: &[ListedStore],
    memory: &OpeningMemory<'_>,
    known: &[TouchedByte; 8],
    address: u64,
    width: Width,
    time: usize,
) -> Option<Reading>
    requires within { address + width_bytes width ≤ length memory.now.pages.now.memory.bytes }
    ensures { (a : RunState) (v : Move) (n : ℕ) → IsSpan a known.now address (width_bytes width) →
        v.time ≡ time →
        Gets (listed list.now) (opening_of memory.now) a v address width (Some n) →
        IsReadingOf v address (width_bytes width) n result }
{
    let _pages = memory.pages.count();
    let mut bytes = [0u8; 8];
    let mut sources = [0usize; 8];
    for k in 0..width.bytes() as usize {
        match byte_read(list, memory, &known[k], address + k as u64, time) {
            Some(read) => {
                bytes[k] = read.byte;
                sources[k] = read.source;
            }
            None => return None,
        }
    }
    Some(Reading {
        number: number_of(&bytes, width),
        sources,
    })
}
