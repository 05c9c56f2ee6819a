ghost use Rattle.std.specs.Prelude.{◌≡◌, ◌+◌, ◌*◌, ◌<◌, ◌≤◌, ◌^◌, ℕ, if◌then◌else◌, OnOk};
ghost use Rattle.pages.specs.Memory.{in_range};
ghost use Rattle.round_schedule.specs.Accesses.{address_of, bytes_of, writes};
ghost use Rattle.memory_order.specs.CheckingAtomic.{after_store, latest_in, latest_of, others_of};

use pages::OutOfMemory;
use round_schedule::Access;
use std::collections::BTreeMap;

/// The latest store to a byte so far along the order, and the latest of another hart's; by bounds of their positions.
#[derive(Clone, Copy)]
pub(crate) struct Latest {
    /// The bound of the latest store.
    pub(crate) last: usize,
    /// The hart of the latest store.
    pub(crate) owner: u8,
    /// The bound of the latest store of another hart than that.
    pub(crate) other: usize,
}

/// The same of the eight bytes of a word.
#[derive(Clone, Copy)]
pub(crate) struct LatestOfWord {
    pub(crate) last: [usize; 8],
    pub(crate) owner: [u8; 8],
    pub(crate) other: [usize; 8],
}

/// The latest stores, by words.
pub(crate) type LatestStores = BTreeMap<u64, LatestOfWord>;

const NO_STORES: LatestOfWord = LatestOfWord {
    last: [0; 8],
    owner: [0; 8],
    other: [0; 8],
};

/// What a map has of a byte; nothing where no store was noted.
pub(crate) fn latest_of(latest: &LatestStores, x: u64) -> Latest
    ensures { result ≡ latest_of latest.now x }
{
    let word = match latest.get(&(x / 8)) {
        Some(found) => *found,
        None => NO_STORES,
    };
    latest_in(&word, (x % 8) as usize)
}

/// What a word has of one of its eight bytes.
fn latest_in(word: &LatestOfWord, slot: usize) -> Latest
    requires { slot < 8 }
    ensures { result ≡ latest_in word.now slot }
{
    Latest {
        last: word.last[slot],
        owner: word.owner[slot],
        other: word.other[slot],
    }
}

/// The bound of the latest store of another hart than this.
pub(crate) fn others_of(latest: &Latest, hart: u8) -> usize
    ensures { result ≡ others_of latest.now hart }
{
    if latest.owner == hart {
        latest.other
    } else {
        latest.last
    }
}

/// Notes a store of a hart, which stands before the position `next`.
pub(crate) fn note_latest(
    latest: &mut LatestStores,
    hart: u8,
    access: &Access,
    next: usize,
) -> Result<(), OutOfMemory>
    requires { address_of access.now + bytes_of access.now < 2 ^ 64 }
    ensures { OnOk result ((x : ℕ) → latest_of latest.new x ≡ (if writes access.now x
        then after_store (latest_of latest.old x) hart next else latest_of latest.old x)) }
{
    if !access.stores() {
        return Ok(());
    }
    note_bytes(latest, hart, access.address(), access.byte_count(), next)
}

fn note_bytes(
    latest: &mut LatestStores,
    hart: u8,
    address: u64,
    width: u64,
    next: usize,
) -> Result<(), OutOfMemory>
    requires { address + width < 2 ^ 64 }
    ensures { OnOk result ((x : ℕ) → latest_of latest.new x ≡ (if in_range address width x
        then after_store (latest_of latest.old x) hart next else latest_of latest.old x)) }
{
    let first = address % 8;
    if first + width <= 8 {
        return note_word(
            latest,
            hart,
            address / 8,
            first as usize,
            width as usize,
            next,
        );
    }
    for k in 0..width {
        let byte = address + k;
        note_word(latest, hart, byte / 8, (byte % 8) as usize, 1, next)?;
    }
    Ok(())
}

/// Notes a store to `count` bytes of a word.
fn note_word(
    latest: &mut LatestStores,
    hart: u8,
    word: u64,
    first: usize,
    count: usize,
    next: usize,
) -> Result<(), OutOfMemory>
    requires { first + count ≤ 8 }
    ensures { OnOk result ((x : ℕ) →
        latest_of latest.new x ≡ (if in_range (8 * word + first) count x
        then after_store (latest_of latest.old x) hart next else latest_of latest.old x)) }
{
    match latest.get_mut(&word) {
        Some(stores) => {
            *stores = noted(*stores, hart, first, count, next);
            Ok(())
        }
        None => {
            let new = noted(NO_STORES, hart, first, count, next);
            latest.insert(word, new)?;
            Ok(())
        }
    }
}

fn noted(mut word: LatestOfWord, hart: u8, first: usize, count: usize, next: usize) -> LatestOfWord
    requires { first + count ≤ 8 }
    ensures { (j : ℕ) → latest_in result j ≡ (if in_range first count j
        then after_store (latest_in word j) hart next else latest_in word j) }
{
    for k in 0..count {
        let slot = first + k;
        let latest = latest_in(&word, slot);
        word.other[slot] = others_of(&latest, hart);
        word.owner[slot] = hart;
        word.last[slot] = next;
    }
    word
}
