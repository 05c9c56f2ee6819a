//! Finding a line by its number: chains of lines, one for each slot of numbers.

ghost use Rattle.std.specs.Prelude.{◌≡◌, ◌≤◌, ◌<◌, ℕ, IfNone, IfSome, None, get_or, length};
ghost use Rattle.store_buffer.specs.Slots.{AreChained, AreSameLines, number_in, slot};

use crate::Line;

/// 2^64 over the golden ratio, to the nearest odd number.
const SPREAD: u64 = 0x9e37_79b9_7f4a_7c15;

/// A line with its number, which is the address of its first byte divided by 64.
#[derive(Drop)]
pub(crate) struct Numbered {
    pub(crate) number: u64,
    /// The index of the line that came before in the same slot.
    pub(crate) before: Option<usize>,
    pub(crate) line: Line,
}

/// The slot of a number among so many of them. Neighbours and equal steps are spread by a product with the golden
/// ratio.
#[inline(always)]
pub(crate) fn slot_of(number: u64, count: usize) -> usize
    requires { 0 < count }
    ensures value { result ≡ slot count number }
    ensures low { result < count }
{
    // The high half is spread best. A shift would do as well, but the compiler then cuts `count - 1` to 32 bits, at a cost.
    let spread = number.wrapping_mul(SPREAD).rotate_left(32);
    (spread & (count as u64 - 1)) as usize
}

/// The index of the line of a number, if there is one.
#[inline(always)]
pub(crate) fn find(lines: &[Numbered], latest: &[Option<usize>], number: u64) -> Option<usize>
    requires { AreChained (length lines.now) lines.now latest.now }
    ensures some { IfSome result (λ index. (index < length lines.now) ×
        (number_in lines.now index ≡ number)) }
    ensures none { IfNone result ((p : ℕ) → p < length lines.now →
        number_in lines.now p ≡ number → ⊥) }
{
    if latest.is_empty() {
        return None;
    }
    let mut next = latest[slot_of(number, latest.len())];
    while let Some(index) = next {
        let found = &lines[index];
        if found.number == number {
            return Some(index);
        }
        next = found.before;
    }
    None
}

/// Puts all lines into the slots of an empty list, in the order in which they came.
pub(crate) fn chain(lines: &mut [Numbered], latest: &mut [Option<usize>])
    requires room { length lines.old ≤ length latest.old }
    requires empty { (i : ℕ) → get_or latest.old i None ≡ None }
    ensures chained { AreChained (length lines.new) lines.new latest.new }
    ensures slots { length latest.new ≡ length latest.old }
    ensures same { AreSameLines lines.old lines.new }
{
    for index in 0..lines.len() {
        let slot = slot_of(lines[index].number, latest.len());
        lines[index].before = latest[slot];
        latest[slot] = Some(index);
    }
}
