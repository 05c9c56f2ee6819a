//! The rules 1 to 3 of preserved program order, on the bytes of operations (manual, section 14.1.3).

ghost use Rattle.std.specs.Prelude.{◌≡◌, ◌≢◌, ◌↔◌, ◌+◌, ◌^◌, ◌<◌, All, IsTrue, length, Some, true};
ghost use Rattle.trace.specs.Traced.{HasForm};
ghost use Rattle.round_schedule.specs.Accesses.{address_of, bytes_of};
ghost use Rattle.round_schedule.specs.Positions.{ProgramBefore, event, reads_at};
ghost use Rattle.memory_order.specs.Orders.{order_position};
ghost use Rattle.memory_order.specs.Rvwmo.{IsSource};
ghost use Rattle.order_rules.specs.Orders.{AreRanked, Differs, DiffersAt, HasSources, IsFrom, NoStoreBetween, Overlaps, Returns};

use crate::access::{covers, is_same_hart, reads_at, writes_at};
use crate::sources::source_of;
use memory_order::{Sources, event_at};
use round_schedule::{Access, Event};

/// Whether two accesses have a byte in common.
pub(crate) fn overlap(a: &Access, b: &Access) -> bool
    requires { address_of b.now + bytes_of b.now < 2 ^ 64 }
    ensures { IsTrue result ↔ Overlaps a.now b.now }
{
    let start = b.address();
    for k in 0..b.byte_count() {
        if covers(a, start + k) {
            return true;
        }
    }
    false
}

/// Whether two loads have a common byte from different stores, and no store of their hart to it lies between (rule 2).
pub(crate) fn differ(
    events: &[Event],
    order: &[usize],
    ranks: &[usize],
    sources: &Sources,
    a: usize,
    b: usize,
) -> bool
    requires ranked { AreRanked events.now order.now ranks.now }
    requires sourced { HasSources events.now order.now sources.now.items }
    requires within { b < length events.now }
    requires before { ProgramBefore events.now a b }
    ensures { IsTrue result ↔ Differs events.now (order_position order.now) a b }
{
    let event = event_at(events, b);
    let start = event.access.address();
    for k in 0..event.access.byte_count() {
        if differ_at(events, order, ranks, sources, a, b, start + k) {
            return true;
        }
    }
    false
}

/// The same of one byte.
fn differ_at(
    events: &[Event],
    order: &[usize],
    ranks: &[usize],
    sources: &Sources,
    a: usize,
    b: usize,
    x: u64,
) -> bool
    requires ranked { AreRanked events.now order.now ranks.now }
    requires sourced { HasSources events.now order.now sources.now.items }
    requires within { b < length events.now }
    requires before { ProgramBefore events.now a b }
    ensures { IsTrue result ↔ DiffersAt events.now (order_position order.now) a b x }
{
    if !both_read(events, a, b, x) {
        return false;
    }
    // Two loads mostly have one source, and what lies between may be long.
    let first = source_of(events, order, ranks, sources, a, x);
    let second = source_of(events, order, ranks, sources, b, x);
    if !are_apart(first, second) {
        return false;
    }
    is_unstored_between(events, a, b, x)
}

/// Whether both events read the byte at an address.
fn both_read(events: &[Event], a: usize, b: usize, x: u64) -> bool
    requires formed { All HasForm events.now }
    requires first { a < length events.now }
    requires second { b < length events.now }
    ensures { IsTrue result ↔ ((reads_at events.now a x ≡ true) ×
        (reads_at events.now b x ≡ true)) }
{
    reads_at(events, a, x) && reads_at(events, b, x)
}

fn are_apart(a: Option<usize>, b: Option<usize>) -> bool
    ensures { IsTrue result ↔ (a ≢ b) }
{
    a != b
}

fn are_one(a: Option<usize>, b: Option<usize>) -> bool
    ensures { IsTrue result ↔ (a ≡ b) }
{
    a == b
}

/// Whether no store of the hart to a byte lies between two indexes.
fn is_unstored_between(events: &[Event], a: usize, b: usize, x: u64) -> bool
    requires formed { All HasForm events.now }
    requires within { b < length events.now }
    requires before { ProgramBefore events.now a b }
    ensures { IsTrue result ↔ NoStoreBetween events.now a b x }
{
    for k in a + 1..b {
        if is_same_hart(events, k, b) && writes_at(events, k, x) {
            return false;
        }
    }
    true
}

/// Whether the load at `b` has a byte from the store at `a` (rule 3, where that is an AMO or an SC).
pub(crate) fn returns(
    events: &[Event],
    order: &[usize],
    ranks: &[usize],
    sources: &Sources,
    a: usize,
    b: usize,
) -> bool
    requires ranked { AreRanked events.now order.now ranks.now }
    requires sourced { HasSources events.now order.now sources.now.items }
    requires within { b < length events.now }
    ensures { IsTrue result ↔ Returns events.now (order_position order.now) a b }
{
    let event = event_at(events, b);
    let start = event.access.address();
    for k in 0..event.access.byte_count() {
        if is_from(events, order, ranks, sources, a, b, start + k) {
            return true;
        }
    }
    false
}

/// Whether the byte at an address that the load at `b` reads is from the store at `a`.
fn is_from(
    events: &[Event],
    order: &[usize],
    ranks: &[usize],
    sources: &Sources,
    a: usize,
    b: usize,
    x: u64,
) -> bool
    requires ranked { AreRanked events.now order.now ranks.now }
    requires sourced { HasSources events.now order.now sources.now.items }
    requires within { b < length events.now }
    ensures { IsTrue result ↔ IsFrom events.now (order_position order.now) b a x }
{
    if !reads_at(events, b, x) {
        return false;
    }
    let source = source_of(events, order, ranks, sources, b, x);
    are_one(source, Some(a))
}
