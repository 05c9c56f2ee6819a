ghost use Rattle.std.specs.Prelude.{◌≡◌, ◌+◌, ◌==◌, ◌&&◌, ◌≤◌, ◌<◌, ◌^◌, ◌↔◌, ℕ, All, max, true, if◌then◌else◌, length, IsTrue, IfOk, MatchOption, OnOk};
ghost use Rattle.round_schedule.specs.Accesses.{address_of, bytes_of, loads, reads};
ghost use Rattle.trace.specs.Traced.{HasForm};
ghost use Rattle.memory_order.specs.Operations.{covers, is_operation};
ghost use Rattle.memory_order.specs.Orders.{ListsOperations, order_position};
ghost use Rattle.memory_order.specs.Rvwmo.{MaySee};
ghost use Rattle.memory_order.specs.Checking.{AreSources, IsRanking, bound, source_at, source_of};
ghost use Rattle.rule_checker.specs.Bytes.{RespectsBytesAt, IsForwarded, RespectsBytes, MayLoad, MayLoadByte};
ghost use Rattle.rule_checker.specs.Violations.{IsFirstViolation};

use memory_order::{
    Bounds, Sources, bounds_at, event_at, is_operation, is_plain_store, listed, may_store,
    position_of, raise_bytes, raise_to, source_at,
};
use pages::OutOfMemory;
use round_schedule::{Access, Event};
use std::alloc::Global;
use std::collections::BTreeMap;

/// The first operation that an order has before one of common bytes that is to be before it: the rules 1 to 3 (manual, section
/// 14.1.3).
///
/// `sources` has the bounds of the sources of loads.
pub(crate) fn first_by_byte(
    alloc: Global,
    events: &[Event],
    order: &[usize],
    ranks: &[usize],
    sources: &Sources,
) -> Result<Option<usize>, OutOfMemory>
    requires formed { All HasForm events.now }
    requires lists { ListsOperations events.now order.now }
    requires ranked { IsRanking events.now order.now ranks.now }
    requires sourced { AreSources events.now order.now
        (MaySee events.now (order_position order.now)) sources.now.items }
    ensures { IfOk result (λ first.
        MatchOption first (RespectsBytes events.now (order_position order.now))
        (IsFirstViolation events.now (RespectsBytesAt events.now (order_position order.now)))) }
{
    let mut touched = BTreeMap::new(alloc);
    let mut seen = BTreeMap::new(alloc);
    for i in 0..events.len() {
        let event = event_at(events, i);
        let hart = u64::from(event.hart);
        let position = position_of(events, order, ranks, i);
        if !may_store(&touched, hart, &event.access, position) {
            return Ok(Some(i));
        }
        if !may_load(events, order, &seen, sources, hart, i, position) {
            return Ok(Some(i));
        }
        note_seen(&mut seen, hart, &event.access, sources, position)?;
        note_operation(&mut touched, hart, &event, position + 1)?;
    }
    Ok(None)
}

/// Raises the owner's bound of each byte of an operation to `next`.
fn note_operation(
    bounds: &mut Bounds,
    owner: u64,
    event: &Event,
    next: usize,
) -> Result<(), OutOfMemory>
    requires { address_of event.now.access + bytes_of event.now.access < 2 ^ 64 }
    ensures { OnOk result ((h x : ℕ) → bound bounds.new h x ≡
        (if h == owner && (is_operation event.now && covers event.now.access x)
        then max (bound bounds.old h x) next else bound bounds.old h x)) }
{
    if !is_operation(event) {
        return Ok(());
    }
    raise_bytes(
        bounds,
        owner,
        event.access.address(),
        event.access.byte_count(),
        next,
    )
}

/// Raises the owner's bound of each byte that a load reads to the one that the sources have at a position.
fn note_seen(
    seen: &mut Bounds,
    owner: u64,
    access: &Access,
    sources: &Sources,
    position: usize,
) -> Result<(), OutOfMemory>
    requires fits { address_of access.now + bytes_of access.now < 2 ^ 64 }
    requires within { loads access.now ≡ true → position < length sources.now.items }
    ensures { OnOk result ((h x : ℕ) → bound seen.new h x ≡ (if h == owner && reads access.now x
        then max (bound seen.old h x) (source_at sources.now.items position x) else bound seen.old h
        x)) }
{
    if !access.loads() {
        return Ok(());
    }
    let row = sources[position];
    raise_to(seen, owner, access.address(), access.byte_count(), row)
}

/// Whether each byte of a load is from no earlier store than the hart's loads before it, and from no SC or AMO ahead.
fn may_load(
    events: &[Event],
    order: &[usize],
    seen: &Bounds,
    sources: &Sources,
    hart: u64,
    i: usize,
    position: usize,
) -> bool
    requires within { i < length events.now }
    requires formed { All HasForm events.now }
    requires lists { ListsOperations events.now order.now }
    requires standing { position ≡ order_position order.now i }
    requires sourced { AreSources events.now order.now
        (MaySee events.now (order_position order.now)) sources.now.items }
    ensures { IsTrue result ↔ MayLoad events.now order.now (λ x. bound seen.now hart x)
        (λ x. source_of order.now sources.now.items i x) i position }
{
    let event = event_at(events, i);
    if !event.access.loads() {
        return true;
    }
    let start = event.access.address();
    let width = event.access.byte_count();
    let before = bounds_at(seen, hart, start, width);
    for k in 0..width {
        let source = source_at(sources, position, start + k);
        let earlier = before[((start + k) % 8) as usize];
        if !may_load_byte(events, order, earlier, source, position) {
            return false;
        }
    }
    true
}

/// The same of one byte.
fn may_load_byte(
    events: &[Event],
    order: &[usize],
    seen: usize,
    source: usize,
    position: usize,
) -> bool
    requires formed { All HasForm events.now }
    requires lists { ListsOperations events.now order.now }
    requires listed { source ≤ length order.now }
    ensures { IsTrue result ↔ MayLoadByte events.now order.now seen position source }
{
    seen <= source && is_forwarded(events, order, position, source)
}

/// Whether a byte may be from the store before position `source`, where its load stands at `position`.
fn is_forwarded(events: &[Event], order: &[usize], position: usize, source: usize) -> bool
    requires formed { All HasForm events.now }
    requires lists { ListsOperations events.now order.now }
    requires listed { source ≤ length order.now }
    ensures { IsTrue result ↔ IsForwarded events.now order.now position source }
{
    if source <= position {
        return true;
    }
    let store = listed(events, order, source - 1);
    is_plain_store(&event_at(events, store).access)
}
