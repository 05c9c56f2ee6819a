//! The sources of loads, whatever the order of a hart's stores is.

ghost use Rattle.std.specs.Prelude.{◌≡◌, ◌≢◌, ◌+◌, ◌^◌, ◌<◌, ◌==◌, ◌&&◌, ℕ, All, IfOk, OnOk, if◌then◌else◌, length, max, true};
ghost use Rattle.round_schedule.specs.Accesses.{address_of, bytes_of, loads, reads, writes};
ghost use Rattle.trace.specs.Traced.{HasForm};
ghost use Rattle.memory_order.specs.Orders.{ListsOperations, order_position};
ghost use Rattle.memory_order.specs.Rvwmo.{MaySee};
ghost use Rattle.memory_order.specs.Checking.{AreSources, IsRanking, OwnWrite, bound, row_of, source_at};

use memory_order::{Bounds, Sources, all_sources, bounds_at, event_at, position_of, raise_bytes};
use pages::OutOfMemory;
use round_schedule::{Access, Event};
use std::alloc::Global;
use std::collections::BTreeMap;

/// For each load and each of its bytes, the bound of the stores that the byte may be from: so that of its source.
pub fn sources_of_loads(
    alloc: Global,
    events: &[Event],
    order: &[usize],
    ranks: &[usize],
) -> Result<Sources, OutOfMemory>
    requires formed { All HasForm events.now }
    requires lists { ListsOperations events.now order.now }
    requires ranked { IsRanking events.now order.now ranks.now }
    ensures { IfOk result (λ s.
        AreSources events.now order.now (MaySee events.now (order_position order.now)) s.items) }
{
    let own = own_sources(alloc, events, order, ranks)?;
    all_sources(alloc, events, order, own)
}

/// For each load and each of its bytes, the bound of the hart's stores to the byte before the load in the program.
fn own_sources(
    alloc: Global,
    events: &[Event],
    order: &[usize],
    ranks: &[usize],
) -> Result<Sources, OutOfMemory>
    requires formed { All HasForm events.now }
    requires lists { ListsOperations events.now order.now }
    requires ranked { IsRanking events.now order.now ranks.now }
    ensures { IfOk result (λ s. AreSources events.now order.now (OwnWrite events.now) s.items) }
{
    let mut own = BTreeMap::new(alloc);
    let mut sources = vec![in alloc; [0; 8]; order.len()]?;
    for i in 0..events.len() {
        let event = event_at(events, i);
        let hart = u64::from(event.hart);
        let position = position_of(events, order, ranks, i);
        note_load(&mut sources, position, &event.access, &own, hart);
        note_store(&mut own, hart, &event.access, position + 1)?;
    }
    Ok(sources)
}

/// Notes the owner's bound of each byte that the load at a position reads.
fn note_load(sources: &mut Sources, position: usize, access: &Access, from: &Bounds, owner: u64)
    requires fits { address_of access.now + bytes_of access.now < 2 ^ 64 }
    requires within { loads access.now ≡ true → position < length sources.old.items }
    ensures len { length sources.new.items ≡ length sources.old.items }
    ensures others { (p : ℕ) → (loads access.now ≡ true → p ≢ position) →
        row_of sources.new.items p ≡ row_of sources.old.items p }
    ensures noted { (x : ℕ) → reads access.now x ≡ true →
        source_at sources.new.items position x ≡ bound from.now owner x }
{
    if access.loads() {
        sources[position] = bounds_at(from, owner, access.address(), access.byte_count());
    }
}

/// Raises the owner's bound of each byte that a store writes to `next`.
fn note_store(
    bounds: &mut Bounds,
    owner: u64,
    access: &Access,
    next: usize,
) -> Result<(), OutOfMemory>
    requires { address_of access.now + bytes_of access.now < 2 ^ 64 }
    ensures { OnOk result ((h x : ℕ) → bound bounds.new h x ≡ (if h == owner && writes access.now x
        then max (bound bounds.old h x) next else bound bounds.old h x)) }
{
    if !access.stores() {
        return Ok(());
    }
    raise_bytes(bounds, owner, access.address(), access.byte_count(), next)
}
