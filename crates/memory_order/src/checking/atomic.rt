ghost use Rattle.std.specs.Prelude.{◌≡◌, ◌+◌, ◌≤◌, ◌<◌, ◌^◌, ◌↔◌, ℕ, All, IfOk, IsTrue, length, slice_index, true};
ghost use Rattle.pages.specs.Memory.{in_range};
ghost use Rattle.round_schedule.specs.Accesses.{address_of, bytes_of};
ghost use Rattle.trace.specs.Traced.{HasForm};
ghost use Rattle.memory_order.specs.Orders.{ListsOperations, order_position};
ghost use Rattle.memory_order.specs.Rvwmo.{AtomicityAxiom, MaySee};
ghost use Rattle.memory_order.specs.Checking.{AreReserved, AreSources, IsRanking, source_at};
ghost use Rattle.memory_order.specs.CheckingAtomic.{AtomicAt, IsLatestStore, latest_of, others_of};

use crate::checking::kinds::{event_at, listed, position_of};
use crate::checking::latest::{LatestStores, latest_of, note_latest, others_of};
use crate::checking::pairs::{last_reserved, paired};
use crate::checking::source_bounds::{Sources, source_at};
use pages::OutOfMemory;
use round_schedule::{Access, Event};
use std::alloc::Global;
use std::collections::BTreeMap;

/// Whether the atomicity axiom holds of an order; `sources` has the bounds of the sources of loads.
pub fn pairs_are_atomic(
    alloc: Global,
    events: &[Event],
    order: &[usize],
    ranks: &[usize],
    sources: &Sources,
) -> Result<bool, OutOfMemory>
    requires formed { All HasForm events.now }
    requires lists { ListsOperations events.now order.now }
    requires ranked { IsRanking events.now order.now ranks.now }
    requires sourced { AreSources events.now order.now
        (MaySee events.now (order_position order.now)) sources.now.items }
    ensures { IfOk result (λ yes.
        IsTrue yes ↔ AtomicityAxiom events.now (order_position order.now)) }
{
    let reserved = last_reserved(alloc, events)?;
    let mut latest = BTreeMap::new(alloc);
    for p in 0..order.len() {
        let index = listed(events, order, p);
        let event = event_at(events, index);
        if !is_atomic(events, order, ranks, sources, &reserved, &latest, p) {
            return Ok(false);
        }
        note_latest(&mut latest, event.hart, &event.access, p + 1)?;
    }
    Ok(true)
}

/// Whether the atomicity axiom holds of the event at a position of the order, if it is an SC.
fn is_atomic(
    events: &[Event],
    order: &[usize],
    ranks: &[usize],
    sources: &Sources,
    reserved: &[usize],
    latest: &LatestStores,
    p: usize,
) -> bool
    requires within { p < length order.now }
    requires formed { All HasForm events.now }
    requires lists { ListsOperations events.now order.now }
    requires ranked { IsRanking events.now order.now ranks.now }
    requires sourced { AreSources events.now order.now
        (MaySee events.now (order_position order.now)) sources.now.items }
    requires reserved { AreReserved events.now (length events.now) reserved.now }
    requires latest { (x : ℕ) →
        IsLatestStore events.now (order_position order.now) p x (latest_of latest.now x) }
    ensures { IsTrue result ↔ AtomicAt events.now (order_position order.now)
        (slice_index order.now p) }
{
    let index = listed(events, order, p);
    let hart = event_at(events, index).hart;
    match paired(events, reserved, index) {
        None => true,
        Some(first) => {
            let reserve = event_at(events, first);
            let reader = position_of(events, order, ranks, first);
            are_undisturbed(sources, reader, &reserve.access, latest, hart, p)
        }
    }
}

/// Whether from the source of each byte of a load up to a position no other hart than this stores to it.
fn are_undisturbed(
    sources: &Sources,
    reader: usize,
    access: &Access,
    latest: &LatestStores,
    hart: u8,
    p: usize,
) -> bool
    requires within { reader < length sources.now.items }
    requires fits { address_of access.now + bytes_of access.now < 2 ^ 64 }
    ensures { IsTrue result ↔ ((x : ℕ) → in_range (address_of access.now) (bytes_of access.now) x ≡
        true → (others_of (latest_of latest.now x) hart ≤ source_at sources.now.items reader x) ×
        (source_at sources.now.items reader x ≤ p)) }
{
    let start = access.address();
    for k in 0..access.byte_count() {
        let source = source_at(sources, reader, start + k);
        let found = latest_of(latest, start + k);
        if others_of(&found, hart) > source || source > p {
            return false;
        }
    }
    true
}
