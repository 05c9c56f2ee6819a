ghost use Rattle.std.specs.Prelude.{◌≡◌, ◌↔◌, All, IsTrue, IfOk, MatchOption};
ghost use Rattle.trace.specs.Traced.{HasForm};
ghost use Rattle.memory_order.specs.Operations.{is_acquire};
ghost use Rattle.memory_order.specs.Orders.{order_position};
ghost use Rattle.memory_order.specs.Checking.{IsRanking};
ghost use Rattle.rule_checker.specs.Kinds.{AllowedByKind, RespectsKinds, RespectsKindsAt, is_annotated, kinds_after, loads_loads, loads_stores};
ghost use Rattle.rule_checker.specs.Violations.{IsFirstViolation};

use memory_order::{
    event_at, is_operation, is_release, of_hart, orders_loads, orders_stores, position_of, raised,
    set_of_hart,
};
use pages::OutOfMemory;
use round_schedule::{Access, Event};
use std::alloc::Global;

/// The least positions in the order that a hart's operations so far leave to its later ones, by kinds.
#[derive(Clone, Copy)]
pub struct KindBounds {
    /// To a release: past the loads, and past the stores.
    pub(crate) loads: usize,
    pub(crate) stores: usize,
    /// To any operation: past the acquires.
    pub(crate) acquires: usize,
    /// To an acquire or a release: past the acquires and the releases.
    pub(crate) annotated: usize,
    /// To a load: past the loads, and past the stores, before a fence that orders them.
    pub(crate) load_load: usize,
    pub(crate) store_load: usize,
    /// To a store: the same.
    pub(crate) load_store: usize,
    pub(crate) store_store: usize,
}

const NO_KINDS: KindBounds = KindBounds {
    loads: 0,
    stores: 0,
    acquires: 0,
    annotated: 0,
    load_load: 0,
    store_load: 0,
    load_store: 0,
    store_store: 0,
};

/// The first operation that an order has before one that fences or annotations ask to be before it: the rules 4 to 7 (manual,
/// section 14.1.3).
pub(crate) fn first_by_kind(
    alloc: Global,
    events: &[Event],
    order: &[usize],
    ranks: &[usize],
) -> Result<Option<usize>, OutOfMemory>
    requires formed { All HasForm events.now }
    requires ranked { IsRanking events.now order.now ranks.now }
    ensures { IfOk result (λ first.
        MatchOption first (RespectsKinds events.now (order_position order.now))
        (IsFirstViolation events.now (RespectsKindsAt events.now (order_position order.now)))) }
{
    let mut harts = vec![in alloc; NO_KINDS; 256]?;
    for i in 0..events.len() {
        let event = event_at(events, i);
        let position = position_of(events, order, ranks, i);
        let bounds = of_hart(&harts, event.hart);
        let operation = is_operation(&event);
        if operation && !allows(&bounds, &event.access, position) {
            return Ok(Some(i));
        }
        let next = kinds_after(&bounds, &event.access, operation, position + 1);
        set_of_hart(&mut harts, event.hart, next);
    }
    Ok(None)
}

/// Whether the bounds let an operation stand at a position.
fn allows(bounds: &KindBounds, access: &Access, position: usize) -> bool
    ensures { IsTrue result ↔ AllowedByKind bounds.now access.now position }
{
    bounds.acquires <= position
        && (!access.loads() || (bounds.load_load <= position && bounds.store_load <= position))
        && (!access.stores() || (bounds.load_store <= position && bounds.store_store <= position))
        && (!is_release(access) || (bounds.loads <= position && bounds.stores <= position))
        && (!is_annotated(access) || bounds.annotated <= position)
}

/// The bounds after one more event of the hart, where the position after its own is `next`.
fn kinds_after(bounds: &KindBounds, access: &Access, operation: bool, next: usize) -> KindBounds
    ensures { result ≡ kinds_after bounds.now access.now operation next }
{
    KindBounds {
        loads: raised(bounds.loads, access.loads(), next),
        stores: raised(bounds.stores, access.stores(), next),
        acquires: raised(bounds.acquires, operation && is_acquire(access), next),
        annotated: raised(bounds.annotated, operation && is_annotated(access), next),
        load_load: raised(bounds.load_load, loads_loads(access), bounds.loads),
        store_load: raised(bounds.store_load, orders_loads(access), bounds.stores),
        load_store: raised(bounds.load_store, loads_stores(access), bounds.loads),
        store_store: raised(bounds.store_store, orders_stores(access), bounds.stores),
    }
}

fn is_acquire(access: &Access) -> bool
    ensures { result ≡ is_acquire access.now }
{
    match *access {
        Access::LoadReserved { ordering, .. } | Access::Atomic { ordering, .. } => ordering.acquire,
        Access::StoreConditional { ordering, .. } => ordering.acquire && ordering.release,
        _ => false,
    }
}

fn is_annotated(access: &Access) -> bool
    ensures { result ≡ is_annotated access.now }
{
    is_acquire(access) || is_release(access)
}

/// Whether it is a fence that orders loads before loads.
fn loads_loads(access: &Access) -> bool
    ensures { result ≡ loads_loads access.now }
{
    match *access {
        Access::Fence { before, after, .. } => before.reads && after.reads,
        _ => false,
    }
}

/// Whether it is a fence that orders loads before stores.
fn loads_stores(access: &Access) -> bool
    ensures { result ≡ loads_stores access.now }
{
    match *access {
        Access::Fence { before, after, .. } => before.reads && after.writes,
        _ => false,
    }
}
