ghost use Rattle.std.specs.Prelude.{◌≡◌, ◌==◌, ◌↔◌, ℕ, All, max, if◌then◌else◌, IsTrue, IfOk, OnOk};
ghost use Rattle.trace.specs.Traced.{HasForm};
ghost use Rattle.memory_order.specs.Orders.{order_position};
ghost use Rattle.memory_order.specs.Checking.{IsRanking};
ghost use Rattle.memory_order.specs.CheckingProgram.{Allowed, RespectsButOverlap, bounds_after, bounds_of};

use crate::checking::harts::{of_hart, raised, set_of_hart};
use crate::checking::kinds::{
    event_at, is_plain_store, is_release, orders_loads, orders_stores, position_of,
};
use crate::operation::is_operation;
use pages::OutOfMemory;
use round_schedule::{Access, Event};
use std::alloc::Global;

/// The least positions in the order that a hart's operations so far leave to its later ones.
#[derive(Clone, Copy)]
pub(crate) struct HartBounds {
    /// To any operation: past all operations but the plain stores.
    pub(crate) others: usize,
    /// To a release: past the plain stores.
    pub(crate) stores: usize,
    /// To a load: past the plain stores before a fence that orders stores before loads.
    pub(crate) before_loads: usize,
    /// To a store: past the plain stores before a fence that orders stores before stores.
    pub(crate) before_stores: usize,
}

const NO_BOUNDS: HartBounds = HartBounds {
    others: 0,
    stores: 0,
    before_loads: 0,
    before_stores: 0,
};

/// Whether an order keeps preserved program order, but for the rule on overlapping stores.
pub(crate) fn respects_but_overlap(
    alloc: Global,
    events: &[Event],
    order: &[usize],
    ranks: &[usize],
) -> Result<bool, OutOfMemory>
    requires formed { All HasForm events.now }
    requires ranked { IsRanking events.now order.now ranks.now }
    ensures { IfOk result (λ yes.
        IsTrue yes ↔ RespectsButOverlap events.now (order_position order.now)) }
{
    let mut harts = vec![in alloc; NO_BOUNDS; 256]?;
    for i in 0..events.len() {
        let event = event_at(events, i);
        let position = position_of(events, order, ranks, i);
        let bounds = of_hart(&harts, event.hart);
        if is_operation(&event) && !allows(&bounds, &event.access, position) {
            return Ok(false);
        }
        let next = bounds_after(&bounds, &event, position + 1);
        set_of_hart(&mut harts, event.hart, next);
    }
    Ok(true)
}

/// Whether the bounds let an operation stand at a position.
fn allows(bounds: &HartBounds, access: &Access, position: usize) -> bool
    ensures { IsTrue result ↔ Allowed bounds.now access.now position }
{
    bounds.others <= position
        && (!access.loads() || bounds.before_loads <= position)
        && (!access.stores() || bounds.before_stores <= position)
        && (!is_release(access) || bounds.stores <= position)
}

/// The bounds after one more event of the hart, where the position after its own is `next`.
fn bounds_after(bounds: &HartBounds, event: &Event, next: usize) -> HartBounds
    ensures { result ≡ bounds_after bounds.now event.now next }
{
    let access = &event.access;
    let is_other = is_operation(event) && !is_plain_store(access);
    HartBounds {
        others: raised(bounds.others, is_other, next),
        stores: raised(bounds.stores, is_plain_store(access), next),
        before_loads: raised(bounds.before_loads, orders_loads(access), bounds.stores),
        before_stores: raised(bounds.before_stores, orders_stores(access), bounds.stores),
    }
}
