//! What the checker asks of one event.

ghost use Rattle.std.specs.Prelude.{◌≡◌, ◌+◌, ◌^◌, ◌<◌, All, length, slice_index, true};
ghost use Rattle.round_schedule.specs.Accesses.{address_of, bytes_of, is_sc};
ghost use Rattle.round_schedule.specs.Positions.{event};
ghost use Rattle.trace.specs.Traced.{HasForm};
ghost use Rattle.memory_order.specs.Operations.{is_lr_or_sc, is_normal, is_operation, is_plain_store, is_release};
ghost use Rattle.memory_order.specs.Orders.{ListsOperations, order_position};
ghost use Rattle.memory_order.specs.Checking.{IsRanking};
ghost use Rattle.memory_order.specs.CheckingProgram.{orders_loads, orders_stores};

use round_schedule::{Access, Event};
use rv64_decode::FenceMode;

/// The event at an index of the trace.
pub fn event_at(events: &[Event], index: usize) -> Event
    requires within { index < length events.now }
    requires formed { All HasForm events.now }
    ensures at { result ≡ event events.now index }
    ensures fits { address_of result.access + bytes_of result.access < 2 ^ 64 }
{
    events[index]
}

/// Where the event at an index of the trace stands in the order.
pub fn position_of(events: &[Event], order: &[usize], ranks: &[usize], i: usize) -> usize
    requires within { i < length events.now }
    requires ranked { IsRanking events.now order.now ranks.now }
    ensures at { result ≡ order_position order.now i }
    ensures fits { result + 1 < 2 ^ 64 }
{
    let _events = events;
    ranks[i].min(order.len())
}

/// The index of the trace that stands at a position of the order.
pub fn listed(events: &[Event], order: &[usize], p: usize) -> usize
    requires within { p < length order.now }
    requires lists { ListsOperations events.now order.now }
    ensures at { result ≡ slice_index order.now p }
    ensures within { result < length events.now }
    ensures operation { is_operation (event events.now result) ≡ true }
    ensures position { order_position order.now result ≡ p }
{
    let _events = events;
    order[p]
}

/// Whether it is a store that is neither an SC nor an AMO.
pub fn is_plain_store(access: &Access) -> bool
    ensures { result ≡ is_plain_store access.now }
{
    matches!(access, Access::Store { .. })
}

pub fn is_release(access: &Access) -> bool
    ensures { result ≡ is_release access.now }
{
    match *access {
        Access::LoadReserved { ordering, .. } => ordering.acquire && ordering.release,
        Access::StoreConditional { ordering, .. } | Access::Atomic { ordering, .. } => {
            ordering.release
        }
        _ => false,
    }
}

pub(crate) fn is_sc(access: &Access) -> bool
    ensures { result ≡ is_sc access.now }
{
    matches!(access, Access::StoreConditional { .. })
}

pub(crate) fn is_lr_or_sc(access: &Access) -> bool
    ensures { result ≡ is_lr_or_sc access.now }
{
    matches!(
        access,
        Access::LoadReserved { .. } | Access::StoreConditional { .. }
    )
}

/// Whether it is a fence that orders stores before loads.
pub fn orders_loads(access: &Access) -> bool
    ensures { result ≡ orders_loads access.now }
{
    match *access {
        Access::Fence {
            before,
            after,
            mode,
            ..
        } => before.writes && after.reads && is_normal(mode),
        _ => false,
    }
}

/// Whether it is a fence that orders stores before stores.
pub fn orders_stores(access: &Access) -> bool
    ensures { result ≡ orders_stores access.now }
{
    match *access {
        Access::Fence { before, after, .. } => before.writes && after.writes,
        _ => false,
    }
}

fn is_normal(mode: FenceMode) -> bool
    ensures { result ≡ is_normal mode }
{
    match mode {
        FenceMode::Normal => true,
        FenceMode::Tso => false,
    }
}
