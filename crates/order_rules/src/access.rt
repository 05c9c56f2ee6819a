//! What is asked of one access.

ghost use Rattle.std.specs.Prelude.{◌≡◌, ◌&&◌, ◌||◌, ◌↔◌, ◌<◌, All, IsTrue, length};
ghost use Rattle.round_schedule.specs.Positions.{event, reads_at, writes_at};
ghost use Rattle.trace.specs.Traced.{HasForm};
ghost use Rattle.round_schedule.specs.Accesses.{is_lr, is_sc, reads, writes};
ghost use Rattle.memory_order.specs.Operations.{covers, fence_orders, is_acquire, is_amo, is_lr_or_sc, is_normal};

use memory_order::event_at;
use round_schedule::{Access, Event};
use rv64_decode::FenceMode;

/// Whether the byte at an address is one of its bytes.
pub(crate) fn covers(access: &Access, x: u64) -> bool
    ensures { result ≡ covers access.now x }
{
    let start = access.address();
    start <= x && x - start < access.byte_count()
}

pub(crate) fn reads(access: &Access, x: u64) -> bool
    ensures { result ≡ reads access.now x }
{
    access.loads() && covers(access, x)
}

/// Whether an access writes the byte at an address.
pub fn writes(access: &Access, x: u64) -> bool
    ensures { result ≡ writes access.now x }
{
    access.stores() && covers(access, x)
}

pub(crate) fn is_lr(access: &Access) -> bool
    ensures { result ≡ is_lr access.now }
{
    matches!(access, Access::LoadReserved { .. })
}

pub(crate) fn is_sc(access: &Access) -> bool
    ensures { result ≡ is_sc access.now }
{
    matches!(access, Access::StoreConditional { .. })
}

pub(crate) fn is_lr_or_sc(access: &Access) -> bool
    ensures { result ≡ is_lr_or_sc access.now }
{
    is_lr(access) || is_sc(access)
}

/// Whether it is an AMO or an SC.
pub(crate) fn is_amo_or_sc(access: &Access) -> bool
    ensures { result ≡ (is_amo access.now || is_sc access.now) }
{
    matches!(
        access,
        Access::Atomic { .. } | Access::StoreConditional { .. }
    )
}

/// Whether it is an LR or AMO with `aq`, or an SC with both bits.
pub(crate) fn is_acquire(access: &Access) -> bool
    ensures { result ≡ is_acquire access.now }
{
    match *access {
        Access::LoadReserved { ordering, .. } | Access::Atomic { ordering, .. } => ordering.acquire,
        Access::StoreConditional { ordering, .. } => ordering.acquire && ordering.release,
        _ => false,
    }
}

/// Whether it is a fence that orders one access before another.
pub(crate) fn fence_orders(fence: &Access, a: &Access, b: &Access) -> bool
    ensures { result ≡ fence_orders fence.now a.now b.now }
{
    match *fence {
        Access::Fence {
            before,
            after,
            mode,
            ..
        } => {
            let load_load = are_all(before.reads, a.loads(), after.reads, b.loads());
            let load_store = are_all(before.reads, a.loads(), after.writes, b.stores());
            let store_store = are_all(before.writes, a.stores(), after.writes, b.stores());
            let store_load = are_all(before.writes, a.stores(), after.reads, b.loads());
            is_any(
                load_load,
                load_store,
                store_store,
                store_load && is_normal(mode),
            )
        }
        _ => false,
    }
}

fn are_all(a: bool, b: bool, c: bool, d: bool) -> bool
    ensures { result ≡ (a && b && c && d) }
{
    a && b && c && d
}

fn is_any(a: bool, b: bool, c: bool, d: bool) -> bool
    ensures { result ≡ (a || b || c || d) }
{
    a || b || c || d
}

pub(crate) fn is_normal(mode: FenceMode) -> bool
    ensures { result ≡ is_normal mode }
{
    match mode {
        FenceMode::Normal => true,
        FenceMode::Tso => false,
    }
}

/// Whether the event at an index reads the byte at an address.
pub(crate) fn reads_at(events: &[Event], index: usize, x: u64) -> bool
    requires within { index < length events.now }
    requires formed { All HasForm events.now }
    ensures { result ≡ reads_at events.now index x }
{
    reads(&event_at(events, index).access, x)
}

/// Whether it writes that byte.
pub(crate) fn writes_at(events: &[Event], index: usize, x: u64) -> bool
    requires within { index < length events.now }
    requires formed { All HasForm events.now }
    ensures { result ≡ writes_at events.now index x }
{
    writes(&event_at(events, index).access, x)
}

/// Whether two events are of one hart.
pub(crate) fn is_same_hart(events: &[Event], a: usize, b: usize) -> bool
    requires first { a < length events.now }
    requires second { b < length events.now }
    requires formed { All HasForm events.now }
    ensures { IsTrue result ↔ ((event events.now a).hart ≡ (event events.now b).hart) }
{
    event_at(events, a).hart == event_at(events, b).hart
}
