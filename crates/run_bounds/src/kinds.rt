//! Bounds by the kinds of operations, as the checker of orders keeps them.
ghost use Rattle.std.specs.Prelude.{◌≡◌, ◌↔◌, IsTrue};
ghost use Rattle.memory_order.specs.Operations.{is_acquire};
ghost use Rattle.rule_checker.specs.Kinds.{AllowedByKind, is_annotated, kinds_after, loads_loads, loads_stores};
ghost use Rattle.run_bounds.specs.Bounds.{kinds_of};

use memory_order::{is_release, orders_loads, orders_stores, raised};
use round_schedule::Access;

/// The least times that a hart's operations so far leave to its later ones, by kinds: the rules 4 to 7 (manual, section 14.1.3).
#[derive(Clone, Copy, PartialEq, Eq)]
pub struct KindTimes {
    /// To a release: past the loads, and past the stores.
    pub loads: usize,
    pub stores: usize,
    /// To any operation: past the acquires.
    pub acquires: usize,
    /// To an acquire or a release: past the acquires and the releases.
    pub annotated: usize,
    /// To a load: past the loads, and past the stores, before a fence that orders them.
    pub load_load: usize,
    pub store_load: usize,
    /// To a store: the same.
    pub load_store: usize,
    pub store_store: usize,
}

/// Of a hart that did no operation.
pub const NO_KINDS: KindTimes = KindTimes {
    loads: 0,
    stores: 0,
    acquires: 0,
    annotated: 0,
    load_load: 0,
    store_load: 0,
    load_store: 0,
    store_store: 0,
};

/// Whether the bounds let an operation stand at a time.
pub fn allows_kind(bounds: &KindTimes, access: &Access, time: usize) -> bool
    ensures { IsTrue result ↔ AllowedByKind (kinds_of bounds.now) access.now time }
{
    bounds.acquires <= time
        && (!access.loads() || (bounds.load_load <= time && bounds.store_load <= time))
        && (!access.stores() || (bounds.load_store <= time && bounds.store_store <= time))
        && (!is_release(access) || (bounds.loads <= time && bounds.stores <= time))
        && (!is_annotated(access) || bounds.annotated <= time)
}

/// The bounds after one more instruction of the hart, where the time behind it is `next`.
pub fn kinds_after(bounds: &KindTimes, access: &Access, operation: bool, next: usize) -> KindTimes
    ensures { kinds_of result ≡ kinds_after (kinds_of bounds.now) access.now operation next }
{
    KindTimes {
        loads: raised(bounds.loads, access.loads(), next),
        stores: raised(bounds.stores, access.stores(), next),
        acquires: raised(bounds.acquires, operation && is_acquire(access), next),
        annotated: raised(bounds.annotated, operation && is_annotated(access), next),
        load_load: raised(bounds.load_load, loads_loads(access), bounds.loads),
        store_load: raised(bounds.store_load, orders_loads(access), bounds.stores),
        load_store: raised(bounds.load_store, loads_stores(access), bounds.loads),
        store_store: raised(bounds.store_store, orders_stores(access), bounds.stores),
    }
}

fn is_acquire(access: &Access) -> bool
    ensures { result ≡ is_acquire access.now }
{
    match *access {
        Access::LoadReserved { ordering, .. } | Access::Atomic { ordering, .. } => ordering.acquire,
        Access::StoreConditional { ordering, .. } => ordering.acquire && ordering.release,
        _ => false,
    }
}

fn is_annotated(access: &Access) -> bool
    ensures { result ≡ is_annotated access.now }
{
    is_acquire(access) || is_release(access)
}

/// Whether it is a fence that orders loads before loads.
fn loads_loads(access: &Access) -> bool
    ensures { result ≡ loads_loads access.now }
{
    match *access {
        Access::Fence { before, after, .. } => before.reads && after.reads,
        _ => false,
    }
}

/// Whether it is a fence that orders loads before stores.
fn loads_stores(access: &Access) -> bool
    ensures { result ≡ loads_stores access.now }
{
    match *access {
        Access::Fence { before, after, .. } => before.reads && after.writes,
        _ => false,
    }
}
