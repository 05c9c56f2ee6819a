//! Behind which accesses no load is early.
ghost use Rattle.std.specs.Prelude.{◌≡◌, ◌||◌, true};
ghost use Rattle.round_schedule.specs.Accesses.{is_sc, loads};
ghost use Rattle.memory_order.specs.Operations.{is_acquire};
ghost use Rattle.rule_checker.specs.Kinds.{loads_loads};
ghost use Rattle.early_reads.specs.Windows.{shuts};

use crate::early_point::LateKinds;
use memory_order::orders_loads;
use round_schedule::Access;

/// Whether an access is an SC.
pub(crate) fn is_conditional(access: &Access) -> bool
    ensures { result ≡ is_sc access.now }
{
    matches!(access, Access::StoreConditional { .. })
}

/// Whether an access is an acquire.
fn acquires(access: &Access) -> bool
    ensures { result ≡ is_acquire access.now }
{
    match *access {
        Access::LoadReserved { ordering, .. } => ordering.acquire,
        Access::StoreConditional { ordering, .. } => ordering.acquire && ordering.release,
        Access::Atomic { ordering, .. } => ordering.acquire,
        _ => false,
    }
}

/// Whether an access is a fence that orders loads before loads.
fn orders_loads_alone(access: &Access) -> bool
    ensures { result ≡ loads_loads access.now }
{
    match *access {
        Access::Fence { before, after, .. } => before.reads && after.reads,
        _ => false,
    }
}

/// Whether no load behind an access is early.
pub fn is_shut(late: LateKinds, access: &Access) -> bool
    ensures { result ≡ shuts late access.now }
{
    (late.loads && orders_loads_alone(access))
        || ((late.stores && orders_loads(access))
            || (!late.owes && (access.stores() && acquires(access))))
}

/// What is late behind a store that is.
pub(crate) fn with_store(late: LateKinds, access: &Access) -> LateKinds
    ensures { result ≡ record {
      loads = late.loads || loads access.now;
      stores = true;
      owes = late.owes;
    } }
{
    LateKinds {
        loads: late.loads || access.loads(),
        stores: true,
        owes: late.owes,
    }
}
