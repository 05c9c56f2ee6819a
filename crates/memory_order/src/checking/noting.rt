//! Bounds of the bytes of one access.

ghost use Rattle.std.specs.Prelude.{◌≡◌, ◌+◌, ◌==◌, ◌&&◌, ◌≤◌, ◌<◌, ◌^◌, ◌↔◌, ℕ, true, max, if◌then◌else◌, IsTrue, OnOk};
ghost use Rattle.round_schedule.specs.Accesses.{address_of, bytes_of, writes};
ghost use Rattle.memory_order.specs.Checking.{bound};

use crate::checking::bounds::{Bounds, are_at_most, raise_bytes};
use pages::OutOfMemory;
use round_schedule::Access;

/// Raises the owner's bound of each byte that a store writes to `next`.
pub(crate) fn note_store(
    bounds: &mut Bounds,
    owner: u64,
    access: &Access,
    next: usize,
) -> Result<(), OutOfMemory>
    requires { address_of access.now + bytes_of access.now < 2 ^ 64 }
    ensures { OnOk result ((h x : ℕ) → bound bounds.new h x ≡ (if h == owner && writes access.now x
        then max (bound bounds.old h x) next else bound bounds.old h x)) }
{
    if !access.stores() {
        return Ok(());
    }
    raise_bytes(bounds, owner, access.address(), access.byte_count(), next)
}

/// Whether the owner's bounds of the bytes that a store writes are at most `position`.
pub fn may_store(bounds: &Bounds, owner: u64, access: &Access, position: usize) -> bool
    requires { address_of access.now + bytes_of access.now < 2 ^ 64 }
    ensures { IsTrue result ↔
        ((x : ℕ) → writes access.now x ≡ true → bound bounds.now owner x ≤ position) }
{
    !access.stores()
        || are_at_most(
            bounds,
            owner,
            access.address(),
            access.byte_count(),
            position,
        )
}
