//! Whether a map has what may be loaded early at an instruction, and behind it.
ghost use Rattle.std.specs.Prelude.{◌≡◌, ℕ, List, Option, IfNone, IfSome, IsTrue, Some, true, false};
ghost use Rattle.round_schedule.specs.declared.access.Access.{Access as AnyAccess};
ghost use Rattle.round_schedule.specs.Accesses.{address_of, bytes_of, loads};
ghost use Rattle.round_schedule.specs.Accesses.{stores as writing};
ghost use Rattle.pages.specs.Memory.{width_bytes};
ghost use Rattle.memory_order.specs.Operations.{covers};
ghost use Rattle.private_bytes.specs.Owners.{is_private};
ghost use Rattle.own_moves.specs.Owned.{owns_of};
ghost use Rattle.early_reads.specs.Checking.{bytes_by, has_early, map_of};
ghost use Rattle.early_reads.specs.Flows.{IsAmong, IsOver};
ghost use Rattle.early_reads.specs.Windows.{late_with, shuts};

use crate::early_bytes::{find, has_by, is_all_by, is_within_by};
use crate::early_point::{EarlyPoint, LateKinds, LoadedBytes};
use crate::flow::Targets;
use crate::shutting::{is_conditional, is_shut, with_store};
use own_moves::{OwnDoubleword, is_own};
use round_schedule::Access;

/// Whether the bytes that may be loaded early behind an instruction, from an address on, are among those of its point.
fn allows(
    points: &[EarlyPoint],
    point: &EarlyPoint,
    late: LateKinds,
    behind: LateKinds,
    next: u64,
) -> bool
    ensures { IsTrue result → (x : ℕ) → (map_of points.now).bytes behind next x ≡ true →
        has_early (bytes_by late point.now) x ≡ true }
{
    match find(points, next) {
        Some(index) => is_within_by(&points[index], behind, point, late),
        None => is_all_by(point, late),
    }
}

/// The same from each address on to which the instruction may lead.
fn allows_each(
    points: &[EarlyPoint],
    point: &EarlyPoint,
    late: LateKinds,
    behind: LateKinds,
    targets: Targets,
) -> bool
    ensures { IsTrue result → (next x : ℕ) → IsAmong targets next →
        (map_of points.now).bytes behind next x ≡ true →
        has_early (bytes_by late point.now) x ≡ true }
{
    match targets {
        Targets::One(next) => allows(points, point, late, behind, next),
        Targets::Two(next, other) => {
            allows(points, point, late, behind, next) && allows(points, point, late, behind, other)
        }
        Targets::Anywhere => is_all_by(point, late),
    }
}

/// What an instruction does, as far as the code tells.
#[derive(Clone, Copy)]
pub(crate) struct CodeStep {
    /// Its access, of an SC that of one that writes.
    pub(crate) access: Access,
    /// Whether the address of that is known.
    pub(crate) known: bool,
    /// Where it may lead.
    pub(crate) targets: Targets,
}

/// Whether what may be loaded early behind an instruction may be so before it, unless it shuts.
pub(crate) fn leads_on(
    points: &[EarlyPoint],
    owned: &[OwnDoubleword],
    hart: u8,
    point: &EarlyPoint,
    late: LateKinds,
    step: &CodeStep,
) -> bool
    ensures { IsTrue result → (z : AnyAccess) (next x : ℕ) →
        IsOver step.now.known step.now.access z → IsAmong step.now.targets next →
        shuts late z ≡ false →
        (map_of points.now).bytes (late_with (owns_of owned.now) hart late z) next x ≡ true →
        has_early (bytes_by late point.now) x ≡ true }
{
    let access = &step.access;
    let conditional = is_conditional(access);
    if !conditional && is_shut(late, access) {
        return true;
    }
    if late.owes {
        return allows_each(points, point, late, late, step.targets);
    }
    if !access.stores() {
        return allows_each(points, point, late, late, step.targets);
    }
    if !allows_each(points, point, late, with_store(late, access), step.targets) {
        return false;
    }
    if step.known && !conditional && !is_own(owned, hart, access.address()) {
        return true;
    }
    allows_each(points, point, late, late, step.targets)
}

/// The bytes of a plain load or an LR.
pub(crate) fn loaded_by(access: &Access) -> Option<LoadedBytes>
    ensures none { IfNone result
        (loads access.now ≡ true → writing access.now ≡ false → ⊥) }
    ensures some { IfSome result (λ r. (address_of access.now ≡ r.address) ×
        (bytes_of access.now ≡ width_bytes r.width)) }
{
    match *access {
        Access::Load { width, address, .. } => Some(LoadedBytes { address, width }),
        Access::LoadReserved { width, address, .. } => Some(LoadedBytes { address, width }),
        _ => None,
    }
}

/// Whether the bytes that an instruction loads may be loaded early there, but for the hart's own.
pub(crate) fn reads_told(
    owned: &[OwnDoubleword],
    hart: u8,
    point: &EarlyPoint,
    late: LateKinds,
    step: &CodeStep,
) -> bool
    ensures { IsTrue result → (z : AnyAccess) (x : ℕ) → IsOver step.now.known step.now.access z →
        loads z ≡ true → writing z ≡ false → is_private (owns_of owned.now) hart z ≡ false →
        covers z x ≡ true → has_early (bytes_by late point.now) x ≡ true }
{
    match loaded_by(&step.access) {
        Some(bytes) => {
            if is_all_by(point, late) {
                return true;
            }
            if !step.known {
                return false;
            }
            if is_own(owned, hart, bytes.address) {
                return true;
            }
            has_by(point, late, bytes)
        }
        None => true,
    }
}
