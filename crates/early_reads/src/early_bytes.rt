//! The points of a map, and the bytes that may be loaded early there.
ghost use Rattle.std.specs.Prelude.{◌≡◌, ◌<◌, ℕ, length, slice_index_or, IfNone, IfSome, IsTrue, MatchOption, Some, None, true, false};
ghost use Rattle.pages.specs.Memory.{in_range, width_bytes};
ghost use Rattle.early_reads.specs.declared.early_point.EarlyPoint.{EarlyPoint as Point};
ghost use Rattle.early_reads.specs.declared.early_point.LateKinds.{LateKinds as Late};
ghost use Rattle.early_reads.specs.declared.early_point.EarlyBytes.TheVariants.{All};
ghost use Rattle.early_reads.specs.Checking.{LeavesSome, bytes_by, has_all, has_early, is_loaded, map_of, point_at};
ghost use Rattle.early_reads.specs.EarlyMaps.{LeavesOut};

use crate::early_point::{EarlyBytes, EarlyPoint, EarlySets, LateKinds, LoadedBytes};

/// The bytes that may be loaded early at a point, for what is late. None where nothing is: all.
pub(crate) fn set_of(point: &EarlyPoint, late: LateKinds) -> Option<&EarlyBytes>
    ensures none { IfNone result (bytes_by late point.now ≡ All) }
    ensures some { IfSome result (λ s. s.now ≡ bytes_by late point.now) }
{
    let sets = if late.owes { &point.owing } else { &point.paid };
    match (late.loads, late.stores) {
        (true, true) => Some(&sets.after_both),
        (true, false) => Some(&sets.after_load),
        (false, true) => Some(&sets.after_store),
        (false, false) => None,
    }
}

/// The bytes that may be loaded early from an address on, for what is late. None where the map tells nothing: all.
pub fn bytes_at<'a>(points: &'a [EarlyPoint], late: LateKinds, pc: u64) -> Option<&'a EarlyBytes>
    ensures { IfSome result (λ s. (x : ℕ) →
        (map_of points.now).bytes late pc x ≡ has_early s.now x) }
{
    match find(points, pc) {
        Some(index) => set_of(&points[index], late),
        None => None,
    }
}

/// The index of the point of an address.
pub(crate) fn find(points: &[EarlyPoint], pc: u64) -> Option<usize>
    ensures { MatchOption result (point_at points.now pc ≡ None)
        (λ k. (k < length points.now) × ((d : Point) → point_at points.now pc ≡
        Some (slice_index_or points.now k d))) }
{
    for index in 0..points.len() {
        if points[index].pc == pc {
            return Some(index);
        }
    }
    None
}

/// Whether a load is among some.
pub(crate) fn is_among(set: &[LoadedBytes], bytes: LoadedBytes) -> bool
    ensures { IsTrue result → (x : ℕ) →
        in_range bytes.address (width_bytes bytes.width) x ≡ true →
        is_loaded set.now x ≡ true }
{
    for other in set {
        if other.address == bytes.address && other.width == bytes.width {
            return true;
        }
    }
    false
}

/// Whether the bytes of a load are among those that may be loaded early.
fn has(set: &EarlyBytes, bytes: LoadedBytes) -> bool
    ensures { IsTrue result → (x : ℕ) →
        in_range bytes.address (width_bytes bytes.width) x ≡ true → has_early set.now x ≡ true }
{
    match set {
        EarlyBytes::All => true,
        EarlyBytes::Among(loads) => is_among(loads, bytes),
    }
}

/// The same by what is late.
pub(crate) fn has_by(point: &EarlyPoint, late: LateKinds, bytes: LoadedBytes) -> bool
    ensures { IsTrue result → (x : ℕ) →
        in_range bytes.address (width_bytes bytes.width) x ≡ true →
        has_early (bytes_by late point.now) x ≡ true }
{
    match set_of(point, late) {
        Some(set) => has(set, bytes),
        None => true,
    }
}

/// Whether all bytes may be loaded early.
fn is_all(set: &EarlyBytes) -> bool
    ensures all { IsTrue result → (x : ℕ) → has_early set.now x ≡ true }
    ensures is { result ≡ has_all set.now }
{
    matches!(set, EarlyBytes::All)
}

/// Whether bytes are left out, for some kind of what is late.
fn leaves_some(sets: &EarlySets) -> bool
    ensures { IsTrue result → LeavesSome sets.now }
{
    if !is_all(&sets.after_load) {
        return true;
    }
    if !is_all(&sets.after_store) {
        return true;
    }
    !is_all(&sets.after_both)
}

/// Whether bytes are left out at a point, for some kind of what is late.
fn is_open(point: &EarlyPoint) -> bool
    ensures { IsTrue result → (l : Late) × (x : ℕ) ×
        (has_early (bytes_by l point.now) x ≡ false) }
{
    if leaves_some(&point.paid) {
        return true;
    }
    leaves_some(&point.owing)
}

/// Whether a map leaves out bytes at an address, for some kind of what is late.
pub fn leaves_out(points: &[EarlyPoint], pc: u64) -> bool
    ensures { IsTrue result → LeavesOut (map_of points.now) pc }
{
    match find(points, pc) {
        Some(index) => is_open(&points[index]),
        None => false,
    }
}

/// The same by what is late.
pub(crate) fn is_all_by(point: &EarlyPoint, late: LateKinds) -> bool
    ensures { IsTrue result → (x : ℕ) → has_early (bytes_by late point.now) x ≡ true }
{
    match set_of(point, late) {
        Some(set) => is_all(set),
        None => true,
    }
}

/// Whether some loads are among the bytes that may be loaded early at a point.
fn has_each(loads: &[LoadedBytes], point: &EarlyPoint, late: LateKinds) -> bool
    ensures { IsTrue result → (x : ℕ) → is_loaded loads.now x ≡ true →
        has_early (bytes_by late point.now) x ≡ true }
{
    for bytes in loads {
        if !has_by(point, late, *bytes) {
            return false;
        }
    }
    true
}

/// Whether some bytes are among those that may be loaded early at a point.
fn is_within(set: &EarlyBytes, point: &EarlyPoint, late: LateKinds) -> bool
    ensures { IsTrue result → (x : ℕ) → has_early set.now x ≡ true →
        has_early (bytes_by late point.now) x ≡ true }
{
    match set {
        EarlyBytes::All => is_all_by(point, late),
        EarlyBytes::Among(loads) => has_each(loads, point, late),
    }
}

/// The same of those of another point.
pub(crate) fn is_within_by(
    other: &EarlyPoint,
    behind: LateKinds,
    point: &EarlyPoint,
    late: LateKinds,
) -> bool
    ensures { IsTrue result → (x : ℕ) → has_early (bytes_by behind other.now) x ≡ true →
        has_early (bytes_by late point.now) x ≡ true }
{
    match set_of(other, behind) {
        Some(set) => is_within(set, point, late),
        None => is_all_by(point, late),
    }
}
