//! Bounds that are at most others.
ghost use Rattle.std.specs.Prelude.{◌≡◌, ◌<◌, ◌≤◌, ℕ, IsTrue, option_map, slice_index};
ghost use Rattle.all_endings.specs.Lowering.{CarriedAtMost, KindsAtMost};
ghost use Rattle.hart_states.specs.States.{own_of};
ghost use Rattle.private_bytes.specs.Ahead.{OwnAhead, Tells};
ghost use Rattle.run_bounds.specs.Bounds.{carried_of, kinds_of};
ghost use Rattle.run_places.specs.Bounds.{AreBytesAhead, IsByteAhead, IsStoredAhead};

use run_bounds::{CarriedTimes, KindTimes, OwnByte, TouchedByte};

/// Whether all bounds by kinds are at most others.
pub(crate) fn kinds_at_most(a: &KindTimes, b: &KindTimes) -> bool
    ensures { IsTrue result → KindsAtMost (kinds_of a.now) (kinds_of b.now) }
{
    a.loads <= b.loads
        && a.stores <= b.stores
        && a.acquires <= b.acquires
        && a.annotated <= b.annotated
        && a.load_load <= b.load_load
        && a.load_store <= b.load_store
        && a.store_load <= b.store_load
        && a.store_store <= b.store_store
}

/// Whether all bounds by dependencies are at most others.
pub(crate) fn carried_at_most(a: &CarriedTimes, b: &CarriedTimes) -> bool
    ensures { IsTrue result → CarriedAtMost (carried_of a.now) (carried_of b.now) }
{
    for register in 0..32 {
        if a.registers[register] > b.registers[register] {
            return false;
        }
    }
    a.steered <= b.steered && a.addressed <= b.addressed
}

/// Whether each number is at most the one beside it.
pub(crate) fn all_at_most(a: &[usize; 8], b: &[usize; 8]) -> bool
    ensures { IsTrue result → (k : ℕ) → slice_index a.now k ≤ slice_index b.now k }
{
    for index in 0..8 {
        if a[index] > b[index] {
            return false;
        }
    }
    true
}

/// Whether all bounds by bytes are at most others, and no less is known of the hart's stores: of the same bytes in the same order, behind
/// which the hart has stored to none.
pub(crate) fn bytes_ahead(a: &[TouchedByte], b: &[TouchedByte]) -> bool
    ensures { IsTrue result → AreBytesAhead a.now b.now }
{
    if a.len() > b.len() {
        return false;
    }
    for index in 0..a.len() {
        if !byte_ahead(&a[index], &b[index]) {
            return false;
        }
    }
    for index in a.len()..b.len() {
        if b[index].own.is_some() {
            return false;
        }
    }
    true
}

fn byte_ahead(a: &TouchedByte, b: &TouchedByte) -> bool
    ensures { IsTrue result → IsByteAhead a.now b.now }
{
    a.address == b.address && a.touched <= b.touched && a.seen <= b.seen && own_ahead(a.own, b.own)
}

fn own_ahead(a: Option<OwnByte>, b: Option<OwnByte>) -> bool
    ensures { IsTrue result → OwnAhead (option_map own_of a) (option_map own_of b) }
{
    match (a, b) {
        (None, None) => true,
        (Some(o), Some(p)) => stored_ahead(&o, &p),
        _ => false,
    }
}

/// Whether two last stores are the same, no less is known of the first one, and its address and data depend on nothing later.
fn stored_ahead(o: &OwnByte, p: &OwnByte) -> bool
    ensures { IsTrue result → IsStoredAhead o.now p.now }
{
    o.place == p.place && byte_tells(p.byte, o.byte) && o.atomic == p.atomic && o.needs <= p.needs
}

/// Whether the second byte is the first one, where that is known.
pub(crate) fn byte_tells(told: Option<u8>, teller: Option<u8>) -> bool
    ensures { IsTrue result → Tells told teller }
{
    told.is_none() || told == teller
}
