//! Whether all that a state hangs on stands before a time.
ghost use Rattle.std.specs.Prelude.{◌↔◌, ◌≡◌, IsTrue, option_map};
ghost use Rattle.hart_states.specs.States.{own_of, state_of};
ghost use Rattle.private_bytes.specs.PrivateMoves.{needs_of};
ghost use Rattle.run_bounds.specs.Bounds.{carried_of, kinds_of};
ghost use Rattle.settled_walks.specs.Within.{AreBytesWithin, IsCarriedWithin, IsByteWithin, AreKindsWithin, IsWithin};

use hart_states::RunState;
use run_bounds::{CarriedTimes, KindTimes, TouchedByte, byte_known};

/// Whether all times of a state are at most a number.
pub(crate) fn is_within(state: &RunState, time: usize) -> bool
    ensures { IsTrue result ↔ IsWithin time (state_of state.now) }
{
    kinds_within(&state.kinds, time)
        && carried_within(&state.carried, time)
        && bytes_within(&state.bytes, time)
}

/// Whether all bounds by kinds are at most a number.
fn kinds_within(kinds: &KindTimes, time: usize) -> bool
    ensures { IsTrue result ↔ AreKindsWithin time (kinds_of kinds.now) }
{
    kinds.loads <= time
        && kinds.stores <= time
        && kinds.acquires <= time
        && kinds.annotated <= time
        && kinds.load_load <= time
        && kinds.load_store <= time
        && kinds.store_load <= time
        && kinds.store_store <= time
}

/// Whether all bounds by dependencies are at most a number.
fn carried_within(carried: &CarriedTimes, time: usize) -> bool
    ensures { IsTrue result ↔ IsCarriedWithin time (carried_of carried.now) }
{
    for register in 1..32 {
        if carried.registers[register] > time {
            return false;
        }
    }
    carried.steered <= time && carried.addressed <= time
}

/// Whether no byte was touched behind a time, nor its last store depends on something behind it.
fn bytes_within(bytes: &[TouchedByte], time: usize) -> bool
    ensures { IsTrue result ↔ AreBytesWithin time bytes.now }
{
    for index in 0..bytes.len() {
        if !is_byte_within(&byte_known(bytes, bytes[index].address), time) {
            return false;
        }
    }
    true
}

fn is_byte_within(byte: &TouchedByte, time: usize) -> bool
    ensures { IsTrue result ↔ IsByteWithin time byte.now }
{
    byte.touched <= time && needs_of(byte) <= time
}

/// Rule 12: the time of what the hart's own last store to a byte depends on.
fn needs_of(byte: &TouchedByte) -> usize
    ensures { result ≡ needs_of (option_map own_of byte.now.own) }
{
    match byte.own {
        Some(own) => own.needs,
        None => 0,
    }
}
