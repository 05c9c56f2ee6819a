//! Which places are compared.

use crate::place::Place;
use hart_states::RunState;

/// What a mark is multiplied by where a number comes to it: an odd number without a pattern.
const MULTIPLIER: u64 = 0x9e37_79b9_7f4a_7c15;

/// A number that two places share where one stands for the other and knows no more than it: of what has to be the same. One that knows more may
/// stand for another one with another mark, which isn't found; nothing else hangs on marks.
pub(crate) fn mark_of(place: &Place) -> u64 {
    let chosen = match place.next {
        Some(store) => with(store.address, store.number),
        None => 0,
    };
    let done = with(place.state.pc, place.paid.len() as u64);
    with_bytes(
        &place.state,
        with_registers(&place.state, with(done, chosen)),
    )
}

/// A mark, and one number more.
fn with(mark: u64, number: u64) -> u64 {
    mark.wrapping_mul(MULTIPLIER).wrapping_add(number)
}

/// A mark, and the registers that are known.
fn with_registers(state: &RunState, before: u64) -> u64 {
    let mut mark = before;
    for register in 0..32 {
        mark = with(mark, state.registers[register].unwrap_or(0));
    }
    mark
}

/// A mark, and what the hart's own last stores left, and where they stand, in whatever order they are kept.
fn with_bytes(state: &RunState, before: u64) -> u64 {
    let mut mark = before;
    for byte in &state.bytes {
        if let Some(own) = byte.own {
            let place = with(byte.address, own.place as u64);
            let left = with(place, u64::from(own.byte.unwrap_or(0)));
            mark = mark.wrapping_add(left.wrapping_mul(MULTIPLIER));
        }
    }
    mark
}
