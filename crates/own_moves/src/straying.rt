//! Whether an instruction keeps to the bytes that are the hart's own or nobody's.
ghost use Rattle.std.specs.Prelude.{◌≡◌, ◌<◌, ℕ, true, length, slice_index_or, None, Some};
ghost use Rattle.hart_step.specs.DecodedCode.{decoded};
ghost use Rattle.hart_step.specs.Effect.{action};
ghost use Rattle.run_bounds.specs.Operations.{operation_in};
ghost use Rattle.all_endings.specs.Locality.{filled};
ghost use Rattle.hart_states.specs.States.{state_of};
ghost use Rattle.private_bytes.specs.Owners.{KeepsToItself};
ghost use Rattle.own_moves.specs.declared.owned.OwnDoubleword.{OwnDoubleword as Own};
ghost use Rattle.own_moves.specs.Owned.{owns_of};
ghost use Rattle.own_moves.specs.Private.{is_plain};

use crate::owned::OwnDoubleword;
use hart_moves::{coming_of, hart_of, instruction_at};
use hart_states::RunState;
use pages::Pages;
use run_bounds::{Kind, Operation, operation_of};
use rv64_decode::Instr;

/// Whether an operation is a plain load or store.
pub(crate) fn is_plain(kind: Kind) -> bool
    ensures { result ≡ is_plain kind }
{
    matches!(kind, Kind::Load | Kind::Store)
}

/// Whether a hart may touch a doubleword that is one of so many harts' own: if it is the hart's, by a plain load or store.
fn may_touch(own: &OwnDoubleword, hart: u8, harts: u8, plain: bool) -> bool
    ensures { result ≡ true → own.now.hart < harts →
        (own.now.hart ≡ hart) × (plain ≡ true) }
{
    own.hart >= harts || (own.hart == hart && plain)
}

/// Whether a hart may touch a doubleword, whosever it is.
fn keeps(owned: &[OwnDoubleword], hart: u8, harts: u8, number: u64, plain: bool) -> bool
    ensures { result ≡ true → (k : ℕ) (d : Own) → k < length owned.now →
        (slice_index_or owned.now k d).number ≡ number →
        (slice_index_or owned.now k d).hart < harts →
        ((slice_index_or owned.now k d).hart ≡ hart) × (plain ≡ true) }
{
    for index in 0..owned.len() {
        if owned[index].number == number && !may_touch(&owned[index], hart, harts, plain) {
            return false;
        }
    }
    true
}

/// The doubleword to which an operation strays, where memory lets it be done.
fn stray(
    pages: &Pages,
    hart: u8,
    harts: u8,
    owned: &[OwnDoubleword],
    state: &RunState,
    i: &Instr,
    operation: &Operation,
) -> Option<u64>
    requires known { decoded pages.now.memory state.now.pc ≡ Some i.now }
    requires is { operation_in (action i.now (filled state.now.registers) state.now.pc) ≡
        Some operation.now }
    ensures { result ≡ None →
        KeepsToItself (owns_of owned.now) pages.now.memory harts hart (state_of state.now) }
{
    let number = operation.address / 8;
    if keeps(owned, hart, harts, number, is_plain(operation.kind)) {
        return None;
    }
    match coming_of(pages, state, i, operation) {
        Some(_) => Some(number),
        None => None,
    }
}

/// The number of a doubleword by which a hart's next instruction doesn't keep to itself, of so many harts: another's own, or its own one by more than a
/// plain load or store. None where it keeps to itself.
pub fn strays_to(
    pages: &Pages,
    hart: u8,
    harts: u8,
    owned: &[OwnDoubleword],
    state: &RunState,
) -> Option<u64>
    ensures { result ≡ None →
        KeepsToItself (owns_of owned.now) pages.now.memory harts hart (state_of state.now) }
{
    let Some(i) = instruction_at(pages, state.pc) else {
        return None;
    };
    match operation_of(&hart_of(state), &i) {
        Some(operation) => stray(pages, hart, harts, owned, state, &i, &operation),
        None => None,
    }
}
