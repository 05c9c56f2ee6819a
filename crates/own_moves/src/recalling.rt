//! A plain load of own bytes: it reads what the hart left there, whenever it stands.
ghost use Rattle.std.specs.Prelude.{◌≡◌, ◌+◌, ◌-◌, ◌*◌, ◌≤◌, ◌<◌, ◌^◌, ℕ, length, option_map, IfSome, Some};
ghost use Rattle.pages.specs.Memory.{width_bytes};
ghost use Rattle.hart_step.specs.Step.{extended_to};
ghost use Rattle.run_bounds.specs.declared.operation.Kind.TheVariants.{Load as LoadKind};
ghost use Rattle.run_bounds.specs.Operations.{access_of};
ghost use Rattle.all_endings.specs.HartRuns.{Stands};
ghost use Rattle.all_endings.specs.RunStates.{Move};
ghost use Rattle.hart_moves.specs.Choosing.{IsComing, IsFound};
ghost use Rattle.hart_states.specs.Opening.{opening_of};
ghost use Rattle.hart_states.specs.States.{listed, own_of, state_of};
ghost use Rattle.private_bytes.specs.PrivateMoves.{joined, left_by, own_number};
ghost use Rattle.own_moves.specs.Private.{RecallsSo};

use crate::timing::{earliest, needs_of_all};
use hart_moves::Coming;
use hart_states::{Choice, ListedStore, OpeningMemory, RunState};
use hart_step::sign_extended;
use run_bounds::{Operation, TouchedByte};

/// The byte that the hart's own last store left, else the opening byte.
fn own_byte(memory: &OpeningMemory<'_>, known: &TouchedByte, x: u64) -> Option<u8>
    requires within { x < length memory.now.pages.now.memory.bytes }
    ensures { result ≡
        left_by (opening_of memory.now x) (option_map own_of known.now.own) }
{
    match known.own {
        Some(own) => own.byte,
        None => Some(memory.byte(x)),
    }
}

/// A byte, and the number of fewer than 8 bytes behind it, where both are known.
fn joined(byte: Option<u8>, rest: Option<u64>) -> Option<u64>
    requires fits { IfSome rest (λ n. n < 2 ^ 56) }
    ensures is { result ≡ joined byte rest }
    ensures grows { (bound : ℕ) → IfSome rest (λ n. n < bound) →
        IfSome result (λ n. n < 2 ^ 8 * bound) }
{
    match (byte, rest) {
        (Some(byte), Some(rest)) => Some(u64::from(byte) + 0x100 * rest),
        _ => None,
    }
}

/// The number in the own bytes of an operation, where all of them are known.
fn own_number(memory: &OpeningMemory<'_>, state: &RunState, coming: &Coming) -> Option<u64>
    requires coming { IsComing (state_of state.now) coming.now }
    requires within { coming.now.operation.address + width_bytes coming.now.operation.width ≤
        length memory.now.pages.now.memory.bytes }
    ensures { result ≡ own_number (opening_of memory.now) (state_of state.now)
        coming.now.operation.address (width_bytes coming.now.operation.width) }
{
    let (_pages, _state) = (memory.pages.count(), state.pc);
    let count = coming.operation.width.bytes() as usize;
    let mut number = Some(0u64);
    for back in 0..count {
        let place = count - 1 - back;
        let address = coming.operation.address + place as u64;
        number = joined(own_byte(memory, &coming.known[place], address), number);
    }
    number
}

/// The register that a number that is read gives.
fn extended(operation: &Operation, number: Option<u64>) -> Option<u64>
    ensures { result ≡ option_map (extended_to operation.now.signed operation.now.width) number }
{
    match number {
        Some(number) if operation.signed => Some(sign_extended(operation.width, number)),
        Some(number) => Some(number),
        None => None,
    }
}

/// A plain load of own bytes, at its least time.
pub(crate) fn recall(
    list: &[ListedStore],
    memory: &OpeningMemory<'_>,
    state: &RunState,
    coming: &Coming,
) -> Choice
    requires coming { IsComing (state_of state.now) coming.now }
    requires kind { coming.now.operation.kind ≡ LoadKind }
    requires within { coming.now.operation.address + width_bytes coming.now.operation.width ≤
        length memory.now.pages.now.memory.bytes }
    ensures found { (v : Move) → v.instruction ≡ coming.now.instruction →
        RecallsSo (opening_of memory.now) (state_of state.now) coming.now.operation v →
        Stands (state_of state.now) v →
        IsFound (listed list.now) (state_of state.now) (Some result) v }
    ensures access { result.access ≡ access_of coming.now.operation }
{
    let access = coming.operation.access();
    let count = coming.operation.width.bytes() as usize;
    let needs = needs_of_all(&coming.known, count);
    let number = own_number(memory, state, coming);
    Choice {
        instruction: coming.instruction,
        access,
        time: earliest(state, coming, &access, list.len() + 1).max(needs),
        result: extended(&coming.operation, number),
        written: None,
        sources: [0; 8],
        next: state.pc.wrapping_add(4),
    }
}
