//! The store that a run may do next.
ghost use Rattle.std.specs.Prelude.{◌≡◌, ℕ, Some};
ghost use Rattle.hart_step.specs.DecodedCode.{decoded};
ghost use Rattle.hart_step.specs.Effect.{action};
ghost use Rattle.run_bounds.specs.Operations.{operation_in};
ghost use Rattle.all_endings.specs.Locality.{filled};
ghost use Rattle.all_endings.specs.Offering.{Offers};
ghost use Rattle.all_endings.specs.StoreLists.{Stored};
ghost use Rattle.hart_states.specs.Opening.{opening_of};
ghost use Rattle.hart_states.specs.States.{listed, state_of};
ghost use Rattle.hart_moves.specs.Offers.{IsOffer};

use crate::coming::coming_of;
use crate::computing::hart_of;
use crate::moving::instruction_at;
use crate::operating::operation_at;
use all_endings::destinations_are_written;
use hart_states::{ListedStore, OpeningMemory, RunState};
use run_bounds::{Operation, operation_of};
use rv64_decode::Instr;

/// An operation as a store of a list, where what it writes is known.
fn listed_as(hart: u8, operation: &Operation, written: Option<u64>) -> Option<ListedStore>
    ensures { (n : ℕ) → written ≡ Some n → result ≡ Some (record {
      hart = hart;
      address = operation.now.address;
      width = operation.now.width;
      number = n;
    }) }
{
    match written {
        Some(number) => Some(ListedStore {
            hart,
            address: operation.address,
            width: operation.width,
            number,
        }),
        None => None,
    }
}

/// The store of a memory operation that may come right behind the list.
fn offered(
    memory: &OpeningMemory<'_>,
    hart: u8,
    list: &[ListedStore],
    state: &RunState,
    i: &Instr,
    operation: &Operation,
) -> Option<ListedStore>
    requires known { decoded memory.now.pages.now.memory state.now.pc ≡ Some i.now }
    requires is { operation_in (action i.now (filled state.now.registers) state.now.pc) ≡
        Some operation.now }
    ensures { (s : Stored) → Offers memory.now.pages.now.memory hart (listed list.now)
        (opening_of memory.now) (state_of state.now) s → IsOffer result s }
{
    destinations_are_written();
    let coming = match coming_of(memory.pages, state, i, operation) {
        Some(coming) => coming,
        None => return None,
    };
    match operation_at(list, memory, hart, state, &coming, list.len()) {
        Some(choice) => listed_as(hart, operation, choice.written),
        None => None,
    }
}

/// The store that may come right behind the list, by the next instruction of a run: there is at most one.
pub fn offers(
    memory: &OpeningMemory<'_>,
    hart: u8,
    list: &[ListedStore],
    state: &RunState,
) -> Option<ListedStore>
    ensures { (s : Stored) → Offers memory.now.pages.now.memory hart (listed list.now)
        (opening_of memory.now) (state_of state.now) s → IsOffer result s }
{
    let Some(i) = instruction_at(memory.pages, state.pc) else {
        return None;
    };
    match operation_of(&hart_of(state), &i) {
        Some(operation) => offered(memory, hart, list, state, &i, &operation),
        None => None,
    }
}
