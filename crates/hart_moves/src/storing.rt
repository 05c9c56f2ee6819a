//! An operation that puts a register's number into memory, at a time.
ghost use Rattle.std.specs.Prelude.{◌≡◌, ◌↔◌, ◌+◌, ◌≤◌, ◌<◌, ◌^◌, ◌≢◌, ℕ, true, option_map, replicate, slice_index, slice_index_or, IfSome, List, None, Some};
ghost use Rattle.pages.specs.Memory.{width_bytes};
ghost use Rattle.hart_step.specs.Numbers.{plus};
ghost use Rattle.hart_step.specs.Step.{cut};
ghost use Rattle.run_bounds.specs.Operations.{access_of};
ghost use Rattle.all_endings.specs.HartRuns.{IsPlaced};
ghost use Rattle.all_endings.specs.RunStates.{Move};
ghost use Rattle.all_endings.specs.StoreLists.{Stored, has_byte, no_store};
ghost use Rattle.hart_states.specs.States.{listed, state_of, stored_of};
ghost use Rattle.hart_moves.specs.Choosing.{FailsSo, IsChoiceOf, IsComing, IsFound, IsReserved, LeavesAlone, StoresSo, failed_access, stored_result};

use crate::coming::Coming;
use hart_states::{Choice, ListedStore, RunState, store_at};
use hart_step::{Span, cut_to};
use pages::Width;
use round_schedule::Access;
use run_bounds::{Kind, Operation};

fn cut_known(width: Width, number: Option<u64>) -> Option<u64>
    ensures { result ≡ option_map (cut width) number }
{
    match number {
        Some(number) => Some(cut_to(width, number)),
        None => None,
    }
}

/// What a store leaves in its register: an SC that succeeds, 0.
fn stored_result(kind: Kind) -> Option<u64>
    ensures { result ≡ stored_result kind }
{
    match kind {
        Kind::StoreConditional => Some(0),
        _ => None,
    }
}

/// A store, or an SC that succeeds.
fn store_of(state: &RunState, coming: &Coming, time: usize) -> Choice
    ensures { result ≡ record {
      instruction = coming.now.instruction;
      access = access_of coming.now.operation;
      time = time;
      result = stored_result coming.now.operation.kind;
      written = option_map (cut coming.now.operation.width) coming.now.operand;
      sources = replicate 8 0;
      next = plus state.now.pc 4;
    } }
{
    Choice {
        instruction: coming.instruction,
        access: coming.operation.access(),
        time,
        result: stored_result(coming.operation.kind),
        written: cut_known(coming.operation.width, coming.operand),
        sources: [0; 8],
        next: state.pc.wrapping_add(4),
    }
}

/// Whether the hart holds a reservation of just the bytes of an operation.
fn holds(held: Option<Span>, operation: &Operation) -> bool
    ensures { result ≡ true ↔
        held ≡ Some (record { address = operation.now.address; width = operation.now.width }) }
{
    match held {
        Some(span) => span.address == operation.address && span.width == operation.width,
        None => false,
    }
}

/// Whether a store leaves the bytes alone that an LR read, or stands before what the LR read there.
fn leaves_bytes(
    store: &ListedStore,
    index: usize,
    operation: &Operation,
    sources: &[usize; 8],
) -> bool
    requires fits { operation.now.address + width_bytes operation.now.width ≤ 2 ^ 64 }
    ensures { ((j : ℕ) → j < width_bytes operation.now.width →
        has_byte (stored_of store.now) (operation.now.address + j) ≡ true →
        index < slice_index sources.now j) → result ≡ true }
{
    for j in 0..operation.width.bytes() as usize {
        if store.writes(operation.address + j as u64) && sources[j] <= index {
            return false;
        }
    }
    true
}

/// The same of the store at a place of a list, if another hart does it.
fn leaves_alone(
    list: &[ListedStore],
    hart: u8,
    index: usize,
    operation: &Operation,
    sources: &[usize; 8],
) -> bool
    requires fits { operation.now.address + width_bytes operation.now.width ≤ 2 ^ 64 }
    ensures { ((j : ℕ) → j < width_bytes operation.now.width →
        has_byte (slice_index_or (listed list.now) index no_store) (operation.now.address + j) ≡
        true →
        (slice_index_or (listed list.now) index no_store).hart ≢ hart →
        index < slice_index sources.now j) → result ≡ true }
{
    match store_at(list, index) {
        Some(store) if store.hart != hart => leaves_bytes(&store, index, operation, sources),
        _ => true,
    }
}

/// Atomicity: whether no other hart stores between what the LR read and a time.
fn is_unbroken(
    list: &[ListedStore],
    hart: u8,
    operation: &Operation,
    sources: &[usize; 8],
    time: usize,
) -> bool
    requires fits { operation.now.address + width_bytes operation.now.width ≤ 2 ^ 64 }
    ensures { LeavesAlone hart (listed list.now) operation.now sources.now time → result ≡ true }
{
    if time > list.len() {
        return true;
    }
    for index in 0..time {
        if !leaves_alone(list, hart, index, operation, sources) {
            return false;
        }
    }
    true
}

/// Whether an SC may succeed at a time: by rule 8, and atomicity.
fn may_succeed(
    list: &[ListedStore],
    hart: u8,
    state: &RunState,
    operation: &Operation,
    time: usize,
) -> bool
    requires fits { operation.now.address + width_bytes operation.now.width ≤ 2 ^ 64 }
    ensures { (v : Move) → v.access ≡ access_of operation.now → v.time ≡ time →
        IsReserved hart (listed list.now) (state_of state.now) operation.now v → result ≡ true }
{
    holds(state.held, operation)
        && state.reserved <= time
        && is_unbroken(list, hart, operation, &state.sources, time)
}

/// A store at a time, or an SC that succeeds there.
pub(crate) fn storing_at(
    list: &[ListedStore],
    hart: u8,
    state: &RunState,
    coming: &Coming,
    time: usize,
) -> Option<Choice>
    requires coming { IsComing (state_of state.now) coming.now }
    requires fits { coming.now.operation.address + width_bytes coming.now.operation.width ≤ 2 ^ 64 }
    ensures found { (v : Move) → v.instruction ≡ coming.now.instruction → v.time ≡ time →
        StoresSo hart (listed list.now) (state_of state.now) coming.now.operation v →
        IsFound (listed list.now) (state_of state.now) result v }
    ensures is { IfSome result (λ d. IsChoiceOf (state_of state.now) coming.now d) }
{
    match coming.operation.kind {
        Kind::StoreConditional if !may_succeed(list, hart, state, &coming.operation, time) => None,
        _ => Some(store_of(state, coming, time)),
    }
}

/// An SC that fails.
fn failure_of(state: &RunState, coming: &Coming) -> Choice
    ensures { result ≡ record {
      instruction = coming.now.instruction;
      access = failed_access coming.now.operation;
      time = 0;
      result = Some 1;
      written = None;
      sources = replicate 8 0;
      next = plus state.now.pc 4;
    } }
{
    Choice {
        instruction: coming.instruction,
        access: Access::StoreConditional {
            width: coming.operation.width,
            ordering: coming.operation.ordering,
            place: 0,
            address: coming.operation.address,
            written: None,
        },
        time: 0,
        result: Some(1),
        written: None,
        sources: [0; 8],
        next: state.pc.wrapping_add(4),
    }
}

/// An SC may always fail (manual, section 8.2).
pub(crate) fn failing(state: &RunState, coming: &Coming) -> Option<Choice>
    ensures found { (m : List Stored) (v : Move) → v.instruction ≡ coming.now.instruction →
        FailsSo (state_of state.now) coming.now.operation v →
        IsFound m (state_of state.now) result v }
    ensures fits { IfSome result (λ c. c.access ≡ failed_access coming.now.operation) }
{
    match coming.operation.kind {
        Kind::StoreConditional => Some(failure_of(state, coming)),
        _ => None,
    }
}

/// Whether a store of a hart stands in the list at a time, or is later.
pub(crate) fn is_placed(
    list: &[ListedStore],
    hart: u8,
    operation: &Operation,
    written: Option<u64>,
    time: usize,
) -> bool
    ensures { (v : Move) → v.access ≡ access_of operation.now → v.written ≡ written →
        v.time ≡ time → IsPlaced hart (listed list.now) v → result ≡ true }
{
    if time > list.len() {
        return true;
    }
    match (store_at(list, time), written) {
        (Some(store), Some(number)) => {
            store.hart == hart
                && store.address == operation.address
                && store.width.bytes() == operation.width.bytes()
                && store.number == number
        }
        _ => false,
    }
}
