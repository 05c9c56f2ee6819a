//! The states behind the next instruction of a run.
ghost use Rattle.std.specs.Prelude.{◌≡◌, ◌≢◌, ◌+◌, ℕ, IfOk, IfSome, List, Some, None};
ghost use Rattle.round_schedule.specs.Accesses.{address_of, bytes_of};
ghost use Rattle.rv64_decode.specs.declared.instruction.Instr.TheVariants.{Ecall};
ghost use Rattle.hart_step.specs.DecodedCode.{decoded};
ghost use Rattle.hart_step.specs.Effect.{action};
ghost use Rattle.run_bounds.specs.Operations.{operation_in};
ghost use Rattle.all_endings.specs.HartRuns.{Acts, IsPlaced};
ghost use Rattle.all_endings.specs.Locality.{filled};
ghost use Rattle.all_endings.specs.RunStates.{Move};
ghost use Rattle.all_endings.specs.StoreLists.{Stored};
ghost use Rattle.hart_states.specs.Opening.{opening_of};
ghost use Rattle.hart_states.specs.States.{listed, state_of};
ghost use Rattle.hart_moves.specs.Choosing.{IsFound};
ghost use Rattle.hart_moves.specs.Moves.{AreMovesBy};

use crate::calling::{call, call_number, has_any_answer};
use crate::coming::coming_of;
use crate::computing::{compute, fence};
use crate::operating::{add_successor, operate};
use all_endings::destinations_are_written;
use hart_states::{Choice, ListedStore, OpeningMemory, RunState, Successor};
use pages::{OutOfMemory, Pages};
use run_bounds::Operation;
use rv64_decode::{Instr, decode};
use std::alloc::Global;

/// What a run may do next.
#[derive(Drop)]
pub enum Reached {
    /// For each move, one of these stands for what it leaves.
    Whole(Vec<Successor>),
    /// Nothing is said: the next instruction is a call that may have any answer, since it takes in a byte or asks for the round.
    AnyAnswer,
}

/// The instruction at an address, where there is one.
#[tactic(auto, using(crate::proofs::Allowed::fetched_none, crate::proofs::Allowed::fetched_some))]
pub fn instruction_at(pages: &Pages, pc: u64) -> Option<Instr>
    ensures { result ≡ decoded pages.now.memory pc }
{
    match pages.fetch(pc) {
        Some(word) => decode(word),
        None => None,
    }
}

/// The states behind a memory operation that comes next: for each of its moves one that is ahead.
///
/// # Errors
///
/// `OutOfMemory` alone.
pub fn operation_moves(
    alloc: Global,
    memory: &OpeningMemory<'_>,
    hart: u8,
    list: &[ListedStore],
    state: &RunState,
    i: &Instr,
    operation: &Operation,
) -> Result<Reached, OutOfMemory>
    requires is { operation_in (action i.now (filled state.now.registers) state.now.pc) ≡
        Some operation.now }
    ensures { IfOk result (λ r.
        AreMovesBy memory.now.pages.now.memory hart (listed list.now) (opening_of memory.now)
        (state_of state.now) i.now r) }
{
    destinations_are_written();
    match coming_of(memory.pages, state, i, operation) {
        Some(coming) => {
            let found = operate(alloc, memory, hart, list, state, &coming)?;
            Ok(Reached::Whole(found))
        }
        None => Ok(Reached::Whole(Vec::new(alloc))),
    }
}

/// The move of an instruction that is neither a memory operation nor a call.
fn other_choice(
    alloc: Global,
    pages: &Pages,
    state: &RunState,
    i: &Instr,
) -> Result<Option<Choice>, OutOfMemory>
    requires none { operation_in (action i.now (filled state.now.registers) state.now.pc) ≡ None }
    requires known { decoded pages.now.memory state.now.pc ≡ Some i.now }
    ensures found { i.now ≢ Ecall → IfOk result (λ o.
        (h : ℕ) (m : List Stored) (opening : ℕ → ℕ) (v : Move) → v.instruction ≡ i.now →
        Acts pages.now.memory h m opening (IsPlaced h m) (state_of state.now) v →
        IsFound m (state_of state.now) o v) }
    ensures fits { IfOk result (λ o. IfSome o (λ c. address_of c.access + bytes_of c.access ≡ 0)) }
{
    destinations_are_written();
    if let Instr::Fence {
        before,
        after,
        mode,
    } = *i
    {
        return Ok(Some(fence(state, i, before, after, mode)));
    }
    let choice = compute(alloc, pages, state, i)?;
    Ok(choice)
}

/// The moves of a call. Nothing is said of one that may have any answer.
fn call_moves(
    alloc: Global,
    pages: &Pages,
    hart: u8,
    list: &[ListedStore],
    state: &RunState,
) -> Result<Reached, OutOfMemory>
    ensures { IfOk result (λ r. (opening : ℕ → ℕ) →
        AreMovesBy pages.now.memory hart (listed list.now) opening (state_of state.now) Ecall r) }
{
    let _pages = pages.count();
    if has_any_answer(call_number(state)) {
        return Ok(Reached::AnyAnswer);
    }
    let mut found = Vec::new(alloc);
    add_successor(&mut found, list, hart, state, call(state))?;
    Ok(Reached::Whole(found))
}

/// The states behind an instruction that comes next and is no memory operation: for each of its moves one that is ahead.
///
/// # Errors
///
/// `OutOfMemory` alone.
pub fn other_moves(
    alloc: Global,
    pages: &Pages,
    hart: u8,
    list: &[ListedStore],
    state: &RunState,
    i: &Instr,
) -> Result<Reached, OutOfMemory>
    requires none { operation_in (action i.now (filled state.now.registers) state.now.pc) ≡ None }
    requires known { decoded pages.now.memory state.now.pc ≡ Some i.now }
    ensures { IfOk result (λ r. (opening : ℕ → ℕ) →
        AreMovesBy pages.now.memory hart (listed list.now) opening (state_of state.now) i.now r) }
{
    if let Instr::Ecall = *i {
        return call_moves(alloc, pages, hart, list, state);
    }
    let mut found = Vec::new(alloc);
    let choice = other_choice(alloc, pages, state, i)?;
    add_successor(&mut found, list, hart, state, choice)?;
    Ok(Reached::Whole(found))
}
