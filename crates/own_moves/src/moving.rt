//! The states behind the next instruction of a run.
ghost use Rattle.std.specs.Prelude.{◌≡◌, ◌&&◌, ◌+◌, ◌≤◌, ℕ, length, IfOk, OnOk, Some};
ghost use Rattle.pages.specs.Memory.{width_bytes};
ghost use Rattle.all_endings.specs.HartRuns.{Stands};
ghost use Rattle.all_endings.specs.RunStates.{Move};
ghost use Rattle.hart_moves.specs.Choosing.{IsAble, IsComing};
ghost use Rattle.hart_states.specs.Opening.{opening_of};
ghost use Rattle.hart_states.specs.States.{listed, state_of};
ghost use Rattle.private_bytes.specs.Owners.{is_own};
ghost use Rattle.own_moves.specs.Moves.{AreMoves};
ghost use Rattle.own_moves.specs.Owned.{owns_of};
ghost use Rattle.own_moves.specs.Private.{DoesPrivately, HasPrivateFollower, is_plain};

use crate::keeping::keep;
use crate::owned::{OwnDoubleword, is_own};
use crate::recalling::recall;
use crate::straying::is_plain;
use all_endings::destinations_are_written;
use hart_moves::{
    Coming, Reached, add_successor, coming_of, hart_of, instruction_at, operation_moves,
    other_moves,
};
use hart_states::{ListedStore, OpeningMemory, RunState, Successor};
use pages::OutOfMemory;
use run_bounds::{Kind, Operation, operation_of};
use rv64_decode::Instr;
use std::alloc::Global;

/// Whether an operation is a plain load or store of the hart's own bytes.
fn is_private(owned: &[OwnDoubleword], hart: u8, operation: &Operation) -> bool
    ensures { result ≡ (is_plain operation.now.kind &&
        is_own (owns_of owned.now) hart operation.now.address) }
{
    is_plain(operation.kind) && is_own(owned, hart, operation.address)
}

/// Adds what a plain load or store of own bytes leaves, at its least time.
fn add_private(
    found: &mut Vec<Successor>,
    memory: &OpeningMemory<'_>,
    hart: u8,
    list: &[ListedStore],
    state: &RunState,
    coming: &Coming,
) -> Result<(), OutOfMemory>
    requires coming { IsComing (state_of state.now) coming.now }
    requires within { coming.now.operation.address + width_bytes coming.now.operation.width ≤
        length memory.now.pages.now.memory.bytes }
    ensures { OnOk result ((v : Move) → v.instruction ≡ coming.now.instruction →
        DoesPrivately (opening_of memory.now) (state_of state.now) coming.now.operation
        v → Stands (state_of state.now) v →
        HasPrivateFollower hart (listed list.now) (state_of state.now) v found.new.items) }
{
    let _pages = memory.pages.count();
    match coming.operation.kind {
        Kind::Load => {
            let choice = recall(list, memory, state, coming);
            add_successor(found, list, hart, state, Some(choice))?;
            Ok(())
        }
        Kind::Store => {
            let left = keep(list, hart, state, coming)?;
            found.push(left)?;
            Ok(())
        }
        _ => Ok(()),
    }
}

/// The states behind a plain load or store of own bytes: one, or none where memory doesn't let it be done.
fn private_moves(
    alloc: Global,
    memory: &OpeningMemory<'_>,
    hart: u8,
    list: &[ListedStore],
    state: &RunState,
    i: &Instr,
    operation: &Operation,
) -> Result<Vec<Successor>, OutOfMemory>
    ensures { IfOk result (λ found. (v : Move) → v.instruction ≡ i.now →
        IsAble memory.now.pages.now.memory (state_of state.now) i.now operation.now →
        DoesPrivately (opening_of memory.now) (state_of state.now) operation.now v →
        Stands (state_of state.now) v →
        HasPrivateFollower hart (listed list.now) (state_of state.now) v found.items) }
{
    let mut found = Vec::new(alloc);
    match coming_of(memory.pages, state, i, operation) {
        Some(coming) => {
            add_private(&mut found, memory, hart, list, state, &coming)?;
            Ok(found)
        }
        None => Ok(found),
    }
}

/// The states behind the next instruction of a run of a hart against a list of stores to nobody's own bytes: for each move one that is ahead. What touches
/// own bytes has one, at its least time, and no place in the list.
///
/// # Errors
///
/// `OutOfMemory` alone.
pub fn moves(
    alloc: Global,
    memory: &OpeningMemory<'_>,
    hart: u8,
    list: &[ListedStore],
    owned: &[OwnDoubleword],
    state: &RunState,
) -> Result<Reached, OutOfMemory>
    ensures { IfOk result (λ r. AreMoves (owns_of owned.now) memory.now.pages.now.memory hart
        (listed list.now) (opening_of memory.now) (state_of state.now) r) }
{
    let Some(i) = instruction_at(memory.pages, state.pc) else {
        return Ok(Reached::Whole(Vec::new(alloc)));
    };
    destinations_are_written();
    match operation_of(&hart_of(state), &i) {
        Some(operation) if is_private(owned, hart, &operation) => {
            let found = private_moves(alloc, memory, hart, list, state, &i, &operation)?;
            Ok(Reached::Whole(found))
        }
        Some(operation) => operation_moves(alloc, memory, hart, list, state, &i, &operation),
        None => other_moves(alloc, memory.pages, hart, list, state, &i),
    }
}
