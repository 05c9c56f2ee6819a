//! The moves of a memory operation, at the times at which it can stand.
ghost use Rattle.std.specs.Prelude.{◌≡◌, ◌+◌, ◌≤◌, ◌^◌, true, length, Contains, IfOk, IfSome, OnOk};
ghost use Rattle.pages.specs.Memory.{width_bytes};
ghost use Rattle.round_schedule.specs.Accesses.{address_of, bytes_of};
ghost use Rattle.round_schedule.specs.Accesses.{stores as writing};
ghost use Rattle.rule_checker.specs.CarriedBounds.{AreRegisters};
ghost use Rattle.all_endings.specs.HartRuns.{IsPlaced, Stands};
ghost use Rattle.all_endings.specs.RunStates.{Move};
ghost use Rattle.hart_states.specs.declared.following.Successor.{Successor as Left};
ghost use Rattle.hart_states.specs.Opening.{opening_of};
ghost use Rattle.hart_states.specs.States.{listed, state_of};
ghost use Rattle.hart_moves.specs.Choosing.{DoesSo, FailsSo, IsChoiceOf, IsComing, IsFound};
ghost use Rattle.hart_moves.specs.Moves.{HasFollower};

use crate::coming::Coming;
use crate::loading::load_at;
use crate::repeating::{is_again, reads_seen};
use crate::standing::may_stand;
use crate::storing::{failing, is_placed, storing_at};
use all_endings::earlier_moves_are_lower;
use hart_states::{Choice, ListedStore, OpeningMemory, RunState, Successor, follow, is_sized};
use memory_order::{Registers, used_registers};
use pages::OutOfMemory;
use private_bytes::{early_loads_are_ahead, lower_states_are_ahead};
use run_bounds::Kind;
use std::alloc::Global;

/// The registers of an instruction are registers.
pub fn are_registers(x: &Registers)
    ensures { AreRegisters x.now }
{
    let _address = x.address.index();
    let _value = x.value.index();
    let _first = x.first.index();
    let _second = x.second.index();
    let _destination = x.destination.index();
}

/// Adds what a choice leaves, where there is one.
///
/// # Errors
///
/// `OutOfMemory` alone.
pub fn add_successor(
    found: &mut Vec<Successor>,
    list: &[ListedStore],
    hart: u8,
    state: &RunState,
    choice: Option<Choice>,
) -> Result<(), OutOfMemory>
    requires fits { IfSome choice (λ c. address_of c.access + bytes_of c.access ≤ 2 ^ 64) }
    ensures keeps { OnOk result ((s : Left) → Contains found.old.items s →
        Contains found.new.items s) }
    ensures adds { OnOk result ((v : Move) →
        IsFound (listed list.now) (state_of state.now) choice v →
        HasFollower hart (listed list.now) (state_of state.now) v found.new.items) }
{
    match choice {
        Some(choice) => {
            earlier_moves_are_lower();
            lower_states_are_ahead();
            are_registers(&used_registers(&choice.instruction));
            is_sized(state);
            let left = follow(list, hart, state, &choice)?;
            found.push(left)?;
            Ok(())
        }
        None => Ok(()),
    }
}

/// An operation at a time, wherever the list has it.
pub(crate) fn operation_at(
    list: &[ListedStore],
    memory: &OpeningMemory<'_>,
    hart: u8,
    state: &RunState,
    coming: &Coming,
    time: usize,
) -> Option<Choice>
    requires coming { IsComing (state_of state.now) coming.now }
    requires within { coming.now.operation.address + width_bytes coming.now.operation.width ≤
        length memory.now.pages.now.memory.bytes }
    ensures found { (v : Move) → v.instruction ≡ coming.now.instruction → v.time ≡ time →
        Stands (state_of state.now) v →
        DoesSo hart (listed list.now) (opening_of memory.now) (state_of state.now)
        coming.now.operation v →
        IsFound (listed list.now) (state_of state.now) result v }
    ensures is { IfSome result (λ d. IsChoiceOf (state_of state.now) coming.now d) }
{
    let _pages = memory.pages.count();
    let access = coming.operation.access();
    if !may_stand(state, coming, &access, time) {
        return None;
    }
    match coming.operation.kind {
        Kind::Load | Kind::LoadReserved | Kind::Atomic => {
            load_at(list, memory, state, coming, time)
        }
        Kind::Store | Kind::StoreConditional => storing_at(list, hart, state, coming, time),
    }
}

/// An operation at a time, where the list has it there if it stores, or it is later.
fn placed_at(
    list: &[ListedStore],
    memory: &OpeningMemory<'_>,
    hart: u8,
    state: &RunState,
    coming: &Coming,
    time: usize,
) -> Option<Choice>
    requires coming { IsComing (state_of state.now) coming.now }
    requires within { coming.now.operation.address + width_bytes coming.now.operation.width ≤
        length memory.now.pages.now.memory.bytes }
    ensures found { (v : Move) → v.instruction ≡ coming.now.instruction → v.time ≡ time →
        Stands (state_of state.now) v →
        DoesSo hart (listed list.now) (opening_of memory.now) (state_of state.now)
        coming.now.operation v →
        (writing v.access ≡ true → IsPlaced hart (listed list.now) v) →
        IsFound (listed list.now) (state_of state.now) result v }
    ensures is { IfSome result (λ d. IsChoiceOf (state_of state.now) coming.now d) }
{
    match operation_at(list, memory, hart, state, coming, time) {
        Some(choice)
            if choice.access.stores()
                && !is_placed(list, hart, &coming.operation, choice.written, time) => { None }
        found => found,
    }
}

/// What the moves of a memory operation leave.
pub(crate) fn operate(
    alloc: Global,
    memory: &OpeningMemory<'_>,
    hart: u8,
    list: &[ListedStore],
    state: &RunState,
    coming: &Coming,
) -> Result<Vec<Successor>, OutOfMemory>
    requires coming { IsComing (state_of state.now) coming.now }
    requires within { coming.now.operation.address + width_bytes coming.now.operation.width ≤
        length memory.now.pages.now.memory.bytes }
    ensures does { IfOk result (λ found. (v : Move) → v.instruction ≡ coming.now.instruction →
        Stands (state_of state.now) v →
        DoesSo hart (listed list.now) (opening_of memory.now) (state_of state.now)
        coming.now.operation v →
        (writing v.access ≡ true → IsPlaced hart (listed list.now) v) →
        HasFollower hart (listed list.now) (state_of state.now) v found.items) }
    ensures fails { IfOk result (λ found. (v : Move) → v.instruction ≡ coming.now.instruction →
        FailsSo (state_of state.now) coming.now.operation v →
        HasFollower hart (listed list.now) (state_of state.now) v found.items) }
{
    let _pages = memory.pages.count();
    let mut found = Vec::new(alloc);
    add_successor(&mut found, list, hart, state, failing(state, coming))?;
    early_loads_are_ahead();
    is_sized(state);
    are_registers(&used_registers(&coming.instruction));
    let mut latest: Option<Choice> = None;
    let mut is_enough = false;
    for time in 0..list.len() + 1 {
        let choice = placed_at(list, memory, hart, state, coming, time);
        if is_again(&latest, &choice) {
            continue;
        }
        add_successor(&mut found, list, hart, state, choice)?;
        is_enough = is_enough || reads_seen(coming, &choice);
        latest = choice;
    }
    if is_enough {
        return Ok(found);
    }
    let later = placed_at(list, memory, hart, state, coming, list.len() + 1);
    add_successor(&mut found, list, hart, state, later)?;
    Ok(found)
}
