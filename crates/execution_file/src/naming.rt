//! Orders of memory operations as turns, and as indexes in the list of events.

ghost use Rattle.std.specs.Prelude.{◌≡◌, ◌<◌, ℕ, List, [], ◌∷◌, ◌++◌, length, map, slice_index_or, slice_set, IfOk, MatchOption, OnOk};
ghost use Rattle.round_schedule.specs.declared.event.Event.{Event as EventSeen};
ghost use Rattle.round_schedule.specs.Positions.{event};
ghost use Rattle.execution_file.specs.Views.{turn_view};
ghost use Rattle.execution_file.specs.Turns.{IsNamed, Names};
ghost use Rattle.execution_file.specs.Sorting.{AreSorted, IsAdded, IsEmpty};

use crate::file::Turn;
use crate::operations::Operations;
use memory_order::{is_operation, is_operation_at};
use pages::OutOfMemory;
use round_schedule::Event;
use std::alloc::Global;

/// What turns name.
#[derive(Drop)]
pub enum Named {
    /// The memory operations of an order, by their indexes in the list of events.
    Order(Vec<usize>),
    /// The turn at this index is the first that names none.
    NoOperation(usize),
}

/// The order of memory operations that turns name, one after another: each the operation of its number of its hart, and without one
/// the hart's first that isn't named yet. An operation may be named twice, or never.
///
/// # Errors
///
/// `OutOfMemory` alone.
pub fn order_named(alloc: Global, events: &[Event], turns: &[Turn]) -> Result<Named, OutOfMemory>
    ensures { IfOk result (IsNamed (map turn_view turns.now) events.now) }
{
    let mut all = operations_of(alloc, events)?;
    let mut order = Vec::new(alloc);
    for number in 0..turns.len() {
        match take(&mut all, &turns[number]) {
            Some(index) => order.push(index)?,
            None => return Ok(Named::NoOperation(number)),
        }
    }
    Ok(Named::Order(order))
}

/// Names the operation that a turn names.
fn take(all: &mut Vec<Operations>, turn: &Turn) -> Option<usize>
    requires { length all.old.items ≡ 256 }
    ensures names { (t : List EventSeen) (g : List ℕ) → AreSorted t g all.old.items →
        MatchOption result ((a : ℕ) → Names (turn_view turn.now) t g a → ⊥)
        (λ a. Names (turn_view turn.now) t g a × AreSorted t (g ++ a ∷ []) all.new.items) }
    ensures harts { length all.new.items ≡ 256 }
{
    all[usize::from(turn.hart)].take(turn)
}

/// The memory operations of each hart.
fn operations_of(alloc: Global, events: &[Event]) -> Result<Vec<Operations>, OutOfMemory>
    ensures { IfOk result (λ all. AreSorted events.now [] all.items) }
{
    let mut all = lists_of(alloc)?;
    for index in 0..events.len() {
        if is_operation_at(events, index) {
            add_operation(&mut all, hart_at(events, index), index)?;
        }
    }
    Ok(all)
}

/// The hart of an event.
fn hart_at(events: &[Event], i: usize) -> u8
    requires { i < length events.now }
    ensures { result ≡ (event events.now i).hart }
{
    events[i].hart
}

/// An empty list for each hart.
fn lists_of(alloc: Global) -> Result<Vec<Operations>, OutOfMemory>
    ensures harts { IfOk result (λ all. length all.items ≡ 256) }
    ensures empty { IfOk result (λ all. (h : ℕ) (d : Operations) → h < 256 →
        IsEmpty (slice_index_or all.items h d)) }
{
    let mut all = Vec::new(alloc);
    for _hart in 0..256usize {
        all.push(Operations::new(alloc))?;
    }
    Ok(all)
}

/// Adds a hart's memory operation, by its index.
fn add_operation(all: &mut Vec<Operations>, hart: u8, index: usize) -> Result<(), OutOfMemory>
    requires { length all.old.items ≡ 256 }
    ensures { OnOk result ((new : Operations) × (all.new.items ≡ slice_set all.old.items hart new) ×
        IsAdded index (slice_index_or all.old.items hart new) new) }
{
    all[usize::from(hart)].add(index)
}

/// The turns of an order: its harts, and for an operation that isn't the first one left of its hart its number.
///
/// # Errors
///
/// `OutOfMemory` alone.
pub fn turns_of(
    alloc: Global,
    events: &[Event],
    order: &[usize],
) -> Result<Vec<Turn>, OutOfMemory> {
    let mut all = operations_of(alloc, events)?;
    let numbers = numbers_of(alloc, events)?;
    let mut turns = Vec::with_capacity(alloc, order.len())?;
    for index in order {
        if let Some(turn) = turn_of(events, &numbers, &mut all, *index) {
            turns.push(turn)?;
        }
    }
    Ok(turns)
}

/// The turn of the operation at an index, which has this number among those of its hart; it is named.
fn turn_of(
    events: &[Event],
    numbers: &[u64],
    all: &mut Vec<Operations>,
    index: usize,
) -> Option<Turn> {
    let hart = events.get(index)?.hart;
    let number = *numbers.get(index)?;
    let operations = all.get_mut(usize::from(hart))?;
    let is_first = operations.first_left() as u64 == number;
    let _index = operations.name(number);
    Some(Turn {
        hart,
        number: if is_first { None } else { Some(number) },
    })
}

/// For each event how many memory operations its hart had done before.
fn numbers_of(alloc: Global, events: &[Event]) -> Result<Vec<u64>, OutOfMemory> {
    let mut counts = vec![in alloc; 0u64; 256]?;
    let mut numbers = Vec::with_capacity(alloc, events.len())?;
    for event in events {
        numbers.push(number_of(&mut counts, event))?;
    }
    Ok(numbers)
}

/// How many memory operations the hart of an event had done before, which is counted with them.
fn number_of(counts: &mut [u64], event: &Event) -> u64 {
    let Some(count) = counts.get_mut(usize::from(event.hart)) else {
        return 0;
    };
    let number = *count;
    if is_operation(event) {
        *count = number.wrapping_add(1);
    }
    number
}
