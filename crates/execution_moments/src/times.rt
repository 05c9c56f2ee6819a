//! The time of each instruction.

ghost use Rattle.std.specs.Prelude.{◌≡◌, ℕ, ◌<◌, IfOk, MatchOption, OnOk, if◌then◌else◌, length, max, min, slice_index};
ghost use Rattle.memory_order.specs.Orders.{ListsOperations};
ghost use Rattle.round_schedule.specs.Positions.{event};
ghost use Rattle.execution_moments.specs.Times.{AreLatest, AreTimes, AreTimesBy, is_load_of, is_operation_of, later_of, sooner_of};

use memory_order::{Order, is_operation, positions};
use pages::OutOfMemory;
use round_schedule::Event;
use std::alloc::Global;

/// The time of each instruction, where the order lists each memory operation once and nothing else.
///
/// # Errors
///
/// `OutOfMemory` alone.
pub(crate) fn times_of(
    alloc: Global,
    events: &[Event],
    order: &Order,
) -> Result<Option<Vec<usize>>, OutOfMemory>
    ensures { IfOk result (λ o. MatchOption o (ListsOperations events.now order.now.0.items → ⊥)
        (λ v. AreTimes events.now order.now.0.items v.items)) }
{
    match positions(alloc, events, &order.0)? {
        Some(positions) => {
            let times = times_by(alloc, events, &positions, order.0.len())?;
            Ok(Some(times))
        }
        None => Ok(None),
    }
}

/// The same, where it is known where each event stands in the order.
fn times_by(
    alloc: Global,
    events: &[Event],
    positions: &[usize],
    end: usize,
) -> Result<Vec<usize>, OutOfMemory>
    requires { length positions.now ≡ length events.now }
    ensures { IfOk result (λ v.
        AreTimesBy events.now (λ i. slice_index positions.now i) end v.items) }
{
    let mut times = latest_loads(alloc, events, positions)?;
    delay(alloc, events, positions, end, &mut times)?;
    Ok(times)
}

/// For each instruction where the latest load of its hart stands, of those up to this instruction.
fn latest_loads(
    alloc: Global,
    events: &[Event],
    positions: &[usize],
) -> Result<Vec<usize>, OutOfMemory>
    requires { length positions.now ≡ length events.now }
    ensures { IfOk result (λ v. AreLatest events.now (λ i. slice_index positions.now i) v.items) }
{
    let mut latest = vec![in alloc; 0usize; 256]?;
    let mut found = Vec::new(alloc);
    for index in 0..events.len() {
        let event = event_of(events, index);
        let here = raise(&mut latest, &event, positions[index]);
        found.push(here)?;
    }
    Ok(found)
}

/// The event at an index.
fn event_of(events: &[Event], index: usize) -> Event
    requires { index < length events.now }
    ensures { result ≡ event events.now index }
{
    events[index]
}

/// Notes where an event stands, if it is a load. Answers where the latest load of its hart stands then.
fn raise(latest: &mut Vec<usize>, event: &Event, position: usize) -> usize
    requires { length latest.old.items ≡ 256 }
    ensures size { length latest.new.items ≡ 256 }
    ensures each { (h : ℕ) → h < 256 →
        slice_index latest.new.items h ≡ later_of h event.now (slice_index latest.old.items h)
        position }
    ensures here { result ≡ slice_index latest.new.items event.now.hart }
    ensures few { event.now.hart < 256 }
{
    let hart = usize::from(event.hart);
    if event.access.loads() {
        latest[hart] = latest[hart].max(position);
    }
    latest[hart]
}

/// Moves the time of each instruction on to where the soonest of its hart's operations from it on stands, if this is later.
fn delay(
    alloc: Global,
    events: &[Event],
    positions: &[usize],
    end: usize,
    times: &mut Vec<usize>,
) -> Result<(), OutOfMemory>
    requires positions { length positions.now ≡ length events.now }
    requires latest { AreLatest events.now (λ i. slice_index positions.now i) times.old.items }
    ensures { OnOk result (AreTimesBy events.now (λ i. slice_index positions.now i) end
        times.new.items) }
{
    let mut soonest = vec![in alloc; end; 256]?;
    let mut index = events.len();
    while index > 0 {
        index -= 1;
        let event = event_of(events, index);
        let here = lower(&mut soonest, &event, positions[index]);
        times[index] = times[index].max(here);
    }
    Ok(())
}

/// Notes where an event stands, if it is a memory operation. Answers where the soonest operation of its hart stands then.
fn lower(soonest: &mut Vec<usize>, event: &Event, position: usize) -> usize
    requires { length soonest.old.items ≡ 256 }
    ensures size { length soonest.new.items ≡ 256 }
    ensures each { (h : ℕ) → h < 256 →
        slice_index soonest.new.items h ≡ sooner_of h event.now (slice_index soonest.old.items h)
        position }
    ensures here { result ≡ slice_index soonest.new.items event.now.hart }
    ensures few { event.now.hart < 256 }
{
    let hart = usize::from(event.hart);
    if is_operation(event) {
        soonest[hart] = soonest[hart].min(position);
    }
    soonest[hart]
}
