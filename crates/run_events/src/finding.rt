ghost use Rattle.std.specs.Prelude.{◌≡◌, ◌≤◌, ◌+◌, ◌++◌, ◌∷◌, ◌<◌, ◌^◌, [], IfOk, OnOk};
ghost use Rattle.std.specs.List.{list_any};
ghost use Rattle.pages.specs.Memory.{in_range};
ghost use Rattle.round_schedule.specs.Held.{any_byte};
ghost use Rattle.run_events.specs.Hits.{hits, is_hit, of_rounds, sought_in};

use crate::rounds::Rounds;
use crate::sought::Sought;
use pages::{OutOfMemory, Range};
use round_schedule::Event;
use std::alloc::Global;
use trace::Trace;

/// The events of a trace that are sought, in the order of the trace.
pub(crate) fn sought_in(
    alloc: Global,
    trace: &Trace,
    sought: Sought<'_>,
) -> Result<Vec<Event>, OutOfMemory>
    ensures { IfOk result (λ v. v.items ≡
        sought_in sought.entry.within sought.entry.ranges.now trace.now.events) }
{
    let mut found = Vec::new(alloc);
    match sought.within {
        None => add_hits(&mut found, trace, sought.ranges)?,
        Some(rounds) => add_hits_within(&mut found, trace, sought.ranges, rounds)?,
    }
    Ok(found)
}

fn add_hits_within(
    found: &mut Vec<Event>,
    trace: &Trace,
    ranges: &[Range],
    rounds: Rounds,
) -> Result<(), OutOfMemory>
    ensures { OnOk result (found.new.items ≡
        found.old.items ++ of_rounds rounds.first rounds.last (hits ranges.now trace.now.events)) }
{
    for event in trace.events() {
        if is_hit(&event, ranges) && rounds.first <= event.round && event.round <= rounds.last {
            add(found, event)?;
        }
    }
    Ok(())
}

fn add_hits(found: &mut Vec<Event>, trace: &Trace, ranges: &[Range]) -> Result<(), OutOfMemory>
    ensures { OnOk result (found.new.items ≡ found.old.items ++ hits ranges.now trace.now.events) }
{
    for event in trace.events() {
        if is_hit(&event, ranges) {
            add(found, event)?;
        }
    }
    Ok(())
}

fn add(events: &mut Vec<Event>, event: Event) -> Result<(), OutOfMemory>
    ensures { OnOk result (events.new.items ≡ events.old.items ++ event ∷ []) }
{
    match events.push(event) {
        Ok(()) => Ok(()),
        Err(_) => Err(OutOfMemory),
    }
}

/// Whether a byte of the event lies in one of the ranges.
fn is_hit(event: &Event, ranges: &[Range]) -> bool
    ensures { result ≡ is_hit ranges.now event.now }
{
    some_has_byte(ranges, event.access.address(), event.access.byte_count())
}

/// Whether one of so many bytes from an address on lies in one of the ranges.
fn some_has_byte(ranges: &[Range], address: u64, bytes: u64) -> bool
    ensures { result ≡
        list_any (λ r. any_byte (in_range r.start r.len) address bytes) ranges.now }
{
    ranges.iter().any(|range| has_byte(range, address, bytes))
}

/// Whether one of them lies in a range.
fn has_byte(range: &Range, address: u64, bytes: u64) -> bool
    ensures { result ≡ any_byte (in_range range.now.start range.now.len) address bytes }
{
    if bytes == 0 || range.len == 0 {
        return false;
    }
    let first = u128::from(address);
    let start = u128::from(range.start);
    first < start + u128::from(range.len) && start < first + u128::from(bytes)
}
