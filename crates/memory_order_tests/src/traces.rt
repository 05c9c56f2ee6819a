//! Traces, and the orders of their memory operations.

ghost use Rattle.std.specs.Prelude.{◌≡◌, ◌<◌, ◌≤◌, [], All};
ghost use Rattle.round_schedule.specs.Accesses.{place_of};
ghost use Rattle.trace.specs.Traced.{HasForm};

use crate::made::Made::{Conditional, Fence, Load, Reserve, Store};
use crate::made::{BOTH, Row, trace_of};
use memory_order::{check_order, is_operation, memory_order};
use pages::Piece;
use pages::Width::W8;
use rv64_decode::FenceMode;
use std::alloc::Global;
use std::test::Fail;
use trace::Phase::{Parallel, Serial};
use trace::{Access, Event, Phase, Trace};

/// What a trace is of, its events, and the indexes of its memory order.
type Ordered = (&'static str, &'static [Row], &'static [usize]);

static ORDERED: [Ordered; 4] = [
    (
        "two harts store and load the other one's place",
        &[
            (1, 0, Parallel, Store(3, 0x100, 1)),
            (1, 0, Parallel, Load(4, 0x108, 0)),
            (1, 1, Parallel, Store(3, 0x108, 1)),
            (1, 1, Parallel, Load(4, 0x100, 0)),
        ],
        &[1, 3, 0, 2],
    ),
    (
        "two harts load what they stored",
        &[
            (1, 0, Parallel, Store(1, 0x100, 5)),
            (1, 0, Parallel, Load(2, 0x100, 5)),
            (1, 1, Parallel, Store(1, 0x100, 6)),
            (1, 1, Parallel, Load(2, 0x100, 6)),
        ],
        &[1, 3, 0, 2],
    ),
    (
        "an SC that failed is not in the order",
        &[
            (1, 0, Serial, Reserve(2, 0)),
            (2, 1, Parallel, Store(2, 0x100, 0x100)),
            (2, 0, Serial, Conditional(3, None)),
        ],
        &[0, 1],
    ),
    (
        "serial loads come after the stores of their round",
        &[
            (1, 0, Parallel, Store(3, 0x100, 1)),
            (1, 1, Parallel, Store(3, 0x108, 1)),
            (1, 0, Serial, Fence(4)),
            (1, 0, Serial, Load(5, 0x108, 1)),
            (1, 1, Serial, Fence(4)),
            (1, 1, Serial, Load(5, 0x100, 1)),
        ],
        &[0, 1, 3, 5],
    ),
];

/// Whether the memory order of a trace is of these indexes, and is met.
fn is_ordered(alloc: Global, trace: &Trace, indexes: &[usize]) -> bool {
    let Ok(order) = memory_order(alloc, trace) else {
        return false;
    };
    order.0.as_slice() == indexes && check_order(alloc, trace, &order) == Ok(true)
}

#[test]
fn memory_operations_are_ordered(rt: HostRuntime) -> Result<(), Fail> {
    for (name, rows, indexes) in &ORDERED {
        let trace = trace_of(rt.alloc(), rows).ok_or("a trace")?;
        let ordered = is_ordered(rt.alloc(), &trace, indexes);
        drop(trace);
        assert!(rt; ordered, "{name}");
    }
    Ok(())
}

const FIRST: Row = (1, 0, Parallel, Store(3, 0x100, 1));

const OTHER: Row = (1, 70, Parallel, Store(3, 0x100, 1));

const LATER: Row = (1, 0, Parallel, Load(4, 0x108, 0));

const ODD: Row = (1, 1, Parallel, Load(4, 0x104, 0));

const FAR: Row = (1, 1, Parallel, Load(4, 0x1_0000_0000, 0));

/// Events, and whether they make a trace.
static FORMED: [(&[Row], bool); 5] = [
    (&[FIRST, OTHER, LATER], true),
    (&[LATER, OTHER, FIRST], false),
    (&[OTHER, FIRST, OTHER], false),
    (&[FIRST, ODD], false),
    (&[FIRST, FAR], false),
];

#[test]
fn a_trace_takes_rising_places_and_right_forms(rt: HostRuntime) {
    for (number, (rows, formed)) in FORMED.iter().enumerate() {
        assert!(rt; trace_of(rt.alloc(), rows).is_some() == *formed, "{number}");
    }
}

pub(crate) fn event(round: u32, hart: u8, phase: Phase, access: Access) -> Event
    ensures { result.access ≡ access }
{
    Event {
        access,
        round,
        hart,
        phase,
    }
}

/// The pieces of memory that has 7 and 8 at 0x100.
fn two_bytes(alloc: Global) -> Option<Vec<Piece>> {
    let piece = Piece {
        start: 0x100,
        bytes: Vec::from_slice(alloc, &[7, 8]).ok()?,
    };
    let mut pieces = Vec::new(alloc);
    pieces.push(piece).ok()?;
    Some(pieces)
}

/// Whether a fence is no memory operation, and a copy of a trace has it that is put into the trace before, with the bytes beneath.
fn grows(alloc: Global, trace: &mut Trace) -> Option<bool>
    requires { trace.old.events ≡ [] }
{
    let fence = Event {
        access: Access::Fence {
            before: BOTH,
            after: BOTH,
            mode: FenceMode::Normal,
            place: 4,
        },
        round: 2,
        hart: 0,
        phase: Phase::Serial,
    };
    trace.reserve(1).ok()?;
    trace.push(fence);
    let copy = trace.copy(alloc).ok()?;
    let has_event = copy.len() == 1 && copy.event(0) == fence && !is_operation(&fence);
    Some(has_event && copy.opening_byte(0x101) == 8 && copy.opening_byte(0x102) == 0)
}

#[test]
fn a_trace_grows_and_is_copied(rt: HostRuntime) -> Result<(), Fail> {
    let mut trace = Trace::new(rt.alloc(), two_bytes(rt.alloc()).ok_or("memory")?);
    let grown = grows(rt.alloc(), &mut trace);
    drop(trace);
    assert!(rt; grown == Some(true));
    assert!(rt; is_operation(&load_at(3)));
    Ok(())
}

// A load of hart 0 at a place.
fn load_at(place: u64) -> Event
    ensures formed { HasForm result }
    ensures place { place_of result.access ≡ place }
{
    let access = Access::Load {
        width: W8,
        place,
        address: 0x100,
        read: 0,
    };
    event(1, 0, Phase::Parallel, access)
}

// Adds the loads at these places, after the reserve of room for them.
pub(crate) fn add_loads(trace: &mut Trace, from: u64, to: u64) -> bool
    requires rising { from ≤ to }
    requires below { All (λ e. place_of e.access < from) trace.old.events }
    ensures { All (λ e. place_of e.access < to) trace.new.events }
{
    if trace.reserve((to - from) as usize).is_err() {
        return false;
    }
    for place in from..to {
        trace.push(load_at(place));
    }
    true
}

// Whether a trace has the loads at the places below this one, in each of the ways to ask for its events.
fn has_loads(alloc: Global, trace: &Trace, end: usize) -> bool {
    let Ok(gathered) = trace.to_vec(alloc) else {
        return false;
    };
    if trace.len() != end || gathered.len() != end {
        return false;
    }
    let mut events = trace.events();
    for place in 0..end {
        let expected = load_at(place as u64);
        if trace.event(place) != expected || gathered[place] != expected {
            return false;
        }
        if events.next() != Some(expected) {
            return false;
        }
    }
    events.next().is_none()
}

// Adds loads from 18,001 on to a trace, and two to its copy of 8,000: neither that nor the one of 18,001 shows the other's.
fn grow_apart(alloc: Global, trace: &mut Trace, early: &mut Trace, late: &Trace) -> bool
    requires trace { All (λ e. place_of e.access < 18_001) trace.old.events }
    requires early { All (λ e. place_of e.access < 8_000) early.old.events }
{
    add_loads(trace, 18_001, 23_001)
        && add_loads(trace, 23_001, 25_001)
        && has_loads(alloc, early, 8_000)
        && has_loads(alloc, late, 18_001)
        && has_loads(alloc, trace, 25_001)
        && add_loads(early, 8_000, 8_002)
        && has_loads(alloc, early, 8_002)
        && has_loads(alloc, trace, 25_001)
}

// The same of a trace of 8,000 loads and its copy.
fn copied_late(alloc: Global, trace: &mut Trace, early: &mut Trace) -> Option<bool>
    requires trace { All (λ e. place_of e.access < 8_000) trace.old.events }
    requires early { All (λ e. place_of e.access < 8_000) early.old.events }
{
    if !add_loads(trace, 8_000, 18_000) || !add_loads(trace, 18_000, 18_001) {
        return Some(false);
    }
    let late = trace.copy(alloc).ok()?;
    Some(grow_apart(alloc, trace, early, &late))
}

// The same of a trace without events. The reserves finish parts that end at 5,000, 18,000 and 23,001.
fn copied_twice(alloc: Global, trace: &mut Trace) -> Option<bool>
    requires { trace.old.events ≡ [] }
{
    if !add_loads(trace, 0, 5_000) || !add_loads(trace, 5_000, 8_000) {
        return Some(false);
    }
    match trace.copy(alloc) {
        Ok(mut early) => copied_late(alloc, trace, &mut early),
        Err(_) => None,
    }
}

#[test]
fn copies_of_a_long_trace_have_its_events(rt: HostRuntime) {
    let mut trace = Trace::new(rt.alloc(), Vec::new(rt.alloc()));
    let copied = copied_twice(rt.alloc(), &mut trace);
    drop(trace);
    assert!(rt; copied == Some(true));
}
