//! Logs, and traces that take them over.

ghost use Rattle.std.specs.Prelude.{◌≡◌, ◌+◌, ◌^◌, ◌<◌, ◌≤◌, ◌++◌, IfSome, length, true};
ghost use Rattle.round_schedule.specs.Events.{events_of};
ghost use Rattle.trace.specs.Traced.{IsTrace};

use crate::made::{conditional, full_fence, load, store};
use crate::traces::add_loads;
use std::alloc::Global;
use trace::{Access, Event, Log, Phase, Trace};

fn load_of(place: u64) -> Access {
    load(place, 0x100, 0)
}

// The loads at these places.
fn log_of(alloc: Global, from: u64, to: u64) -> Option<Log>
    requires { from ≤ to }
    ensures { IfSome result (λ l. from + length l ≡ to) }
{
    let mut accesses = Vec::new(alloc);
    for place in from..to {
        accesses.push(load_of(place)).ok()?;
    }
    let mut log = Log::of(accesses);
    log.share().ok()?;
    Some(log)
}

// The accesses of a log.
fn accesses_of(alloc: Global, log: &Log) -> Option<Vec<Access>>
    ensures { IfSome result (λ v. v.items ≡ log.now) }
{
    let mut accesses = Vec::new(alloc);
    for index in 0..log.len() {
        accesses.push(log.get(index)).ok()?;
    }
    Some(accesses)
}

/// Accesses of logs that are kept in different ways.
#[derive(Clone, Copy, Debug)]
enum Kind {
    /// Loads and stores in turn, at places far from 0 and addresses up to the last of 32 bits.
    Plain,
    /// The same, but one is a fence.
    Fenced,
    /// The same, but one at an address past 32 bits.
    Far,
    /// The same, but one is an SC that failed.
    Conditional,
    /// The same, but one whose place is before the first one's.
    Early,
    /// Two in each 2^16 places: at the first and at the last.
    Wide,
}

fn plain(number: u64) -> Access {
    let place = 0x1_0000_0000 + 3 * (number & 0xffff);
    if number & 1 == 0 {
        load(place, 0xffff_fff8, number)
    } else {
        store(place, number & 0xffff, 0xffff_ffff_ffff_fff0)
    }
}

fn wide(number: u64) -> Access {
    let pair = (number & 0xffff) / 2;
    let place = 0x1_0000_0000 + pair * 0x1_0000 + (number & 1) * 0xffff;
    load(place, 0x100, number)
}

// But in the wide kind, access 200 is the other one.
fn access_of(kind: Kind, number: u64) -> Access {
    match kind {
        Kind::Wide => wide(number),
        _ if number != 200 => plain(number),
        Kind::Plain => plain(number),
        Kind::Fenced => full_fence(0x1_0000_0258),
        Kind::Far => load(0x1_0000_0258, 0x1_0000_0008, 7),
        Kind::Conditional => conditional(0x1_0000_0258, None),
        Kind::Early => store(5, 0x100, 1),
    }
}

fn has(log: &Log, end: usize, kind: Kind) -> bool {
    if log.len() != end {
        return false;
    }
    for index in 0..end {
        if log.get(index) != access_of(kind, index as u64) {
            return false;
        }
    }
    true
}

// Whether a log of so many accesses shows them before and after it is shared, and hands them over.
fn is_handed_over(alloc: Global, end: usize, kind: Kind) -> Option<bool> {
    let mut accesses = Vec::new(alloc);
    for index in 0..end {
        accesses.push(access_of(kind, index as u64)).ok()?;
    }
    let mut log = Log::of(accesses);
    if !has(&log, end, kind) {
        return Some(false);
    }
    log.share().ok()?;
    if !has(&log, end, kind) {
        return Some(false);
    }
    let taken = log.take();
    Some(has(&taken, end, kind) && log.len() == 0)
}

/// How many accesses a log has, and of which kind.
static LOGS: [(usize, Kind); 9] = [
    (0, Kind::Plain),
    (300, Kind::Plain),
    (300, Kind::Fenced),
    (2, Kind::Wide),
    (3, Kind::Wide),
    (300, Kind::Wide),
    // these have no brief form
    (300, Kind::Far),
    (300, Kind::Conditional),
    (300, Kind::Early),
];

#[test]
fn a_log_shows_its_accesses_and_hands_them_over(rt: HostRuntime) {
    for (end, kind) in &LOGS {
        assert!(rt;
            is_handed_over(rt.alloc(), *end, *kind) == Some(true),
            "{end} {kind:?}"
        );
    }
}

// Whether a trace with these accesses of a hart at its end is still one.
fn may_take(
    alloc: Global,
    trace: &Trace,
    round: u32,
    hart: u8,
    phase: Phase,
    accesses: &[Access],
) -> bool
    ensures { result ≡ true →
        IsTrace (trace.now.events ++ events_of round hart phase accesses.now) }
{
    let Ok(mut events) = trace.to_vec(alloc) else {
        return false;
    };
    for access in accesses {
        let event = Event {
            access: *access,
            round,
            hart,
            phase,
        };
        if events.push(event).is_err() {
            return false;
        }
    }
    Trace::of(Vec::new(alloc), events).is_some()
}

// Adopts a log of a hart's loads at these places.
fn adopt_loads(alloc: Global, trace: &mut Trace, round: u32, hart: u8, from: u64, to: u64) -> bool
    requires rising { from ≤ to }
    requires logs { 0 < trace.old.logs }
    requires few { length trace.old.events + to ≤ 2 ^ 62 + from }
    ensures logs { trace.old.logs ≤ trace.new.logs + 1 }
    ensures few { length trace.new.events + from ≤ length trace.old.events + to }
{
    let Some(log) = log_of(alloc, from, to) else {
        return false;
    };
    let Some(accesses) = accesses_of(alloc, &log) else {
        return false;
    };
    if !may_take(alloc, trace, round, hart, Phase::Parallel, &accesses) {
        return false;
    }
    trace.adopt(round, hart, Phase::Parallel, log);
    true
}

// Pushes a serial load of a hart in round 2.
fn push_load(alloc: Global, trace: &mut Trace, hart: u8, place: u64) -> bool
    requires { 0 < trace.old.room }
    ensures { trace.old.room ≤ trace.new.room + 1 }
{
    let access = load_of(place);
    if !may_take(alloc, trace, 2, hart, Phase::Serial, &[access]) {
        return false;
    }
    trace.push(Event {
        access,
        round: 2,
        hart,
        phase: Phase::Serial,
    });
    true
}

// The event at an index of the trace that the test below builds.
fn expected(index: usize) -> Event {
    let (round, hart, phase, at) = match index {
        0..5 => (1, 0, Phase::Parallel, index),
        5..305 => (2, 0, Phase::Parallel, index),
        305..705 => (2, 2, Phase::Parallel, index - 305),
        705 => (2, 0, Phase::Serial, 305),
        706 => (2, 2, Phase::Serial, 400),
        _ => (3, 1, Phase::Parallel, index.saturating_sub(707)),
    };
    Event {
        access: load_of(at as u64),
        round,
        hart,
        phase,
    }
}

// Whether a trace has so many of those events, in each of the ways to ask for them.
fn has_expected(alloc: Global, trace: &Trace, end: usize) -> bool {
    let Ok(gathered) = trace.to_vec(alloc) else {
        return false;
    };
    if trace.len() != end || gathered.len() != end {
        return false;
    }
    let mut events = trace.events();
    for index in 0..end {
        let event = expected(index);
        if trace.event(index) != event || gathered[index] != event {
            return false;
        }
        if events.next() != Some(event) {
            return false;
        }
    }
    events.next().is_none()
}

// Whether a trace of so many of those events gives those from each index on, also from indexes past its end.
fn has_expected_from_each_index(trace: &Trace, end: usize) -> bool {
    for start in 0..end.saturating_add(3) {
        let mut events = trace.events_from(start);
        for index in start..end {
            if events.next() != Some(expected(index)) {
                return false;
            }
        }
        if events.next().is_some() {
            return false;
        }
    }
    true
}

#[test]
fn adopted_logs_stand_among_pushed_events(rt: HostRuntime) {
    let alloc = rt.alloc();
    let mut trace = Trace::new(alloc, Vec::new(alloc));
    assert!(rt; add_loads(&mut trace, 0, 5));
    trace.reserve_logs(3, 700).expect(&rt, "memory");
    assert!(rt; adopt_loads(alloc, &mut trace, 2, 0, 5, 305));
    assert!(rt; adopt_loads(alloc, &mut trace, 2, 1, 0, 0));
    assert!(rt; adopt_loads(alloc, &mut trace, 2, 2, 0, 400));
    trace.reserve(2).expect(&rt, "memory");
    assert!(rt; push_load(alloc, &mut trace, 0, 305));
    assert!(rt; push_load(alloc, &mut trace, 2, 400));
    assert!(rt; has_expected(alloc, &trace, 707));
    assert!(rt; has_expected_from_each_index(&trace, 707));
    let copy = trace.copy(alloc).expect(&rt, "memory");
    assert!(rt; has_expected(alloc, &copy, 707));
    trace.reserve_logs(1, 300).expect(&rt, "memory");
    assert!(rt; adopt_loads(alloc, &mut trace, 3, 1, 0, 300));
    assert!(rt; has_expected(alloc, &trace, 1_007));
    assert!(rt; has_expected_from_each_index(&trace, 1_007));
    assert!(rt; has_expected(alloc, &copy, 707));
}

// Copies the accesses of a log of a hart's loads at these places into a trace.
fn copy_loads(alloc: Global, trace: &mut Trace, round: u32, hart: u8, from: u64, to: u64) -> bool
    requires rising { from ≤ to }
    requires room { to ≤ trace.old.room + from }
    ensures room { trace.old.room + from ≤ trace.new.room + to }
{
    let Some(log) = log_of(alloc, from, to) else {
        return false;
    };
    let Some(accesses) = accesses_of(alloc, &log) else {
        return false;
    };
    if !may_take(alloc, trace, round, hart, Phase::Parallel, &accesses) {
        return false;
    }
    trace.copy_log(round, hart, Phase::Parallel, &log);
    true
}

#[test]
fn copied_logs_stand_one_after_another(rt: HostRuntime) {
    let alloc = rt.alloc();
    let mut trace = Trace::new(alloc, Vec::new(alloc));
    assert!(rt; add_loads(&mut trace, 0, 5));
    trace.reserve(700).expect(&rt, "memory");
    assert!(rt; copy_loads(alloc, &mut trace, 2, 0, 5, 305));
    assert!(rt; copy_loads(alloc, &mut trace, 2, 1, 0, 0));
    assert!(rt; copy_loads(alloc, &mut trace, 2, 2, 0, 400));
    assert!(rt; has_expected(alloc, &trace, 705));
}
