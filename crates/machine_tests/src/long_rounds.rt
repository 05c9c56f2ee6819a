//! Rounds with so many accesses that the trace takes the harts' logs over, and rounds with so few that it copies them.

ghost use Rattle.std.specs.Prelude.{◌<◌};

use crate::harness::{ASKED, on_machine};
use crate::images::TURNS;
use host_io::RunError;
use machine::{Machine, Open, Settings};
use pages::Width;
use round_schedule::{Access, Event, Phase};
use std::alloc::Global;
use std::sync::Wait;
use std::test::Fail;
use std::thread::Threads;
use trace::Trace;

/// Does so many rounds, each on so many workers.
fn does_rounds<R: Threads + Wait + Sync>(
    rt: &R,
    machine: &mut Machine,
    rounds: u32,
    workers: u32,
) -> Result<(), RunError> {
    for _ in 0..rounds {
        machine.round(rt, workers, &Open)?;
    }
    Ok(())
}

/// What the load of a turn reads in rounds of 600 turns: what the hart stored in the turn before; in the first of all, 0;
/// and in the first of round 2, what hart 1 stored last in round 1.
fn read_in(turn: u64, hart: u64) -> u64
    requires turn { turn < 1200 }
    requires hart { hart < 2 }
{
    match turn {
        0 => 0,
        600 => 1201,
        _ => 2 * turn + hart,
    }
}

/// The access in a turn: first the load, then the store. One instruction comes before the turns, and a turn has four.
fn access_in(turn: u64, hart: u64, loads: bool) -> Access
    requires turn { turn < 1200 }
    requires hart { hart < 2 }
{
    if loads {
        Access::Load {
            width: Width::W8,
            place: 4 * turn + 2,
            address: 0x400,
            read: read_in(turn, hart),
        }
    } else {
        Access::Store {
            width: Width::W8,
            place: 4 * turn + 3,
            address: 0x400,
            written: 2 * turn + 2 + hart,
        }
    }
}

/// The event at an index of the trace of two rounds: in each, 1,200 of hart 0 and then as many of hart 1.
fn wanted(index: u64) -> Event
    requires { index < 4800 }
{
    let round = index / 2400;
    let hart = index / 1200 % 2;
    let turn = 600 * round + index % 1200 / 2;
    Event {
        access: access_in(turn, hart, index % 2 == 0),
        round: round as u32 + 1,
        hart: hart as u8,
        phase: Phase::Parallel,
    }
}

/// Whether the trace has the events of two rounds of 600 turns, and no others.
fn is_wanted(trace: &Trace) -> bool {
    if trace.len() != 4800 {
        return false;
    }
    for index in 0..4800 {
        if trace.event(index) != wanted(index as u64) {
            return false;
        }
    }
    true
}

/// Whether two rounds on so many workers leave the events of 600 turns each.
fn leaves_each_event<R: Threads + Wait + Sync>(
    rt: &R,
    machine: &mut Machine,
    workers: u32,
) -> Result<bool, RunError> {
    does_rounds(rt, machine, 2, workers)?;
    Ok(is_wanted(machine.trace()))
}

/// How many events a trace has, and how many of them are those of hart 0.
fn counts(trace: &Trace) -> (usize, usize) {
    let all = trace.len();
    (all, trace.events().filter(|event| event.hart == 0).count())
}

/// What 60 rounds on so many workers leave of them.
fn event_counts<R: Threads + Wait + Sync>(
    rt: &R,
    machine: &mut Machine,
    workers: u32,
) -> Result<(usize, usize), RunError> {
    does_rounds(rt, machine, 60, workers)?;
    Ok(counts(machine.trace()))
}

#[test]
fn long_rounds_leave_each_event(rt: HostRuntime) -> Result<(), Fail> {
    let asked = Settings {
        plan: b"2401\n",
        ..ASKED
    };
    for workers in [1, 4] {
        let trial = |machine: &mut Machine| leaves_each_event(&rt, machine, workers);
        assert!(rt; on_machine(rt.alloc(), TURNS, &asked, trial)?, "{workers}");
    }
    Ok(())
}

#[test]
fn short_rounds_leave_as_many_events(rt: HostRuntime) -> Result<(), Fail> {
    let asked = Settings {
        plan: b"40\n",
        ..ASKED
    };
    // 2,400 instructions a hart end after the store of turn 600: as many accesses as in one long round.
    for workers in [1, 4] {
        let trial = |machine: &mut Machine| event_counts(&rt, machine, workers);
        assert_eq!(rt; on_machine(rt.alloc(), TURNS, &asked, trial)?, (2400, 1200));
    }
    Ok(())
}
