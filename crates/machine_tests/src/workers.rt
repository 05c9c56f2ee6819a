//! Rounds on 1 to 16 workers: the report doesn't show how many there were, and several really work at once.

use crate::gates::{Behind, Meeting};
use crate::harness::{ASKED, on_machine, text_of};
use crate::images::{EXIT, MANY_LINES, OWN_STORE, SHARED_COUNTERS, STORE_THEN_LOAD};
use host_io::RunError;
use machine::{Gate, Machine, Open, Settings};
use std::alloc::Global;
use std::sync::Wait;
use std::test::Fail;
use std::thread::Threads;

/// What a guest is for, the guest, and how it is run.
type Guest = (&'static str, &'static [u32], Settings<'static>);

const STORES: Settings<'static> = Settings {
    plan: b"50\n",
    ..ASKED
};

const COUNTERS: Settings<'static> = Settings {
    harts: 8,
    rounds: 50,
    ..STORES
};

const LINES: Settings<'static> = Settings {
    harts: 64,
    pages: 7,
    ..ASKED
};

/// The numbers of workers that a short run is tried on.
static ANY: [u32; 15] = [2, 3, 4, 5, 6, 7, 8, 9, 10, 11, 12, 13, 14, 15, 16];

/// Those of a long one.
static SOME: [u32; 3] = [2, 4, 16];

static GUESTS: [Guest; 7] = [
    ("calls of 3 harts", EXIT, Settings { harts: 3, ..ASKED }),
    ("calls of 64 harts", EXIT, Settings { harts: 64, ..ASKED }),
    (
        "stores of 3 harts",
        STORE_THEN_LOAD,
        Settings { harts: 3, ..STORES },
    ),
    (
        "stores of 64 harts",
        STORE_THEN_LOAD,
        Settings {
            harts: 64,
            ..STORES
        },
    ),
    (
        "own stores",
        OWN_STORE,
        Settings {
            plan: b"3\n",
            ..ASKED
        },
    ),
    // 129 and 257 lines a hart: together fewer than `run` shares the commit of, and more.
    (
        "a commit of few lines",
        MANY_LINES,
        Settings {
            plan: b"390\n",
            ..LINES
        },
    ),
    (
        "a commit of many lines",
        MANY_LINES,
        Settings {
            plan: b"774\n",
            ..LINES
        },
    ),
];

static LONG_RUNS: [Guest; 4] = [
    (
        "rounds",
        SHARED_COUNTERS,
        Settings {
            rounds: 200,
            ..COUNTERS
        },
    ),
    (
        "turns of 2 instructions",
        SHARED_COUNTERS,
        Settings {
            budget: 2,
            ..COUNTERS
        },
    ),
    (
        "turns of 3 instructions",
        SHARED_COUNTERS,
        Settings {
            budget: 3,
            ..COUNTERS
        },
    ),
    (
        "turns of 1000 instructions",
        SHARED_COUNTERS,
        Settings {
            budget: 1000,
            ..COUNTERS
        },
    ),
];

/// The report after so many more rounds, each on so many workers.
fn report_after<R: Threads + Wait + Sync>(
    rt: &R,
    alloc: Global,
    machine: &mut Machine,
    rounds: u32,
    workers: u32,
) -> Result<Vec<u8>, RunError> {
    for _ in 0..rounds {
        machine.round(rt, workers, &Open)?;
    }
    text_of(alloc, machine)
}

/// The report of a guest's run, each round on so many workers.
fn report_on<R: Threads + Wait + Sync>(
    rt: &R,
    alloc: Global,
    guest: &Guest,
    workers: u32,
) -> Result<Vec<u8>, RunError> {
    let (_, words, asked) = guest;
    on_machine(
        alloc,
        words,
        asked,
        |machine| report_after(rt, alloc, machine, asked.rounds, workers),
    )
}

/// The first of these numbers of workers on which the report of a guest's run isn't that on one worker, if there is any.
fn first_unlike<R: Threads + Wait + Sync>(
    rt: &R,
    alloc: Global,
    guest: &Guest,
    tried: &[u32],
) -> Result<Option<u32>, RunError> {
    let alone = report_on(rt, alloc, guest, 1)?;
    for workers in tried {
        if report_on(rt, alloc, guest, *workers)? != alone {
            return Ok(Some(*workers));
        }
    }
    Ok(None)
}

#[test]
fn no_number_of_workers_is_shown(rt: HostRuntime) {
    for guest in &GUESTS {
        assert!(rt;
            first_unlike(&rt, rt.alloc(), guest, &ANY) == Ok(None),
            "{}",
            guest.0
        );
    }
}

#[test]
fn long_runs_are_the_same_on_any_workers(rt: HostRuntime) {
    for guest in &LONG_RUNS {
        assert!(rt;
            first_unlike(&rt, rt.alloc(), guest, &SOME) == Ok(None),
            "{}",
            guest.0
        );
    }
}

/// Whether two harts meet in a round by two workers: hart 0 sees hart 1 come, and hart 1 sees hart 0. Where one thread does both,
/// only hart 1 does.
fn meet<R: Threads + Wait + Sync>(rt: &R, machine: &mut Machine) -> Result<(bool, bool), RunError> {
    let gate = Meeting::new();
    machine.round(rt, 2, &gate)?;
    Ok(gate.met())
}

/// How many harts have stopped after one more round by two workers, and whether two meet in the round after it.
fn stop_and_meet<R: Threads + Wait + Sync>(
    rt: &R,
    machine: &mut Machine,
) -> Result<(u32, (bool, bool)), RunError> {
    let stopped = machine.round(rt, 2, &Open)?.stopped;
    Ok((stopped, meet(rt, machine)?))
}

/// Whether hart 0 sees in a round by two workers that the round of hart 1 was put.
fn waits_for_another<R: Threads + Wait + Sync>(
    rt: &R,
    machine: &mut Machine,
) -> Result<bool, RunError> {
    let gate = Behind::new();
    machine.round(rt, 2, &gate)?;
    Ok(gate.saw_it())
}

#[test]
fn two_workers_meet_in_a_round(rt: HostRuntime) -> Result<(), Fail> {
    let met = on_machine(rt.alloc(), EXIT, &ASKED, |machine| meet(&rt, machine))?;
    assert_eq!(rt; met, (true, true));
    Ok(())
}

#[test]
fn stopped_harts_meet_too(rt: HostRuntime) -> Result<(), Fail> {
    let asked = Settings {
        plan: b"2\n",
        ..ASKED
    };
    let met = on_machine(
        rt.alloc(),
        EXIT,
        &asked,
        |machine| stop_and_meet(&rt, machine),
    )?;
    assert_eq!(rt; met, (2, (true, true)));
    Ok(())
}

#[test]
fn a_hart_is_done_while_another_waits(rt: HostRuntime) -> Result<(), Fail> {
    let saw_it = on_machine(
        rt.alloc(),
        EXIT,
        &ASKED,
        |machine| waits_for_another(&rt, machine),
    )?;
    assert!(rt; saw_it);
    Ok(())
}
