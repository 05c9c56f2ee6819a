//! Runs that keep no trace.

ghost use Rattle.std.specs.Prelude.{[], IfOk};
ghost use Rattle.machine.specs.Untraced.{AreLast};

use crate::harness::{ASKED, flat, on_machine};
use crate::images::{CROSSED_AND_FENCED, RESERVED, RESERVED_PLAN, SHARED_COUNTERS, TURNS};
use host_io::RunError;
use machine::{Machine, Observer, Settings, Trace, UntracedMachine, prepare_untraced};
use past_harts::run_noting;
use std::alloc::Global;
use std::sync::Wait;
use std::thread::Threads;

/// A store of another hart between LR and SC: two rounds, in which three events happen.
fn reserved(alloc: Global) -> Result<UntracedMachine, RunError>
    ensures { IfOk result (λ u. AreLast u []) }
{
    let asked = Settings {
        plan: RESERVED_PLAN,
        ..ASKED
    };
    prepare_untraced(alloc, &flat(alloc, RESERVED)?, &[], &asked)
}

/// Whether it is the machine after the two rounds.
fn has_ended(machine: &UntracedMachine) -> bool {
    let [first, second] = machine.harts() else {
        return false;
    };
    first.pc == 0x10
        && first.done == 4
        && first.x[7] == 1
        && second.pc == 0x18
        && second.done == 5
        && machine.byte(0x100) == Some(0)
        && machine.byte(0x101) == Some(1)
        && machine.byte(0x1000).is_none()
        && machine.output().is_empty()
        && machine.events() == 3
        && machine.rounds() == 2
}

/// Whether two machines are alike: in the number of events, in the harts, and in each byte.
fn are_alike(traced: &Machine, bare: &UntracedMachine) -> bool {
    for address in 0..4096 {
        if traced.byte(address) != bare.byte(address) {
            return false;
        }
    }
    let events = traced.trace().len() as u64;
    events >= 24 && bare.events() == events && bare.harts() == traced.harts()
}

/// Whether three rounds on so many workers leave two machines alike.
fn stay_alike<R: Threads + Wait + Sync>(
    rt: &R,
    traced: &mut Machine,
    bare: &mut UntracedMachine,
    workers: u32,
) -> Result<bool, RunError> {
    traced.run(rt, 3, workers)?;
    bare.run(rt, 3, workers)?;
    Ok(are_alike(traced, bare))
}

/// Whether the run of these words without a trace ends as that of this machine of the same words.
fn ends_as<R: Threads + Wait + Sync>(
    rt: &R,
    alloc: Global,
    words: &[u32],
    asked: &Settings<'_>,
    traced: &mut Machine,
    workers: u32,
) -> Result<bool, RunError> {
    let image = flat(alloc, words)?;
    let mut bare = prepare_untraced(alloc, &image, &[], asked)?;
    stay_alike(rt, traced, &mut bare, workers)
}

/// Rounds with serial turns; rounds that stay on the calling thread; rounds that are worth four workers.
static ALIKE: [(&str, &[u32], &[u8]); 3] = [
    ("turns", SHARED_COUNTERS, b"50\n"),
    ("short rounds", TURNS, b"41\n"),
    ("long rounds", TURNS, b"20001\n"),
];

/// Whether three rounds of eight harts end alike with a trace and without one, on so many workers.
fn ends_alike<R: Threads + Wait + Sync>(
    rt: &R,
    alloc: Global,
    words: &[u32],
    plan: &[u8],
    workers: u32,
) -> Result<bool, RunError> {
    let asked = &Settings {
        harts: 8,
        plan,
        ..ASKED
    };
    on_machine(
        alloc,
        words,
        asked,
        |traced| ends_as(rt, alloc, words, asked, traced, workers),
    )
}

#[test]
fn runs_end_alike_without_a_trace_on_any_workers(rt: HostRuntime) {
    for (name, words, plan) in &ALIKE {
        for workers in [1, 2, 4] {
            let alike = ends_alike(&rt, rt.alloc(), words, plan, workers);
            assert!(rt; alike == Ok(true), "{name}");
        }
    }
}

/// Round by round: one event in the first round, and two in the second.
fn notes_both_rounds<R: Threads + Wait + Sync>(
    rt: &R,
    machine: &mut UntracedMachine,
    trace: &mut Trace,
) -> Result<bool, RunError>
    requires { AreLast machine.old trace.old.events }
{
    run_noting(rt, machine, 1, 1, trace)?;
    let first = trace.len();
    run_noting(rt, machine, 1, 1, trace)?;
    Ok(first == 1 && trace.len() == 3 && has_ended(machine))
}

fn notes<R: Threads + Wait + Sync>(rt: &R, alloc: Global) -> Result<bool, RunError> {
    let mut machine = reserved(alloc)?;
    let mut trace = Trace::new(alloc, Vec::new(alloc));
    let noted = notes_both_rounds(rt, &mut machine, &mut trace);
    drop(machine);
    noted
}

#[test]
fn events_are_noted_in_a_trace_that_is_lent(rt: HostRuntime) {
    assert!(rt; notes(&rt, rt.alloc()) == Ok(true));
}

/// Who counts how often it looks on, and keeps the number of the last round.
#[derive(Drop)]
struct Counter {
    looks: u32,
    last: u32,
}

impl Observer for Counter {
    fn after_round(&mut self, machine: &UntracedMachine) {
        self.looks = self.looks.wrapping_add(1);
        self.last = machine.rounds();
    }
}

/// Both harts stop in the second round, after which no hart runs.
fn counts_looks<R: Threads + Wait + Sync>(
    rt: &R,
    machine: &mut UntracedMachine,
) -> Result<bool, RunError> {
    let mut counter = Counter { looks: 0, last: 0 };
    machine.run_observed(rt, 5, 1, &mut counter)?;
    Ok(counter.looks == 2 && counter.last == 2 && machine.rounds() == 5)
}

fn is_observed<R: Threads + Wait + Sync>(rt: &R, alloc: Global) -> Result<bool, RunError> {
    let asked = Settings {
        plan: b"6\n",
        ..ASKED
    };
    let mut machine = prepare_untraced(alloc, &flat(alloc, CROSSED_AND_FENCED)?, &[], &asked)?;
    counts_looks(rt, &mut machine)
}

#[test]
fn an_observer_looks_on_while_a_hart_runs(rt: HostRuntime) {
    assert!(rt; is_observed(&rt, rt.alloc()) == Ok(true));
}
