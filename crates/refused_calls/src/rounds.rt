//! Rounds of a machine.

use crate::calls::Outcome;
use crate::ending::Ending;
use crate::stage::Stage;
use machine::{Machine, Open, RoundNote};
use std::sync::Wait;
use std::thread::Threads;

/// Does both rounds of the guest, one by one.
pub(crate) fn try_rounds<R: Threads + Wait + Sync>(
    rt: &R,
    machine: &mut Machine,
    workers: u32,
) -> Ending {
    let first = try_round(rt, machine, workers, Stage::Opening, Stage::Fenced);
    let second = try_round(rt, machine, workers, Stage::Fenced, Stage::Ended);
    first.and(second)
}

/// Does a round that goes from one stage to the next. A refused one leaves the machine where it was.
fn try_round<R: Threads + Wait + Sync>(
    rt: &R,
    machine: &mut Machine,
    workers: u32,
    from: Stage,
    to: Stage,
) -> Ending {
    match do_round(rt, machine, workers, to) {
        Outcome::Refused if !from.is_of(machine) => Ending::Changed,
        Outcome::Refused => Ending::second(do_round(rt, machine, workers, to)),
        outcome => Ending::first(outcome),
    }
}

/// Does a round that goes to a stage.
fn do_round<R: Threads + Wait + Sync>(
    rt: &R,
    machine: &mut Machine,
    workers: u32,
    to: Stage,
) -> Outcome {
    match machine.round(rt, workers, &Open) {
        Ok(note) => Outcome::of(has_come(machine, note, to)),
        Err(error) => Outcome::refused(&error),
    }
}

/// Whether a machine has come to a stage by a round of this note.
fn has_come(machine: &Machine, note: RoundNote, to: Stage) -> bool {
    let wanted = match to {
        Stage::Fenced => (1, 2, 0),
        _ => (2, 0, 2),
    };
    (note.round, note.waited, note.stopped) == wanted && to.is_of(machine)
}

/// Does both rounds of the guest by one call. A refused one leaves fewer rounds done, each of them whole, and the next call
/// does those that are left.
pub(crate) fn run_all<R: Threads + Wait + Sync>(
    rt: &R,
    machine: &mut Machine,
    workers: u32,
) -> Ending {
    match run(rt, machine, 2, workers) {
        Outcome::Refused => match Stage::of(machine) {
            Some(Stage::Opening) => Ending::second(run(rt, machine, 2, workers)),
            Some(Stage::Fenced) => Ending::second(run(rt, machine, 1, workers)),
            _ => Ending::Changed,
        },
        outcome => Ending::first(outcome),
    }
}

/// Does so many rounds, which end the guest.
fn run<R: Threads + Wait + Sync>(
    rt: &R,
    machine: &mut Machine,
    rounds: u32,
    workers: u32,
) -> Outcome {
    match machine.run(rt, rounds, workers) {
        Ok(()) => Outcome::of(Stage::Ended.is_of(machine)),
        Err(error) => Outcome::refused(&error),
    }
}
