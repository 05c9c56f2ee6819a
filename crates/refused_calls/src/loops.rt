//! Rounds in which there is work for several threads.

use crate::calls::Outcome;
use crate::ending::Ending;
use hart_step::Hart;
use machine::{Format, Machine, Settings};
use std::sync::Wait;
use std::thread::Threads;

/// ADDI x5,x5,1; JAL x0,-4.
pub(crate) static LOOP: [u8; 8] = [0x93, 0x82, 0x12, 0x00, 0x6F, 0xF0, 0xDF, 0xFF];

/// Two rounds of four harts, each of which goes round 25,000 times in a round.
pub(crate) static LOOPING: Settings<'static> = Settings {
    format: Format::Flat,
    harts: 4,
    pages: 1,
    rounds: 2,
    workers: 4,
    budget: 1,
    plan: b"50000\n",
};

/// Does both rounds by one call. A refused one leaves fewer rounds done, and the next call does those that are left.
pub(crate) fn loop_twice<R: Threads + Wait + Sync>(rt: &R, machine: &mut Machine) -> Ending {
    match loops(rt, machine, 2) {
        Outcome::Refused if has_looped(machine, 0) => Ending::second(loops(rt, machine, 2)),
        Outcome::Refused if has_looped(machine, 1) => Ending::second(loops(rt, machine, 1)),
        Outcome::Refused => Ending::Changed,
        outcome => Ending::first(outcome),
    }
}

/// Does so many rounds, which lead to the end of the second.
fn loops<R: Threads + Wait + Sync>(rt: &R, machine: &mut Machine, rounds: u32) -> Outcome {
    match machine.run(rt, rounds, 4) {
        Ok(()) => Outcome::of(has_looped(machine, 2)),
        Err(error) => Outcome::refused(&error),
    }
}

/// Whether the harts of a machine are where so many rounds leave them, and nothing was accessed or put out.
fn has_looped(machine: &Machine, rounds: u32) -> bool {
    let harts = [0, 1, 2, 3].map(|number| {
        let mut x = [0; 32];
        x[5] = 25_000 * u64::from(rounds);
        x[10] = number;
        x[11] = 4;
        Hart {
            x,
            pc: 0,
            stop: None,
            done: 50_000 * u64::from(rounds),
        }
    });
    machine.harts() == harts.as_slice() && machine.trace().len() == 0 && machine.output().is_empty()
}
