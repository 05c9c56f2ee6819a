//! Recordings, made and read.

use crate::calls::Outcome;
use crate::guest::{GUEST, SETTINGS};
use crate::stage::Stage;
use hart_step::Hart;
use host_io::RunError;
use recording::{Checkpoint, HartSummary, Recording, read_recording};
use replayer::{record, record_with};
use std::alloc::Global;
use std::sync::Wait;
use std::thread::Threads;

/// Two harts that exit, recorded after one round of quota 4, in version 1.
pub(crate) static EXITS: [u8; 125] = [
    82, 86, 68, 69, 84, 82, 69, 67, 1, 0, 0, 0, 1, 2, 0, 0, 0, 1, 0, 0, 0, 1, 0, 0, 0, 8, 0, 0, 0,
    0, 0, 0, 0, 147, 8, 0, 0, 115, 0, 0, 0, 0, 0, 0, 0, 0, 0, 0, 0, 2, 0, 0, 0, 0, 0, 0, 0, 52, 10,
    0, 0, 0, 0, 0, 0, 0, 0, 0, 0, 0, 0, 0, 0, 0, 0, 4, 0, 0, 0, 0, 0, 0, 0, 1, 0, 0, 0, 0, 0, 0, 0,
    1, 0, 0, 0, 0, 0, 0, 0, 0, 4, 0, 0, 0, 0, 0, 0, 0, 1, 0, 0, 0, 0, 0, 0, 0, 1, 1, 0, 0, 0, 0, 0,
    0, 0,
];

/// The recording of the guest's run, with registers after each round where `every` is 1.
pub(crate) fn recorded<R: Threads + Wait + Sync>(
    rt: &R,
    alloc: Global,
    every: u32,
) -> Result<Recording, RunError> {
    record_with(rt, alloc, &GUEST, &[], &SETTINGS, every)
}

/// Records the guest's run without registers.
pub(crate) fn record_bare<R: Threads + Wait + Sync>(rt: &R, alloc: Global) -> Outcome {
    is_made(record(rt, alloc, &GUEST, &[], &SETTINGS), 0)
}

/// Records it with them.
pub(crate) fn record_registers<R: Threads + Wait + Sync>(rt: &R, alloc: Global) -> Outcome {
    is_made(recorded(rt, alloc, 1), 1)
}

/// What a call came to that records the guest's run.
fn is_made(made: Result<Recording, RunError>, every: u32) -> Outcome {
    match made {
        Ok(recording) => Outcome::of(is_recorded(&recording, every)),
        Err(error) => Outcome::refused(&error),
    }
}

/// Whether a recording is that of the guest's run, with registers after each round where `every` is 1.
pub(crate) fn is_recorded(recording: &Recording, every: u32) -> bool {
    let has_rounds = match recording.checkpoints() {
        [first, second] => {
            is_checkpoint(first, Stage::Fenced, every) && is_checkpoint(second, Stage::Ended, every)
        }
        _ => false,
    };
    has_rounds
        && (recording.version(), recording.is_flat()) == (2, true)
        && (recording.harts(), recording.pages()) == (2, 1)
        && (recording.rounds(), recording.budget()) == (2, 1)
        && recording.every() == every
        && recording.image() == GUEST.as_slice()
        && recording.input().is_empty()
        && recording.plan() == b"6\n".as_slice()
}

/// Whether this is kept of the guest at a stage.
fn is_checkpoint(checkpoint: &Checkpoint, stage: Stage, every: u32) -> bool {
    let (first, second) = (stage.hart(0), stage.hart(1));
    let has_registers = match &checkpoint.registers {
        None => every == 0,
        Some(lists) => match lists.as_slice() {
            [of_first, of_second] => {
                every == 1 && are_registers(of_first, &first) && are_registers(of_second, &second)
            }
            _ => false,
        },
    };
    let summary = &checkpoint.summary;
    has_registers
        && (summary.output, summary.trace) == (0, stage.events() as u64)
        && summary.harts.as_slice() == [summary_of(&first), summary_of(&second)].as_slice()
}

/// Whether these are registers x1 to x31 of a hart.
fn are_registers(registers: &[u64], hart: &Hart) -> bool {
    registers == &hart.x[1..]
}

/// What a recording keeps of a hart.
fn summary_of(hart: &Hart) -> HartSummary {
    let (code, value) = match hart.stop {
        Some(stop) => (stop.code, stop.value),
        None => (0, 0),
    };
    HartSummary {
        pc: hart.pc,
        done: hart.done,
        code,
        value,
    }
}

/// Reads a recording.
pub(crate) fn read(alloc: Global) -> Outcome {
    match read_recording(alloc, &EXITS) {
        Ok(recording) => Outcome::of(are_exits(&recording)),
        Err(error) => Outcome::refused(&error),
    }
}

/// Whether a recording is that of the harts that exit.
fn are_exits(recording: &Recording) -> bool {
    let [first, second] = [0, 1].map(|value| HartSummary {
        pc: 4,
        done: 1,
        code: 1,
        value,
    });
    let is_round = match recording.checkpoints() {
        [checkpoint] => {
            checkpoint.registers.is_none()
                && (checkpoint.summary.output, checkpoint.summary.trace) == (0, 0)
                && checkpoint.summary.harts.as_slice() == [first, second].as_slice()
        }
        _ => false,
    };
    is_round
        && (recording.version(), recording.is_flat()) == (1, true)
        && (recording.harts(), recording.pages()) == (2, 1)
        && (recording.rounds(), recording.budget()) == (1, 1)
        && recording.every() == 0
        && recording.image() == b"\x93\x08\0\0\x73\0\0\0".as_slice()
        && recording.input().is_empty()
        && recording.plan() == b"4\n".as_slice()
}
