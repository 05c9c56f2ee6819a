//! Machines that a replay keeps to go on from.

use crate::harness::{ASKED, flat};
use crate::images::{RESERVED, RESERVED_PLAN};
use host_io::RunError;
use machine::Settings;
use replayer::{Recording, Replay, Verdict, record};
use std::alloc::Global;
use std::sync::Wait;
use std::test::Fail;
use std::thread::Threads;

/// Four rounds, recorded.
fn recorded<R: Threads + Wait + Sync>(rt: &R, alloc: Global) -> Result<Recording, RunError> {
    let asked = Settings {
        rounds: 4,
        plan: RESERVED_PLAN,
        ..ASKED
    };
    record(rt, alloc, &flat(alloc, RESERVED)?, &[], &asked)
}

/// Whether hart 0 of a replay is at 0x10 after its failed SC of round 2.
fn is_after_its_sc<R: Threads + Wait + Sync>(rt: &R, replay: &Replay) -> Result<bool, RunError> {
    Ok(match replay.state_at(rt, 2, 0, 1, 1)? {
        Some(hart) => hart.pc == 0x10,
        None => false,
    })
}

/// Whether a replay keeps so many machines, is the recorded run, and has hart 0 after its failed SC of round 2.
fn has_checkpoints<R: Threads + Wait + Sync>(
    rt: &R,
    replay: &Replay,
    checkpoints: usize,
) -> Result<bool, RunError> {
    Ok(
        replay.verdict() == Verdict::Same
            && replay.checkpoints() == checkpoints
            && replay.kept(0).is_some()
            && replay.kept(checkpoints).is_none()
            && is_after_its_sc(rt, replay)?,
    )
}

/// The same, of a recording that is opened to keep the machines after multiples of `every`.
fn keeps<R: Threads + Wait + Sync>(
    rt: &R,
    alloc: Global,
    recording: &Recording,
    every: u32,
    checkpoints: usize,
) -> Result<bool, RunError> {
    let replay = Replay::open(rt, alloc, recording, every, 1)?;
    has_checkpoints(rt, &replay, checkpoints)
}

/// The least `every` of which the number of machines that are kept isn't that beside it, if there is any.
fn first_other<R: Threads + Wait + Sync>(
    rt: &R,
    alloc: Global,
    recording: &Recording,
) -> Result<Option<u32>, RunError> {
    for (every, checkpoints) in [(0, 1), (1, 5), (2, 3), (3, 2)] {
        if !keeps(rt, alloc, recording, every, checkpoints)? {
            return Ok(Some(every));
        }
    }
    Ok(None)
}

#[test]
fn machines_are_kept(rt: HostRuntime) -> Result<(), Fail> {
    let recording = recorded(&rt, rt.alloc())?;
    let other = first_other(&rt, rt.alloc(), &recording);
    drop(recording);
    assert_eq!(rt; other?, None);
    Ok(())
}
