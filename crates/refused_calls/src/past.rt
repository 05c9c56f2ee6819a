//! Calls that are lent the recording of the guest's run: replays, and questions about the past.

use crate::calls::Outcome;
use crate::ending::Ending;
use crate::recordings::{is_recorded, recorded};
use crate::stage::{Stage, events};
use host_io::RunError;
use pages::Range;
use recording::Recording;
use replayer::{Replay, Verdict, count_at, replay, state_at, state_before, watch};
use std::alloc::Global;
use std::sync::Wait;
use std::thread::Threads;

/// A call that is lent a recording.
#[derive(Clone, Copy)]
pub(crate) enum OfRecording {
    /// The run anew.
    Replay,
    /// Opens it, which keeps the machine after each round.
    Open,
    /// A hart after the last instruction that it did.
    StateAt,
    /// The same of the opened one.
    StateOfOpened,
    /// A hart before its instruction at a place of the whole run: the load, which is in round 2.
    StateBefore,
    /// How many instructions a hart did in a round, the fence counted.
    CountAt,
    /// The accesses of a byte: the store of hart 0, and the load of hart 1.
    Watch,
}

/// Makes the calls, or says what was refused before them.
pub(crate) fn try_recording<R: Threads + Wait + Sync>(
    rt: &R,
    alloc: Global,
    calls: &[OfRecording],
) -> Result<Ending, RunError> {
    let recording = recorded(rt, alloc, 1)?;
    Ok(all_tried(rt, alloc, &recording, calls))
}

/// The same on this recording.
fn all_tried<R: Threads + Wait + Sync>(
    rt: &R,
    alloc: Global,
    recording: &Recording,
    calls: &[OfRecording],
) -> Ending {
    let mut ending = Ending::Done;
    for call in calls {
        ending = ending.and(call.tried(rt, alloc, recording));
    }
    ending
}

impl OfRecording {
    /// Makes the call, and once more where it was refused memory.
    fn tried<R: Threads + Wait + Sync>(
        self,
        rt: &R,
        alloc: Global,
        recording: &Recording,
    ) -> Ending {
        match self.made(rt, alloc, recording) {
            Outcome::Refused => Ending::second(self.made(rt, alloc, recording)),
            outcome => Ending::first(outcome),
        }
    }

    fn made<R: Threads + Wait + Sync>(
        self,
        rt: &R,
        alloc: Global,
        recording: &Recording,
    ) -> Outcome {
        match self {
            OfRecording::Replay => replayed(rt, alloc, recording),
            OfRecording::Open => opened(rt, alloc, recording),
            OfRecording::StateAt => state(rt, alloc, recording),
            OfRecording::StateOfOpened => state_of_opened(rt, alloc, recording),
            OfRecording::StateBefore => before(rt, alloc, recording),
            OfRecording::CountAt => counted(rt, alloc, recording),
            OfRecording::Watch => watched(rt, alloc, recording),
        }
    }
}

fn replayed<R: Threads + Wait + Sync>(rt: &R, alloc: Global, recording: &Recording) -> Outcome {
    match replay(rt, alloc, recording, 1) {
        Ok(verdict) => Outcome::of(verdict == Verdict::Same && is_recorded(recording, 1)),
        Err(error) => Outcome::refused(&error),
    }
}

fn opened<R: Threads + Wait + Sync>(rt: &R, alloc: Global, recording: &Recording) -> Outcome {
    match Replay::open(rt, alloc, recording, 1, 1) {
        Ok(replay) => Outcome::of(is_opened(&replay) && is_recorded(recording, 1)),
        Err(error) => Outcome::refused(&error),
    }
}

/// Whether a recording was opened with the machine of each round.
fn is_opened(replay: &Replay) -> bool {
    replay.verdict() == Verdict::Same
        && replay.checkpoints() == 3
        && keeps(replay, 0, Stage::Opening)
        && keeps(replay, 1, Stage::Fenced)
        && keeps(replay, 2, Stage::Ended)
}

/// Whether a machine is kept at this stage.
fn keeps(replay: &Replay, number: usize, stage: Stage) -> bool {
    match replay.kept(number) {
        Some(machine) => stage.is_of(machine),
        None => false,
    }
}

fn state<R: Threads + Wait + Sync>(rt: &R, alloc: Global, recording: &Recording) -> Outcome {
    match state_at(rt, alloc, recording, 2, 0, 1, 1) {
        Ok(hart) => Outcome::of(hart == Some(Stage::Ended.hart(0))),
        Err(error) => Outcome::refused(&error),
    }
}

fn state_of_opened<R: Threads + Wait + Sync>(
    rt: &R,
    alloc: Global,
    recording: &Recording,
) -> Outcome {
    match Replay::open(rt, alloc, recording, 1, 1) {
        Ok(replay) => state_of(rt, &replay),
        Err(error) => Outcome::before(&error),
    }
}

fn state_of<R: Threads + Wait + Sync>(rt: &R, replay: &Replay) -> Outcome {
    match replay.state_at(rt, 2, 0, 1, 1) {
        Ok(hart) => Outcome::of(hart == Some(Stage::Ended.hart(0))),
        Err(error) => Outcome::refused(&error),
    }
}

fn before<R: Threads + Wait + Sync>(rt: &R, alloc: Global, recording: &Recording) -> Outcome {
    match state_before(rt, alloc, recording, 1, 5, 1) {
        Ok(before) => Outcome::of(before == Some((2, Stage::Fenced.hart(1)))),
        Err(error) => Outcome::refused(&error),
    }
}

fn counted<R: Threads + Wait + Sync>(rt: &R, alloc: Global, recording: &Recording) -> Outcome {
    match count_at(rt, alloc, recording, 1, 0, 1) {
        Ok(count) => Outcome::of(count == Some(5)),
        Err(error) => Outcome::refused(&error),
    }
}

fn watched<R: Threads + Wait + Sync>(rt: &R, alloc: Global, recording: &Recording) -> Outcome {
    let byte = Range {
        start: 0x107,
        len: 1,
    };
    match watch(rt, alloc, recording, &[byte], 1) {
        Ok(hits) => {
            let [stored, .., loaded] = events();
            Outcome::of(hits.as_slice() == [stored, loaded].as_slice())
        }
        Err(error) => Outcome::refused(&error),
    }
}
