//! Calls that are lent the trace of the guest's run.

use crate::calls::Outcome;
use crate::ending::Ending;
use crate::runs::traced;
use crate::stage::Stage;
use host_io::RunError;
use machine::Trace;
use memory_order::{Order, check_order, memory_order};
use std::alloc::Global;
use std::sync::Wait;
use std::thread::Threads;

/// A call that is lent a trace.
#[derive(Clone, Copy)]
pub(crate) enum OfTrace {
    /// The order of the memory operations: both stores, and then both loads.
    Order,
    /// Whether that order meets the memory model: it does.
    CheckRight,
    /// The same of the order with the loads before the stores: it doesn't.
    CheckWrong,
    Copy,
}

/// Makes the calls, or says what was refused before them.
pub(crate) fn try_traces<R: Threads + Wait + Sync>(
    rt: &R,
    alloc: Global,
    calls: &[OfTrace],
) -> Result<Ending, RunError> {
    let trace = traced(rt, alloc)?;
    Ok(all_tried(alloc, &trace, calls))
}

/// The same on this trace.
fn all_tried(alloc: Global, trace: &Trace, calls: &[OfTrace]) -> Ending {
    let mut ending = Ending::Done;
    for call in calls {
        ending = ending.and(call.tried(alloc, trace));
    }
    ending
}

impl OfTrace {
    /// Makes the call, and once more where it was refused memory.
    fn tried(self, alloc: Global, trace: &Trace) -> Ending {
        match self.made(alloc, trace) {
            Outcome::Refused => Ending::second(self.made(alloc, trace)),
            outcome => Ending::first(outcome),
        }
    }

    fn made(self, alloc: Global, trace: &Trace) -> Outcome {
        match self {
            OfTrace::Order => order(alloc, trace),
            OfTrace::CheckRight => check(alloc, trace, &[0, 1, 4, 5], true),
            OfTrace::CheckWrong => check(alloc, trace, &[4, 5, 0, 1], false),
            OfTrace::Copy => copy(alloc, trace),
        }
    }
}

fn order(alloc: Global, trace: &Trace) -> Outcome {
    match memory_order(alloc, trace) {
        Ok(Order(places)) => Outcome::of(places.as_slice() == [0, 1, 4, 5].as_slice()),
        Err(error) => Outcome::refused(&error),
    }
}

/// Checks the order of these places.
fn check(alloc: Global, trace: &Trace, places: &[usize], is_met: bool) -> Outcome {
    let Ok(places) = Vec::from_slice(alloc, places) else {
        return Outcome::RefusedBefore;
    };
    match check_order(alloc, trace, &Order(places)) {
        Ok(answer) => Outcome::of(answer == is_met),
        Err(error) => Outcome::refused(&error),
    }
}

/// Copies a trace, which stays as it is.
fn copy(alloc: Global, trace: &Trace) -> Outcome {
    match trace.copy(alloc) {
        Ok(copy) => Outcome::of(Stage::Ended.has_events(trace) && Stage::Ended.has_events(&copy)),
        Err(error) => Outcome::refused(&error),
    }
}
