//! Calls that are lent nothing which was made before, or make themselves what they take.

use crate::calls::Outcome;
use crate::consoles::console_copy;
use crate::ending::Ending;
use crate::loading::{elf, flat, plan, plan_copy, source};
use crate::recordings::{read, record_bare, record_registers};
use crate::runs::{hart_after, machine, open, open_untraced, trace, untraced_copy};
use std::alloc::Global;
use std::sync::Wait;
use std::thread::Threads;

/// A call that changes nothing but what it answers.
#[derive(Clone, Copy)]
pub(crate) enum Lone {
    ReadAll,
    LoadElf,
    LoadFlat,
    Plan,
    CopyPlan,
    CopyConsole,
    Prepare,
    Open,
    OpenUntraced,
    HartAfter,
    CopyUntraced,
    TraceRun,
    Record,
    RecordRegisters,
    Read,
}

/// Makes the calls.
pub(crate) fn try_lone<R: Threads + Wait + Sync>(rt: &R, alloc: Global, calls: &[Lone]) -> Ending {
    let mut ending = Ending::Done;
    for call in calls {
        ending = ending.and(call.tried(rt, alloc));
    }
    ending
}

impl Lone {
    /// Makes the call, and once more where it was refused memory.
    fn tried<R: Threads + Wait + Sync>(self, rt: &R, alloc: Global) -> Ending {
        match self.made(rt, alloc) {
            Outcome::Refused => Ending::second(self.made(rt, alloc)),
            outcome => Ending::first(outcome),
        }
    }

    fn made<R: Threads + Wait + Sync>(self, rt: &R, alloc: Global) -> Outcome {
        match self {
            Lone::ReadAll => source(alloc),
            Lone::LoadElf => elf(alloc),
            Lone::LoadFlat => flat(alloc),
            Lone::Plan => plan(alloc),
            Lone::CopyPlan => plan_copy(alloc),
            Lone::CopyConsole => console_copy(alloc),
            Lone::Prepare => machine(alloc),
            Lone::Open => open(alloc),
            Lone::OpenUntraced => open_untraced(alloc),
            Lone::HartAfter => hart_after(rt, alloc),
            Lone::CopyUntraced => untraced_copy(rt, alloc),
            Lone::TraceRun => trace(rt, alloc),
            Lone::Record => record_bare(rt, alloc),
            Lone::RecordRegisters => record_registers(rt, alloc),
            Lone::Read => read(alloc),
        }
    }
}
