//! The trials, and their names.

use crate::ending::Ending;
use crate::lone::{Lone, try_lone};
use crate::machines::{OfMachine, try_machine};
use crate::memory::{OfPages, try_pages, try_put};
use crate::past::{OfRecording, try_recording};
use crate::steps::try_step;
use crate::texts::try_write;
use crate::traces::{OfTrace, try_traces};
use host_io::RunError;
use std::alloc::Global;
use std::sync::Wait;
use std::thread::Threads;

/// Public calls that are tried, one after another.
#[derive(Clone, Copy)]
pub(crate) enum Trial {
    Lone(&'static [Lone]),
    OfMachine(OfMachine),
    OfTrace(&'static [OfTrace]),
    OfRecording(&'static [OfRecording]),
    OfPages(OfPages),
    Step,
    Put,
    /// Writes a recording.
    Write,
}

/// Each trial, behind the word that names it.
pub(crate) static TRIALS: [(&str, Trial); 37] = [
    ("round-1", Trial::OfMachine(OfMachine::Rounds(1))),
    ("round-4", Trial::OfMachine(OfMachine::Rounds(4))),
    ("run-1", Trial::OfMachine(OfMachine::Run(1))),
    ("run-4", Trial::OfMachine(OfMachine::Run(4))),
    ("loops-4", Trial::OfMachine(OfMachine::Loops)),
    ("report", Trial::OfMachine(OfMachine::Report)),
    ("trace-run", Trial::Lone(&[Lone::TraceRun])),
    ("prepare-machine", Trial::Lone(&[Lone::Prepare])),
    ("open", Trial::Lone(&[Lone::Open])),
    ("open-untraced", Trial::Lone(&[Lone::OpenUntraced])),
    ("hart-after", Trial::Lone(&[Lone::HartAfter])),
    ("step", Trial::Step),
    ("put", Trial::Put),
    ("prepare", Trial::OfPages(OfPages::Prepare)),
    ("read-all", Trial::Lone(&[Lone::ReadAll])),
    ("load-elf", Trial::Lone(&[Lone::LoadElf])),
    ("load-flat", Trial::Lone(&[Lone::LoadFlat])),
    ("plan", Trial::Lone(&[Lone::Plan])),
    ("order", Trial::OfTrace(&[OfTrace::Order])),
    (
        "check",
        Trial::OfTrace(&[OfTrace::CheckRight, OfTrace::CheckWrong]),
    ),
    (
        "record",
        Trial::Lone(&[Lone::Record, Lone::RecordRegisters]),
    ),
    ("read", Trial::Lone(&[Lone::Read])),
    ("write", Trial::Write),
    ("replay", Trial::OfRecording(&[OfRecording::Replay])),
    ("replay-open", Trial::OfRecording(&[OfRecording::Open])),
    (
        "state-at",
        Trial::OfRecording(&[OfRecording::StateAt, OfRecording::StateOfOpened]),
    ),
    (
        "state-before",
        Trial::OfRecording(&[OfRecording::StateBefore]),
    ),
    ("count-at", Trial::OfRecording(&[OfRecording::CountAt])),
    ("watch", Trial::OfRecording(&[OfRecording::Watch])),
    ("copy-machine", Trial::OfMachine(OfMachine::Copy)),
    ("copy-untraced", Trial::Lone(&[Lone::CopyUntraced])),
    ("copy-pages", Trial::OfPages(OfPages::Copy)),
    ("copy-trace", Trial::OfTrace(&[OfTrace::Copy])),
    ("copy-plan", Trial::Lone(&[Lone::CopyPlan])),
    ("copy-console", Trial::Lone(&[Lone::CopyConsole])),
    ("share-machine", Trial::OfMachine(OfMachine::Share)),
    ("share-pages", Trial::OfPages(OfPages::Share)),
];

impl Trial {
    /// The trial that a word names.
    pub(crate) fn named(word: &str) -> Option<Trial> {
        for (name, trial) in &TRIALS {
            if *name == word {
                return Some(*trial);
            }
        }
        None
    }

    /// Makes the trial.
    pub(crate) fn ending<R: Threads + Wait + Sync>(self, rt: &R, alloc: Global) -> Ending {
        match self.made(rt, alloc) {
            Ok(ending) => ending,
            Err(error) => Ending::before(error),
        }
    }

    /// Makes the trial, or says what was refused before its calls.
    fn made<R: Threads + Wait + Sync>(self, rt: &R, alloc: Global) -> Result<Ending, RunError> {
        match self {
            Trial::Lone(calls) => Ok(try_lone(rt, alloc, calls)),
            Trial::OfMachine(call) => try_machine(rt, alloc, call),
            Trial::OfTrace(calls) => try_traces(rt, alloc, calls),
            Trial::OfRecording(calls) => try_recording(rt, alloc, calls),
            Trial::OfPages(call) => try_pages(alloc, call),
            Trial::Step => try_step(alloc),
            Trial::Put => Ok(try_put(alloc)),
            Trial::Write => try_write(alloc),
        }
    }
}
