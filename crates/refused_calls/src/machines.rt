//! Calls on a machine.

use crate::calls::Outcome;
use crate::ending::Ending;
use crate::guest::{GUEST, SETTINGS};
use crate::loops::{LOOP, LOOPING, loop_twice};
use crate::rounds::{run_all, try_rounds};
use crate::stage::Stage;
use crate::texts::report;
use host_io::RunError;
use machine::{Machine, Settings, prepare};
use std::alloc::Global;
use std::sync::Wait;
use std::thread::Threads;

/// A call on a machine, or calls.
#[derive(Clone, Copy)]
pub(crate) enum OfMachine {
    /// Each of both rounds by a call, on so many workers.
    Rounds(u32),
    /// Both by one.
    Run(u32),
    /// Rounds in which there is work for several threads.
    Loops,
    /// The report after both rounds.
    Report,
    /// A copy after them.
    Copy,
    /// A copy that shares its pages.
    Share,
}

/// Makes the call, or says what was refused before it.
pub(crate) fn try_machine<R: Threads + Wait + Sync>(
    rt: &R,
    alloc: Global,
    call: OfMachine,
) -> Result<Ending, RunError> {
    let (image, asked) = call.guest();
    let mut machine = prepare(alloc, image, &[], asked)?;
    call.tried(rt, alloc, &mut machine)
}

impl OfMachine {
    /// The guest that it is made on, and how that is run.
    fn guest(self) -> (&'static [u8], &'static Settings<'static>) {
        match self {
            OfMachine::Loops => (LOOP.as_slice(), &LOOPING),
            _ => (GUEST.as_slice(), &SETTINGS),
        }
    }

    /// Makes the call on this machine.
    fn tried<R: Threads + Wait + Sync>(
        self,
        rt: &R,
        alloc: Global,
        machine: &mut Machine,
    ) -> Result<Ending, RunError> {
        match self {
            OfMachine::Rounds(workers) => Ok(try_rounds(rt, machine, workers)),
            OfMachine::Run(workers) => Ok(run_all(rt, machine, workers)),
            OfMachine::Loops => Ok(loop_twice(rt, machine)),
            _ => self.tried_after(rt, alloc, machine),
        }
    }

    /// The same of a call after both rounds.
    fn tried_after<R: Threads + Wait + Sync>(
        self,
        rt: &R,
        alloc: Global,
        machine: &mut Machine,
    ) -> Result<Ending, RunError> {
        machine.run(rt, 2, 1)?;
        Ok(match self {
            OfMachine::Report => report(alloc, machine),
            OfMachine::Share => share(machine),
            _ => copy_twice(machine),
        })
    }
}

/// Copies a machine, and once more where that was refused memory.
fn copy_twice(machine: &Machine) -> Ending {
    match copy(machine) {
        Outcome::Refused => Ending::second(copy(machine)),
        outcome => Ending::first(outcome),
    }
}

/// Copies a machine, which stays as it is.
fn copy(machine: &Machine) -> Outcome {
    match machine.copy() {
        Ok(copy) => Outcome::of(are_ended(machine, &copy)),
        Err(error) => Outcome::refused(&error),
    }
}

/// Has a copy of a machine share its pages. Refused, the machine is as it was.
fn share(machine: &mut Machine) -> Ending {
    match shares(machine) {
        Outcome::Refused if !Stage::Ended.is_of(machine) => Ending::Changed,
        Outcome::Refused => Ending::second(shares(machine)),
        outcome => Ending::first(outcome),
    }
}

/// Has a copy share the pages, and looks at both.
fn shares(machine: &mut Machine) -> Outcome {
    match machine.share() {
        Ok(copy) => Outcome::of(are_ended(machine, &copy)),
        Err(error) => Outcome::refused(&error),
    }
}

/// Whether two machines are at the end of the guest's run.
fn are_ended(machine: &Machine, copy: &Machine) -> bool {
    Stage::Ended.is_of(machine) && Stage::Ended.is_of(copy)
}
