//! What a run begins with, its trace, and calls that take the machine.

use crate::calls::Outcome;
use crate::guest::{GUEST, SETTINGS};
use crate::stage::Stage;
use elf_loader::Image;
use emulation::trace_run;
use host_io::RunError;
use machine::{
    Format, Machine, Observed, Trace, Unobserved, UntracedMachine, load, prepare, prepare_untraced,
};
use past_harts::PastHarts;
use round_planner::{Plan, PlanError};
use std::alloc::Global;
use std::sync::Wait;
use std::thread::Threads;

/// What a call came to that makes the machine of the guest.
fn is_made(made: Result<Machine, RunError>) -> Outcome {
    match made {
        Ok(machine) => Outcome::of(Stage::Opening.is_of(&machine)),
        Err(error) => Outcome::refused(&error),
    }
}

/// The machine of the guest.
pub(crate) fn machine(alloc: Global) -> Outcome {
    is_made(prepare(alloc, &GUEST, &[], &SETTINGS))
}

/// The trace of the guest's run.
pub(crate) fn traced<R: Threads + Wait + Sync>(rt: &R, alloc: Global) -> Result<Trace, RunError> {
    let mut nobody = Observed {
        observer: &mut Unobserved,
    };
    trace_run(rt, alloc, &GUEST, &[], &SETTINGS, &mut nobody)
}

/// Makes it.
pub(crate) fn trace<R: Threads + Wait + Sync>(rt: &R, alloc: Global) -> Outcome {
    match traced(rt, alloc) {
        Ok(trace) => Outcome::of(Stage::Ended.has_events(&trace)),
        Err(error) => Outcome::refused(&error),
    }
}

/// The plan of the guest.
fn plan(alloc: Global) -> Result<Plan, RunError> {
    match Plan::parse(alloc, b"6\n", 2) {
        Ok(plan) => Ok(plan),
        Err(PlanError::OutOfMemory) => Err(RunError::OutOfMemory),
        Err(error) => Err(RunError::Plan(error)),
    }
}

/// The image and the plan of the guest.
fn parts(alloc: Global) -> Result<(Image, Plan), RunError> {
    let plan = plan(alloc)?;
    Ok((load(alloc, Format::Flat, &GUEST, 1)?, plan))
}

/// The machine of an image and a plan, which it takes.
pub(crate) fn open(alloc: Global) -> Outcome {
    match parts(alloc) {
        Ok((image, plan)) => is_made(Machine::new(alloc, image, Vec::new(alloc), plan)),
        Err(error) => Outcome::before(&error),
    }
}

/// The machine without a trace of an image, which is lent, and a plan, which it takes.
pub(crate) fn open_untraced(alloc: Global) -> Outcome {
    match parts(alloc) {
        Ok((image, plan)) => opens_untraced(alloc, &image, plan),
        Err(error) => Outcome::before(&error),
    }
}

fn opens_untraced(alloc: Global, image: &Image, plan: Plan) -> Outcome {
    match UntracedMachine::open(alloc, image, Vec::new(alloc), plan) {
        Ok(machine) => Outcome::of(Stage::Opening.is_of_untraced(&machine)),
        Err(error) => Outcome::refused(&error),
    }
}

/// A hart after all that it does in the next round of a machine, which the call takes.
pub(crate) fn hart_after<R: Threads + Wait + Sync>(rt: &R, alloc: Global) -> Outcome {
    match prepare(alloc, &GUEST, &[], &SETTINGS) {
        Ok(machine) => hart_of(rt, machine),
        Err(error) => Outcome::before(&error),
    }
}

fn hart_of<R: Threads + Wait + Sync>(rt: &R, machine: Machine) -> Outcome {
    match machine.hart_after(rt, 1, 5, 1) {
        Ok(hart) => Outcome::of(hart == Some(Stage::Fenced.hart(1))),
        Err(error) => Outcome::refused(&error),
    }
}

/// The copy of a machine that keeps no trace, after both rounds.
pub(crate) fn untraced_copy<R: Threads + Wait + Sync>(rt: &R, alloc: Global) -> Outcome {
    match prepare_untraced(alloc, &GUEST, &[], &SETTINGS) {
        Ok(mut machine) => copy_after_rounds(rt, &mut machine),
        Err(error) => Outcome::before(&error),
    }
}

fn copy_after_rounds<R: Threads + Wait + Sync>(rt: &R, machine: &mut UntracedMachine) -> Outcome {
    match machine.run(rt, 2, 1) {
        Ok(()) => copy_of(machine),
        Err(error) => Outcome::before(&error),
    }
}

/// Copies a machine, which stays as it is.
fn copy_of(machine: &UntracedMachine) -> Outcome {
    match machine.copy() {
        Ok(copy) => Outcome::of(
            Stage::Ended.is_of_untraced(machine) && Stage::Ended.is_of_untraced(&copy),
        ),
        Err(error) => Outcome::refused(&error),
    }
}
