//! What a file says of an execution, beside what its harts did.

ghost use Rattle.std.specs.Prelude.{◌≡◌, ◌≢◌, IfOk, List, slice_get, true};
ghost use Rattle.execution_file.specs.Views.{as_recorded};
ghost use Rattle.execution_file.specs.Deeds.{deeds};
ghost use Rattle.execution_file.specs.Turns.{NamesNone};
ghost use Rattle.execution_scripts.specs.Findings.{IsNamedBy, IsSaid};
ghost use Rattle.execution_scripts.specs.Misfits.{IsUnnamed};
ghost use Rattle.round_schedule.specs.declared.event.Event.{Event};

use crate::fault::{Fault, Misfit};
use execution_checker::Execution;
use execution_file::{ExecutionFile, Named, Turn, are_said, deeds, order_named};
use memory_order::Order;
use pages::OutOfMemory;
use std::alloc::Global;

/// Whether an execution is the one that a file says.
#[derive(Drop)]
pub enum Said {
    /// Its harts did what the file says, and the file's turns name this order of their memory operations.
    Order(Order),
    /// It isn't.
    Fault(Fault),
}

/// Whether the harts of an execution did what a file says of them, and which order of their memory operations its turns name.
///
/// # Errors
///
/// `OutOfMemory` alone.
pub fn order_said(
    alloc: Global,
    file: &ExecutionFile,
    execution: &Execution,
) -> Result<Said, OutOfMemory>
    ensures { IfOk result (IsSaid (as_recorded file.now).harts (as_recorded file.now).order
        execution.now.standing) }
{
    let did = deeds(alloc, execution.harts(), execution.events())?;
    if !are_said(&file.harts, &did) {
        return Ok(Said::Fault(otherwise()));
    }
    order_named_by(alloc, file, execution)
}

/// Which order of the memory operations of an execution a file's turns name; or the first turn that names none.
pub(crate) fn order_named_by(
    alloc: Global,
    file: &ExecutionFile,
    execution: &Execution,
) -> Result<Said, OutOfMemory>
    ensures { IfOk result (IsNamedBy (as_recorded file.now).order execution.now.standing.events) }
{
    match order_named(alloc, execution.events(), &file.order)? {
        Named::Order(indexes) => Ok(Said::Order(Order(indexes))),
        Named::NoOperation(index) => Ok(Said::Fault(unnamed(file, index))),
    }
}

/// A hart did otherwise than is said.
fn otherwise() -> Fault
    ensures { result.misfit ≡ Misfit.Otherwise }
{
    Fault {
        hart: 0,
        step: 0,
        misfit: Misfit::Otherwise,
    }
}

/// The turn at an index names no operation.
fn unnamed(file: &ExecutionFile, index: usize) -> Fault
    ensures { (t : List Event) → NamesNone (as_recorded file.now).order t index →
        IsUnnamed (as_recorded file.now).order t result }
{
    match turn_at(file, index) {
        Some(turn) => Fault {
            hart: turn.hart,
            step: turn.number.unwrap_or(0),
            misfit: Misfit::NoOperation,
        },
        None => Fault {
            hart: 0,
            step: 0,
            misfit: Misfit::NoOperation,
        },
    }
}

/// The turn of the order at an index.
fn turn_at(file: &ExecutionFile, index: usize) -> Option<Turn>
    ensures { result ≡ slice_get file.now.order.items index }
{
    file.order.get(index).copied()
}
