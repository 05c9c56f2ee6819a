ghost use Rattle.std.specs.Prelude.{◌≡◌, ◌≤◌, IfOk, OnOk, length};
ghost use Rattle.execution_file.specs.Views.{as_recorded};
ghost use Rattle.execution_makers.specs.RunFiles.{IsFileFor};

use crate::running::{copied, is_flat};
use execution_checker::{Execution, ScriptedStep};
use execution_file::{ExecutionFile, Turn, deeds, turns_of};
use execution_scripts::{add_call, call_number, forget_plain, open_execution, taken_at};
use host_io::RunError;
use machine::{Format, load};
use memory_order::Order;
use pages::{MOST_PAGES, OutOfMemory};
use round_schedule::MOST_HARTS;
use std::alloc::Global;

/// What a script is of.
#[derive(Clone, Copy)]
pub struct ScriptedGuest<'a> {
    /// How the image is read.
    pub format: Format,
    /// How many pages guest memory has, 1 to 16,384.
    pub pages: u32,
    /// How many harts there are, 1 to 64.
    pub harts: u32,
    /// The program.
    pub image: &'a [u8],
    /// What it reads.
    pub input: &'a [u8],
}

/// The execution that a script leads to from the guest's start, in an order of its memory operations. The order has their indexes in
/// the list of steps that are no stops.
///
/// # Errors
///
/// The refusals of the numbers of harts and pages, then of the image; `OutOfMemory`.
pub fn execution_of_script(
    alloc: Global,
    guest: &ScriptedGuest<'_>,
    script: &[ScriptedStep],
    order: &Order,
) -> Result<ExecutionFile, RunError>
    ensures { IfOk result (λ f. IsFileFor guest.now (as_recorded f)) }
{
    if guest.harts < 1 || guest.harts > MOST_HARTS {
        return Err(RunError::HartsOutOfRange);
    }
    if guest.pages < 1 || guest.pages > MOST_PAGES {
        return Err(RunError::PagesOutOfRange);
    }
    let mut execution = opened(alloc, guest)?;
    let file = file_of(alloc, guest, &mut execution, script, order);
    drop(execution);
    Ok(file?)
}

/// The execution of a guest in which nothing is done yet.
fn opened(alloc: Global, guest: &ScriptedGuest<'_>) -> Result<Execution, RunError>
    requires some_pages { 1 ≤ guest.now.pages }
    requires few_pages { guest.now.pages ≤ MOST_PAGES }
    requires few_harts { guest.now.harts ≤ MOST_HARTS }
    ensures { IfOk result (λ e. length e.standing.harts ≡ guest.now.harts) }
{
    let image = load(alloc, guest.format, guest.image, guest.pages)?;
    let execution = open_execution(alloc, &image, guest.input, guest.harts)?;
    Ok(execution)
}

/// What `execution_of_script` gives, from where the guest's execution begins.
fn file_of(
    alloc: Global,
    guest: &ScriptedGuest<'_>,
    execution: &mut Execution,
    script: &[ScriptedStep],
    order: &Order,
) -> Result<ExecutionFile, OutOfMemory>
    requires { length execution.old.standing.harts ≡ guest.now.harts }
    ensures { IfOk result (λ f. IsFileFor guest.now (as_recorded f)) }
{
    let calls = calls_of(alloc, execution, script)?;
    let harts = deeds(alloc, execution.harts(), execution.events())?;
    let order = turns_of(alloc, execution.events(), &order.0)?;
    let (image, input) = copied(alloc, guest.image, guest.input)?;
    Ok(ExecutionFile {
        flat: is_flat(guest.format),
        pages: guest.pages,
        image,
        input,
        harts,
        calls,
        order,
    })
}

/// Follows a script. Gives the calls in their order.
fn calls_of(
    alloc: Global,
    execution: &mut Execution,
    script: &[ScriptedStep],
) -> Result<Vec<Turn>, OutOfMemory>
    ensures { OnOk result (length execution.new.standing.harts
        ≡ length execution.old.standing.harts) }
{
    let mut calls = Vec::new(alloc);
    for step in script {
        take_step(execution, &mut calls, *step)?;
    }
    forget_plain(&mut calls);
    Ok(calls)
}

/// Takes a step, where the hart has such a one, and adds its call, where it is one.
fn take_step(
    execution: &mut Execution,
    calls: &mut Vec<Turn>,
    step: ScriptedStep,
) -> Result<(), OutOfMemory>
    ensures { OnOk result (length execution.new.standing.harts
        ≡ length execution.old.standing.harts) }
{
    let call = call_number(execution, step.hart);
    let index = execution.instructions().len();
    let _fault = execution.take_step(step)?;
    let taken = taken_at(execution, index, call);
    add_call(calls, step.hart, step.round, taken)?;
    Ok(())
}
