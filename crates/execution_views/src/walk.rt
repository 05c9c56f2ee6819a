//! An execution under way, with what is seen of it.

ghost use Rattle.std.specs.Prelude.{◌≡◌, ◌≤◌, [], length, slice_get, IfOk, OnOk, Option};
ghost use Rattle.pages.specs.Memory.{Memory};
ghost use Rattle.execution.specs.Executions.{Executes, IsLike, Standing};
ghost use Rattle.execution.specs.Progressing.{IsTaken};
ghost use Rattle.execution_views.specs.declared.sights.HartStep.{HartStep};
ghost use Rattle.execution_views.specs.Walks.{AreNotes, IsNoted, is_asked_hart, is_asked_step};

use crate::sights::{Before, HartStep, Sights};
use execution::{Execution, ScriptedStep, StepFault};
use hart_step::Hart;
use pages::OutOfMemory;
use std::alloc::Global;

/// What is noted on the way.
#[derive(Drop)]
pub struct Notes {
    /// What was seen so far.
    pub sights: Sights,
    /// How many steps the hart that is asked for has done.
    pub(crate) steps: usize,
}

impl Notes {
    /// Nothing noted yet.
    pub fn new(alloc: Global) -> Notes
        ensures { (image : Memory) (p : Standing) (asked : Option HartStep) → p.events ≡ [] →
            AreNotes image p p asked result }
    {
        Notes {
            sights: Sights {
                pcs: Vec::new(alloc),
                before: None,
            },
            steps: 0,
        }
    }
}

/// The hart of a number.
fn hart_of(execution: &Execution, number: u8) -> Option<Hart>
    ensures { result ≡ slice_get execution.now.standing.harts number }
{
    execution.harts().get(usize::from(number)).copied()
}

/// Whether a hart is the one that is asked for.
fn is_asked_hart(asked: Option<HartStep>, hart: u8) -> bool
    ensures { result ≡ is_asked_hart asked hart }
{
    match asked {
        Some(step) => hart == step.hart,
        None => false,
    }
}

/// Whether a hart's step after so many others is the one that is asked for.
fn is_asked_step(asked: Option<HartStep>, hart: u8, steps: usize) -> bool
    ensures { result ≡ is_asked_step asked hart steps }
{
    match asked {
        Some(step) => hart == step.hart && steps as u64 == step.number,
        None => false,
    }
}

/// Notes an instruction that a hart has done, by what the hart was before it.
fn note(
    notes: &mut Notes,
    asked: Option<HartStep>,
    number: u8,
    hart: Hart,
) -> Result<(), OutOfMemory>
    ensures { OnOk result (notes.old.steps ≤ length notes.old.sights.pcs.items →
        IsNoted asked number hart notes.old notes.new) }
{
    let index = notes.sights.pcs.len();
    notes.sights.pcs.push(hart.pc)?;
    if is_asked_step(asked, number, notes.steps) {
        notes.sights.before = Some(Before { index, hart });
    }
    if is_asked_hart(asked, number) {
        notes.steps = notes.steps.wrapping_add(1);
    }
    Ok(())
}

/// The next step of a hart, as `Execution::take_step` has it, and what is seen of it: the pc of each instruction, and a step of a hart, where
/// one is asked for.
///
/// # Errors
///
/// `OutOfMemory` alone.
pub fn take_noted(
    execution: &mut Execution,
    notes: &mut Notes,
    asked: Option<HartStep>,
    step: ScriptedStep,
) -> Result<Option<StepFault>, OutOfMemory>
    ensures like { (image : Memory) → IsLike image execution.old.memory →
        IsLike image execution.new.memory }
    ensures took { IfOk result (λ fault.
        IsTaken fault execution.old.memory step execution.old.standing execution.new.standing) }
    ensures notes { IfOk result (λ _. (image : Memory) (p : Standing) →
        IsLike image execution.old.memory →
        Executes image p execution.old.standing →
        AreNotes image p execution.old.standing asked notes.old →
        AreNotes image p execution.new.standing asked notes.new) }
{
    let Some(hart) = hart_of(execution, step.hart) else {
        return Ok(Some(StepFault::NoSuchHart));
    };
    match execution.take_step(step)? {
        Some(fault) => Ok(Some(fault)),
        None => {
            if execution.events().len() > notes.sights.pcs.len() {
                note(notes, asked, step.hart, hart)?;
            }
            Ok(None)
        }
    }
}
