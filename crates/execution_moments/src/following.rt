//! An execution that is followed, with the hart before each instruction.

ghost use Rattle.std.specs.Prelude.{◌≡◌, [], slice_get, IfOk, MatchOption};
ghost use Rattle.pages.specs.Memory.{Memory};
ghost use Rattle.execution.specs.Executions.{Executes, IsLike, Standing};
ghost use Rattle.execution.specs.Progressing.{IsTaken};
ghost use Rattle.execution_checker.specs.Allowed.{BreaksAt, Follows};
ghost use Rattle.execution_moments.specs.Courses.{AreBefore};

use crate::course::HartMoment;
use execution::{Execution, ScriptedStep, StepFault};
use hart_step::Hart;
use pages::OutOfMemory;
use std::alloc::Global;

/// The hart of a number.
fn hart_of(execution: &Execution, number: u8) -> Option<Hart>
    ensures { result ≡ slice_get execution.now.standing.harts number }
{
    execution.harts().get(usize::from(number)).copied()
}

/// The next step of a hart. Where it does an instruction, its moment before that is noted.
fn take_noted(
    execution: &mut Execution,
    moments: &mut Vec<HartMoment>,
    step: ScriptedStep,
) -> Result<Option<StepFault>, OutOfMemory>
    ensures like { (image : Memory) → IsLike image execution.old.memory →
        IsLike image execution.new.memory }
    ensures took { IfOk result (λ fault.
        IsTaken fault execution.old.memory step execution.old.standing execution.new.standing) }
    ensures moments { IfOk result (λ _. (image : Memory) (p : Standing) →
        IsLike image execution.old.memory →
        Executes image p execution.old.standing →
        AreBefore image p execution.old.standing moments.old.items →
        AreBefore image p execution.new.standing moments.new.items) }
{
    let Some(hart) = hart_of(execution, step.hart) else {
        return Ok(Some(StepFault::NoSuchHart));
    };
    match execution.take_step(step)? {
        Some(fault) => Ok(Some(fault)),
        None => {
            let index = moments.len();
            if execution.events().len() > index {
                let number = step.hart;
                let index = Some(index);
                moments.push(HartMoment {
                    number,
                    index,
                    hart,
                })?;
            }
            Ok(None)
        }
    }
}

/// Follows a script, as far as its harts have next steps: the index of the step whose hart has none, and why it has none; and the moment
/// before each instruction.
///
/// # Errors
///
/// `OutOfMemory` alone.
pub(crate) fn follow(
    alloc: Global,
    execution: &mut Execution,
    script: &[ScriptedStep],
) -> Result<(Option<(usize, StepFault)>, Vec<HartMoment>), OutOfMemory>
    requires { execution.old.standing.events ≡ [] }
    ensures followed { IfOk result (λ r. MatchOption r.0
        (Follows execution.old.memory script.now execution.old.standing execution.new.standing)
        (λ b.
        BreaksAt execution.old.memory script.now b.0 b.1 execution.old.standing
        execution.new.standing)) }
    ensures moments { IfOk result (λ r.
        AreBefore execution.old.memory execution.old.standing execution.new.standing r.1.items) }
{
    let mut moments = Vec::new(alloc);
    for index in 0..script.len() {
        match take_noted(execution, &mut moments, script[index])? {
            Some(fault) => return Ok((Some((index, fault)), moments)),
            None => {}
        }
    }
    Ok((None, moments))
}
