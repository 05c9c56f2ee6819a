//! What each hart of an execution puts out.

ghost use Rattle.std.specs.Prelude.{◌≡◌, ℕ, [], All, None, drop, length, IfOk, IfSome, OnOk};
ghost use Rattle.std.specs.Global.{Vec as VecOf};
ghost use Rattle.pages.specs.Memory.{Memory};
ghost use Rattle.execution.specs.Executions.{IsLike, Standing};
ghost use Rattle.execution.specs.Progressing.{IsTaken};
ghost use Rattle.ending_judge.specs.JudgedEndings.{AreOutputs, IsPutOut};

use execution_checker::{Execution, ScriptedStep, StepFault};
use pages::OutOfMemory;
use std::alloc::Global;

/// The bytes from a number of them on.
fn from(bytes: &[u8], first: usize) -> &[u8]
    ensures { result.now ≡ drop first bytes.now }
{
    if first < bytes.len() {
        &bytes[first..]
    } else {
        &bytes[bytes.len()..]
    }
}

/// Adds bytes to what a hart put out.
fn put_out(outputs: &mut [Vec<u8>], hart: usize, bytes: &[u8]) -> Result<(), OutOfMemory>
    ensures { OnOk result (IsPutOut hart bytes.now outputs.old outputs.new) }
{
    if hart < outputs.len() {
        outputs[hart].extend_from_slice(bytes)?;
    }
    Ok(())
}

/// The next step of a hart, and what it puts out.
fn take_told(
    execution: &mut Execution,
    outputs: &mut [Vec<u8>],
    step: ScriptedStep,
) -> Result<Option<StepFault>, OutOfMemory>
    ensures like { (image : Memory) → IsLike image execution.old.memory →
        IsLike image execution.new.memory }
    ensures took { IfOk result (λ fault. IsTaken fault execution.old.memory step
        execution.old.standing execution.new.standing) }
    ensures told { IfOk result (λ fault. (image : Memory) (p : Standing) →
        IsLike image execution.old.memory → fault ≡ None →
        AreOutputs image p execution.old.standing outputs.old →
        AreOutputs image p execution.new.standing outputs.new) }
{
    let (done, put) = (execution.events().len(), execution.output().len());
    match execution.take_step(step)? {
        Some(fault) => Ok(Some(fault)),
        None => {
            if execution.events().len() > done {
                put_out(
                    outputs,
                    usize::from(step.hart),
                    from(execution.output(), put),
                )?;
            }
            Ok(None)
        }
    }
}

/// No output of so many harts.
fn no_outputs(alloc: Global, harts: usize) -> Result<Vec<Vec<u8>>, OutOfMemory>
    ensures count { IfOk result (λ v. length v.items ≡ harts) }
    ensures none { IfOk result (λ v. All (λ (o : VecOf ℕ). o.items ≡ []) v.items) }
{
    let mut outputs = Vec::new(alloc);
    for _ in 0..harts {
        outputs.push(Vec::new(alloc))?;
    }
    Ok(outputs)
}

/// Follows a script from an execution's start, and what each hart puts out on the way; none where a hart has no next step.
///
/// # Errors
///
/// `OutOfMemory` alone.
pub(crate) fn follow_told(
    alloc: Global,
    execution: &mut Execution,
    script: &[ScriptedStep],
) -> Result<Option<Vec<Vec<u8>>>, OutOfMemory>
    ensures { IfOk result (λ told. IfSome told (λ v.
        AreOutputs execution.old.memory execution.old.standing execution.new.standing v.items)) }
{
    let mut outputs = no_outputs(alloc, execution.harts().len())?;
    for index in 0..script.len() {
        match take_told(execution, &mut outputs, script[index])? {
            Some(_) => return Ok(None),
            None => {}
        }
    }
    Ok(Some(outputs))
}
