ghost use Rattle.std.specs.Prelude.{◌≡◌, [], All, IfOk, MatchOption, length};
ghost use Rattle.trace.specs.Traced.{HasForm, opening_at};
ghost use Rattle.execution_checker.specs.Allowed.{BreaksAt, Follows, IsJudged, IsVerdict};

use crate::verdict::Verdict;
use execution::{Execution, ScriptedStep, StepFault};
use memory_order::Order;
use pages::OutOfMemory;
use refusal_reasons::find_refusal;
use rule_checker::check_instructions;
use std::alloc::Global;
use trace::Trace;

/// Follows a script from an execution's start, and says whether RVWMO allows what this leads to, in an order of its memory
/// operations, with all rules of the manual (section 14.1), or else why not.
///
/// The order has the indexes of the operations in the list of steps, counted from 0. Whatever the script says, the harts'
/// instructions are those of the image, as the instruction set has them. `opening` has the bytes that memory opened with.
///
/// The answer is found in a time nearly in line with the steps. The reason of a refusal is then looked for, as `find_refusal` says.
///
/// # Errors
///
/// `OutOfMemory` alone.
pub fn check_execution(
    alloc: Global,
    execution: &mut Execution,
    script: &[ScriptedStep],
    opening: &Trace,
    order: &Order,
) -> Result<Verdict, OutOfMemory>
    requires no_instructions { execution.old.standing.instructions ≡ [] }
    requires no_events { execution.old.standing.events ≡ [] }
    ensures { IfOk result (λ v. IsVerdict v execution.old.memory (opening_at opening.now.opening)
        script.now order.now.0.items execution.old.standing execution.new.standing) }
{
    execution.is_small();
    match follow(execution, script)? {
        Some((index, fault)) => Ok(Verdict::Broken { index, fault }),
        None => judge(alloc, execution, opening, order),
    }
}

/// Whether RVWMO allows what was done, in an order of its memory operations; else why not.
///
/// # Errors
///
/// `OutOfMemory` alone.
pub fn judge(
    alloc: Global,
    execution: &Execution,
    opening: &Trace,
    order: &Order,
) -> Result<Verdict, OutOfMemory>
    requires formed { All HasForm execution.now.standing.events }
    requires along { length execution.now.standing.instructions
        ≡ length execution.now.standing.events }
    ensures { IfOk result (λ v.
        IsJudged v (opening_at opening.now.opening) execution.now.standing order.now.0.items) }
{
    let instructions = execution.instructions();
    let events = execution.events();
    if check_instructions(alloc, opening, instructions, events, order)? {
        return Ok(Verdict::Allowed);
    }
    match find_refusal(alloc, opening, instructions, events, order)? {
        Some(refusal) => Ok(Verdict::Refused(refusal)),
        None => unreachable!(),
    }
}

/// Follows a script, as far as its harts have next steps: the index of the step whose hart has none, and why it has none.
///
/// # Errors
///
/// `OutOfMemory` alone.
pub fn follow(
    execution: &mut Execution,
    script: &[ScriptedStep],
) -> Result<Option<(usize, StepFault)>, OutOfMemory>
    ensures { IfOk result (λ broken. MatchOption broken
        (Follows execution.old.memory script.now execution.old.standing execution.new.standing)
        (λ b.
        BreaksAt execution.old.memory script.now b.0 b.1 execution.old.standing
        execution.new.standing)) }
{
    for index in 0..script.len() {
        let step = script[index];
        match execution.take_step(step)? {
            Some(fault) => return Ok(Some((index, fault))),
            None => {}
        }
    }
    Ok(None)
}
