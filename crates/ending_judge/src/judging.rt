ghost use Rattle.std.specs.Prelude.{◌≡◌, ℕ, [], All, IfOk, IfSome, length};
ghost use Rattle.std.specs.Bool.{OnTrue};
ghost use Rattle.all_endings.specs.Endings.{opening_bytes};
ghost use Rattle.execution_checker.specs.Allowed.{Allows};
ghost use Rattle.trace.specs.Traced.{HasForm, opening_at};
ghost use Rattle.ending_judge.specs.JudgedEndings.{IsAllowedFrom, ending_in, ranges_of};

use crate::ends::ends_as;
use crate::following::follow_told;
use crate::seeing::seen_after;
use endings_table::{FoundEnding, HartEnd};
use execution_checker::{Execution, ScriptedStep, Verdict, judge};
use hunt_table::SeenRange;
use memory_order::Order;
use pages::OutOfMemory;
use std::alloc::Global;
use trace::Trace;

/// An execution, and how its harts are said to end.
#[derive(Clone, Copy)]
pub struct Proposed<'a> {
    /// The steps.
    pub script: &'a [ScriptedStep],
    /// An order of the memory operations, by their indexes in the list of steps that are no stops.
    pub order: &'a Order,
    /// How each hart is said to end.
    pub ends: &'a [HartEnd],
}

/// The ending that an execution comes to which follows a script, if RVWMO allows it in its order and its harts end as they are said to. Of a
/// hart that is said to wait for ever it is looked at that it hasn't stopped. Nothing is done yet, and memory opens with these bytes.
///
/// # Errors
///
/// `OutOfMemory` alone.
pub fn judge_ending(
    alloc: Global,
    execution: &mut Execution,
    opening: &Trace,
    ranges: &[SeenRange],
    proposed: &Proposed<'_>,
) -> Result<Option<FoundEnding>, OutOfMemory>
    requires no_instructions { execution.old.standing.instructions ≡ [] }
    requires no_events { execution.old.standing.events ≡ [] }
    requires opens { (x : ℕ) → opening_at opening.now.opening x ≡
        opening_bytes execution.old.memory x }
    ensures { IfOk result (λ found. IfSome found (λ e. IsAllowedFrom execution.old.memory
        execution.old.standing (ranges_of ranges.now) (ending_in e))) }
{
    execution.is_small();
    let Some(outputs) = follow_told(alloc, execution, proposed.script)? else {
        return Ok(None);
    };
    if !is_allowed(alloc, execution, opening, proposed.order)? {
        return Ok(None);
    }
    let Some(ends) = ends_as(alloc, execution.harts(), proposed.ends)? else {
        return Ok(None);
    };
    let seen = seen_after(alloc, opening, execution.events(), proposed.order, ranges)?;
    Ok(Some(FoundEnding {
        ends,
        outputs,
        seen,
    }))
}

/// Whether RVWMO allows what was done, in an order of its memory operations.
fn is_allowed(
    alloc: Global,
    execution: &Execution,
    opening: &Trace,
    order: &Order,
) -> Result<bool, OutOfMemory>
    requires formed { All HasForm execution.now.standing.events }
    requires along { length execution.now.standing.instructions ≡
        length execution.now.standing.events }
    ensures { IfOk result (λ yes. OnTrue yes (Allows (opening_at opening.now.opening)
        execution.now.standing order.now.0.items)) }
{
    match judge(alloc, execution, opening, order)? {
        Verdict::Allowed => Ok(true),
        _ => Ok(false),
    }
}
