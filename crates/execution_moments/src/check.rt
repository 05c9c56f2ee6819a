ghost use Rattle.std.specs.Prelude.{◌≡◌, ◌≢◌, [], All, IfOk, MatchOption, length};
ghost use Rattle.trace.specs.Traced.{opening_at};
ghost use Rattle.memory_order.specs.Orders.{ListsOperations};
ghost use Rattle.execution_checker.specs.Allowed.{IsVerdict};
ghost use Rattle.execution_checker.specs.declared.verdict.Verdict.TheVariants as verdicts;
ghost use Rattle.execution_moments.specs.Courses.{AreBefore, IsCourse, IsCourseOf};

use crate::course::{Course, HartMoment};
use crate::following::follow;
use crate::sequence::sequence_of;
use crate::stopped::add_stopped;
use crate::times::times_of;
use execution_checker::{Execution, ScriptedStep, Verdict, judge};
use memory_order::Order;
use pages::OutOfMemory;
use std::alloc::Global;
use trace::Trace;

/// What `check_execution` says of a script and an order, and, where RVWMO allows the execution, its moments.
///
/// # Errors
///
/// `OutOfMemory` alone.
pub fn check_moments(
    alloc: Global,
    execution: &mut Execution,
    script: &[ScriptedStep],
    opening: &Trace,
    order: &Order,
) -> Result<(Verdict, Option<Course>), OutOfMemory>
    requires no_instructions { execution.old.standing.instructions ≡ [] }
    requires no_events { execution.old.standing.events ≡ [] }
    ensures verdict { IfOk result (λ r.
        IsVerdict r.0 execution.old.memory (opening_at opening.now.opening)
        script.now order.now.0.items execution.old.standing execution.new.standing) }
    ensures course { IfOk result (λ r. MatchOption r.1 (r.0 ≢ verdicts.Allowed)
        (λ c. (r.0 ≡ verdicts.Allowed) ×
        IsCourse execution.old.memory execution.old.standing execution.new.standing
        order.now.0.items c)) }
{
    execution.is_small();
    let (broken, moments) = follow(alloc, execution, script)?;
    if let Some((index, fault)) = broken {
        return Ok((Verdict::Broken { index, fault }, None));
    }
    let verdict = judge(alloc, execution, opening, order)?;
    if verdict != Verdict::Allowed {
        return Ok((verdict, None));
    }
    let course = course_of(alloc, execution, moments, order)?;
    Ok((verdict, Some(course)))
}

/// The moments of an execution, of which those before the instructions are given.
fn course_of(
    alloc: Global,
    execution: &Execution,
    before: Vec<HartMoment>,
    order: &Order,
) -> Result<Course, OutOfMemory>
    requires { ListsOperations execution.now.standing.events order.now.0.items }
    ensures { IfOk result (λ c.
        IsCourseOf before.items execution.now.standing order.now.0.items c) }
{
    let Some(times) = times_of(alloc, execution.events(), order)? else {
        unreachable!()
    };
    let mut moments = before;
    add_stopped(&mut moments, execution.harts())?;
    let sequence = sequence_of(alloc, moments.len(), &times, order.0.len())?;
    let ends = Vec::from_slice(alloc, execution.harts())?;
    Ok(Course {
        moments,
        sequence,
        ends,
    })
}
