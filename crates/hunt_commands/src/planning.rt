ghost use Rattle.std.specs.Prelude.{◌≡◌, ◌⊎◌, ◌++◌, Err, IfErr, IfOk, List, OnErr, true, ℕ};
ghost use Rattle.host_io.specs.Taken.{BeganText};
ghost use Rattle.host_io.specs.declared.error.RunError.TheVariants as refusals;
ghost use Rattle.hunt_commands.specs.Plans.{EndsPlan, has_bad_harts, IsAskedPlan};
ghost use Rattle.program_files.specs.Failures.{HasFailed};
ghost use Rattle.program_files.specs.declared.failure.CommandFailure.TheVariants as failures;
ghost use Rattle.program_files.specs.declared.exit_status.ExitStatus.TheVariants as statuses;

use crate::repeating::tell_plan;
use command_line::Plan;
use host_io::{RunError, put_all};
use program_files::{AskedPlan, CommandFailure, ExitStatus, Output, World, family_plan};
use round_planner::Family;
use round_schedule::MOST_HARTS;
use std::alloc::Global;

/// Prints a plan of the family. Standard error says its budget, which a plan's text has no place for, and the line that runs a program
/// by it.
///
/// # Errors
///
/// `HartsOutOfRange`, `OutOfMemory` and `SinkFailed`.
pub fn plan_command<W: World, O: Output>(
    alloc: Global,
    world: &W,
    asked: &Plan,
    out: &mut O,
) -> Result<ExitStatus, CommandFailure>
    // All that was printed is the text of the plan that the line asks for.
    ensures plans { IfOk result (λ status. (text : List ℕ) × IsAskedPlan asked.now text ×
        (O.took out.new ≡ O.took out.old ++ text) × O.is_out out.new × (status ≡ statuses.Done)) }
    // Else nothing was printed, or a beginning of it.
    ensures begun { OnErr result ((O.took out.new ≡ O.took out.old) ⊎
        ((text : List ℕ) × IsAskedPlan asked.now text ×
        BeganText (O.took out.old) (O.took out.new) text)) }
    ensures harts { has_bad_harts asked.now.harts ≡ true →
        result ≡ Err (failures.Refused refusals.HartsOutOfRange) }
    ensures errors { IfErr result (EndsPlan asked.now
        (HasFailed O.failures O.is_stuck out.old out.new)) }
{
    let plan = asked_plan(alloc, asked)?;
    put_all(out, plan.text.as_slice())?;
    out.hand_on()?;
    tell_plan(asked, plan.budget, world);
    Ok(ExitStatus::Done)
}

/// The plan that the line asks for.
fn asked_plan(alloc: Global, asked: &Plan) -> Result<AskedPlan, CommandFailure>
    ensures plan { IfOk result (λ p. IsAskedPlan asked.now p.text.items) }
    ensures harts { has_bad_harts asked.now.harts ≡ true →
        result ≡ Err (failures.Refused refusals.HartsOutOfRange) }
    ensures errors { IfErr result (EndsPlan asked.now ⊥) }
{
    if asked.harts < 1 || asked.harts > MOST_HARTS {
        return Err(CommandFailure::Refused(RunError::HartsOutOfRange));
    }
    let family = Family {
        seed: asked.seed,
        harts: asked.harts,
    };
    Ok(family_plan(alloc, family, asked.number)?)
}
