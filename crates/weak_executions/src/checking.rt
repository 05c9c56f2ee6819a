ghost use Rattle.std.specs.Prelude.{◌≡◌, ℕ, ◌≤◌, [], All, IfOk, length, slice_index};
ghost use Rattle.trace.specs.Traced.{HasForm, opening_at};
ghost use Rattle.execution_checker.specs.Allowed.{IsVerdict};
ghost use Rattle.execution_checker.specs.declared.verdict.Verdict.TheVariants.{Allowed};
ghost use Rattle.elf_loader.specs.Image.{memory_of};
ghost use Rattle.execution.specs.Progressing.{at_start};
ghost use Rattle.serial_phase.specs.Opening.{opening_console};
ghost use Rattle.weak_executions.specs.AllowedEnds.{IsAllowedEnd};

use crate::opening::{Opening, copies_of, shared};
use departures::{Placing, Record};
use elf_loader::Image;
use execution_checker::{Execution, ScriptedStep, Verdict, check_execution, follow};
use hart_step::Hart;
use memory_order::Order;
use pages::OutOfMemory;
use round_schedule::MOST_HARTS;
use rule_checker::check_instructions;
use std::alloc::Global;
use trace::Trace;

/// What the checker of executions found of a record.
#[derive(Drop)]
pub struct Finding {
    /// What RVWMO says of it.
    pub verdict: Verdict,
    /// What the harts have come to.
    pub harts: Vec<Hart>,
    /// What was put out.
    pub output: Vec<u8>,
}

/// Puts the record of an execution to the checker of executions, which follows its script from the guest's start. The harts and
/// the output are those that the script leads to.
///
/// # Errors
///
/// `OutOfMemory` alone.
pub fn check(alloc: Global, opening: &Opening<'_>, record: &Record) -> Result<Finding, OutOfMemory>
    requires { length opening.now.harts.now ≤ MOST_HARTS }
    ensures { IfOk result (λ f. f.verdict ≡ Allowed →
        IsAllowedEnd opening.now.image.now opening.now.input.now opening.now.harts.now f.harts.items
        f.output.items) }
{
    check_by(alloc, opening, record, Placing::Earliest)
}

/// The same in the order that the record gives by a rule.
///
/// # Errors
///
/// `OutOfMemory` alone.
pub fn check_by(
    alloc: Global,
    opening: &Opening<'_>,
    record: &Record,
    placing: Placing,
) -> Result<Finding, OutOfMemory>
    requires { length opening.now.harts.now ≤ MOST_HARTS }
    ensures { IfOk result (λ f. f.verdict ≡ Allowed →
        IsAllowedEnd opening.now.image.now opening.now.input.now opening.now.harts.now f.harts.items
        f.output.items) }
{
    let order = record.order_by(alloc, placing)?;
    let trace = opening_trace(alloc, opening.image.image())?;
    let mut execution = opened(alloc, opening)?;
    let finding = find(alloc, &mut execution, record.script(), &trace, &order);
    drop(execution);
    finding
}

/// What the checker finds of a script and an order, where nothing is done yet.
fn find(
    alloc: Global,
    execution: &mut Execution,
    script: &[ScriptedStep],
    opening: &Trace,
    order: &Order,
) -> Result<Finding, OutOfMemory>
    requires no_instructions { execution.old.standing.instructions ≡ [] }
    requires no_events { execution.old.standing.events ≡ [] }
    ensures { IfOk result (λ f.
        IsVerdict f.verdict execution.old.memory (opening_at opening.now.opening)
        script.now order.now.0.items execution.old.standing execution.new.standing ×
        (f.harts.items ≡ execution.new.standing.harts) ×
        (f.output.items ≡ execution.new.standing.console.output)) }
{
    let verdict = check_execution(alloc, execution, script, opening, order)?;
    let harts = Vec::from_slice(alloc, execution.harts())?;
    let output = Vec::from_slice(alloc, execution.output())?;
    Ok(Finding {
        verdict,
        harts,
        output,
    })
}

/// Whether the checker of executions allows a record, in the order that the record gives by a rule. It looks for no reason.
///
/// # Errors
///
/// `OutOfMemory` alone.
pub fn is_allowed(
    alloc: Global,
    opening: &Opening<'_>,
    record: &Record,
    placing: Placing,
) -> Result<bool, OutOfMemory>
    requires { length opening.now.harts.now ≤ MOST_HARTS }
{
    let order = record.order_by(alloc, placing)?;
    let trace = opening_trace(alloc, opening.image.image())?;
    let mut execution = opened(alloc, opening)?;
    let allowed = allows(alloc, &mut execution, record.script(), &trace, &order);
    drop(execution);
    allowed
}

/// Whether RVWMO allows what a script leads to from where nothing is done yet, in an order of its memory operations.
fn allows(
    alloc: Global,
    execution: &mut Execution,
    script: &[ScriptedStep],
    opening: &Trace,
    order: &Order,
) -> Result<bool, OutOfMemory>
    requires no_instructions { execution.old.standing.instructions ≡ [] }
    requires no_events { execution.old.standing.events ≡ [] }
{
    execution.is_small();
    match follow(execution, script)? {
        Some(_) => Ok(false),
        None => meets_rvwmo(alloc, opening, execution, order),
    }
}

/// Whether RVWMO allows what was done, in an order of its memory operations.
fn meets_rvwmo(
    alloc: Global,
    opening: &Trace,
    execution: &Execution,
    order: &Order,
) -> Result<bool, OutOfMemory>
    requires formed { All HasForm execution.now.standing.events }
    requires along { length execution.now.standing.instructions
        ≡ length execution.now.standing.events }
{
    let instructions = execution.instructions();
    let events = execution.events();
    check_instructions(alloc, opening, instructions, events, order)
}

/// The bytes that memory opens with.
fn opening_trace(alloc: Global, image: &Image) -> Result<Trace, OutOfMemory>
    ensures { IfOk result (λ t. (x : ℕ) → opening_at t.opening x ≡ slice_index image.now.bytes x) }
{
    let pieces = copies_of(alloc, image.pieces())?;
    let trace = Trace::new(alloc, pieces);
    Ok(trace)
}

/// The execution of a guest in which nothing is done yet.
fn opened(alloc: Global, opening: &Opening<'_>) -> Result<Execution, OutOfMemory>
    requires { length opening.now.harts.now ≤ MOST_HARTS }
    ensures memory { IfOk result (λ e. e.memory ≡ memory_of opening.now.image.now) }
    ensures standing { IfOk result (λ e. e.standing ≡
        at_start opening.now.harts.now (opening_console opening.now.input.now)) }
{
    let harts = Vec::from_slice(alloc, opening.harts)?;
    let shared = shared(alloc, opening)?;
    Execution::new(alloc, harts, shared)
}
