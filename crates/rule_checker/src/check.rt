ghost use Rattle.std.specs.Prelude.{◌≡◌, ◌↔◌, All, IfOk, IsTrue, length};
ghost use Rattle.trace.specs.Traced.{HasForm, opening_at};
ghost use Rattle.memory_order.specs.Orders.{ListsOperations, order_position};
ghost use Rattle.memory_order.specs.Rvwmo.{AtomicityAxiom, LoadValueAxiom, MeetsRvwmoBy, PreservedOrderBy};
ghost use Rattle.memory_order.specs.Dependencies.{DependencyRule};
ghost use Rattle.memory_order.specs.Checking.{IsRanking};

use crate::own::sources_of_loads;
use crate::violation::first_violation;
use memory_order::{Order, loads_are_right, pairs_are_atomic, positions};
use pages::OutOfMemory;
use round_schedule::Event;
use rv64_decode::Instr;
use std::alloc::Global;
use trace::Trace;

/// Whether an order of the memory operations of instructions meets RVWMO, with all the manual's rules (section 14.1), over the
/// bytes that a trace's memory opened with.
///
/// There is an event for each instruction, in program order of each hart.
///
/// # Errors
///
/// `OutOfMemory` alone.
pub fn check_instructions(
    alloc: Global,
    opening: &Trace,
    instructions: &[Instr],
    events: &[Event],
    order: &Order,
) -> Result<bool, OutOfMemory>
    requires formed { All HasForm events.now }
    requires along { length instructions.now ≡ length events.now }
    ensures { IfOk result (λ yes.
        IsTrue yes ↔ MeetsRvwmoBy (DependencyRule instructions.now events.now)
        events.now (opening_at opening.now.opening) order.now.0.items) }
{
    meets_rvwmo(alloc, opening, instructions, events, &order.0)
}

/// The same of indexes.
fn meets_rvwmo(
    alloc: Global,
    opening: &Trace,
    instructions: &[Instr],
    events: &[Event],
    order: &[usize],
) -> Result<bool, OutOfMemory>
    requires formed { All HasForm events.now }
    requires along { length instructions.now ≡ length events.now }
    ensures { IfOk result (λ yes.
        IsTrue yes ↔ MeetsRvwmoBy (DependencyRule instructions.now events.now)
        events.now (opening_at opening.now.opening) order.now) }
{
    match positions(alloc, events, order)? {
        Some(ranks) => Ok(meets_all(alloc, opening, instructions, events, order, &ranks)?),
        None => Ok(false),
    }
}

/// Whether the axioms hold of an order that lists each memory operation once, each at its rank.
fn meets_all(
    alloc: Global,
    opening: &Trace,
    instructions: &[Instr],
    events: &[Event],
    order: &[usize],
    ranks: &[usize],
) -> Result<bool, OutOfMemory>
    requires formed { All HasForm events.now }
    requires along { length instructions.now ≡ length events.now }
    requires lists { ListsOperations events.now order.now }
    requires ranked { IsRanking events.now order.now ranks.now }
    ensures { IfOk result (λ yes.
        IsTrue yes ↔
        (PreservedOrderBy (DependencyRule instructions.now events.now (order_position order.now))
        events.now (order_position order.now) ×
        LoadValueAxiom events.now (opening_at opening.now.opening) (order_position order.now) ×
        AtomicityAxiom events.now (order_position order.now))) }
{
    let sources = sources_of_loads(alloc, events, order, ranks)?;
    if !loads_are_right(opening, events, order, ranks, &sources) {
        return Ok(false);
    }
    let broken = first_violation(alloc, instructions, events, order, ranks, &sources)?;
    match broken {
        Some(_) => Ok(false),
        None => Ok(pairs_are_atomic(alloc, events, order, ranks, &sources)?),
    }
}
