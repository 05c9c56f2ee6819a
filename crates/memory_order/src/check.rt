ghost use Rattle.std.specs.Prelude.{◌↔◌, All, IfOk, IsTrue};
ghost use Rattle.trace.specs.Traced.{HasForm, opening_at};
ghost use Rattle.memory_order.specs.Orders.{ListsOperations, order_position};
ghost use Rattle.memory_order.specs.Rvwmo.{AtomicityAxiom, LoadValueAxiom, MeetsRvwmo, PreservedOrder};
ghost use Rattle.memory_order.specs.Checking.{IsRanking};

use crate::checking::{
    all_sources, loads_are_right, own_stores, pairs_are_atomic, positions, respects_but_overlap,
};
use crate::order::Order;
use pages::OutOfMemory;
use round_schedule::Event;
use std::alloc::Global;
use trace::Trace;

/// Whether an order of a trace's memory operations meets RVWMO over the bytes that memory opened with, with one wider rule in place
/// of the manual's rules 9 to 13, on dependencies (section 14.1): a yes stands for the manual's rules too.
///
/// The order may have any indexes at all: it meets the memory model only if it has that of each memory operation once,
/// and no other. The steps are as many as the bytes of the trace's accesses, with a few looks into maps for each access.
///
/// # Errors
///
/// `OutOfMemory` alone.
pub fn check_order(alloc: Global, trace: &Trace, order: &Order) -> Result<bool, OutOfMemory>
    ensures { IfOk result (λ yes. IsTrue yes ↔
        MeetsRvwmo trace.now.events (opening_at trace.now.opening) order.now.0.items) }
{
    let events = trace.to_vec(alloc)?;
    meets_rvwmo(alloc, trace, &events, &order.0)
}

/// Whether an order of memory operations meets RVWMO over the bytes that a trace's memory opened with.
fn meets_rvwmo(
    alloc: Global,
    trace: &Trace,
    events: &[Event],
    order: &[usize],
) -> Result<bool, OutOfMemory>
    requires { All HasForm events.now }
    ensures { IfOk result (λ yes. IsTrue yes ↔
        MeetsRvwmo events.now (opening_at trace.now.opening) order.now) }
{
    match positions(alloc, events, order)? {
        Some(ranks) => Ok(meets_axioms(alloc, trace, events, order, &ranks)?),
        None => Ok(false),
    }
}

/// Whether the axioms hold of an order that lists each memory operation once, each at its rank.
fn meets_axioms(
    alloc: Global,
    trace: &Trace,
    events: &[Event],
    order: &[usize],
    ranks: &[usize],
) -> Result<bool, OutOfMemory>
    requires formed { All HasForm events.now }
    requires lists { ListsOperations events.now order.now }
    requires ranked { IsRanking events.now order.now ranks.now }
    ensures { IfOk result (λ yes.
        IsTrue yes ↔ (PreservedOrder events.now (order_position order.now) ×
        LoadValueAxiom events.now (opening_at trace.now.opening) (order_position order.now) ×
        AtomicityAxiom events.now (order_position order.now))) }
{
    if !respects_but_overlap(alloc, events, order, ranks)? {
        return Ok(false);
    }
    let own = match own_stores(alloc, events, order, ranks)? {
        Some(own) => own,
        None => return Ok(false),
    };
    let sources = all_sources(alloc, events, order, own)?;
    if !loads_are_right(trace, events, order, ranks, &sources) {
        return Ok(false);
    }
    Ok(pairs_are_atomic(alloc, events, order, ranks, &sources)?)
}
