ghost use Rattle.std.specs.Prelude.{◌≡◌, ℕ, IfOk, length, filter};
ghost use Rattle.std.specs.List.{range_with_len};
ghost use Rattle.round_schedule.specs.Positions.{event};
ghost use Rattle.round_schedule.specs.RoundTrace.{IsRoundTrace};
ghost use Rattle.memory_order.specs.Operations.{is_operation};
ghost use Rattle.memory_order.specs.Orders.{ListsOperations, order_position};
ghost use Rattle.memory_order.specs.ProgramOrder.{RespectsProgramOrder};
ghost use Rattle.memory_order.specs.RoundOrder.{IsRoundOrder};
ghost use Rattle.memory_order.specs.Rvwmo.{MeetsRvwmo};

use crate::operation::{is_operation_at, rank_at};
use pages::OutOfMemory;
use round_schedule::Event;
use std::alloc::Global;
use trace::Trace;

/// Indexes in a trace, in an order of its memory operations.
#[derive(PartialEq, Eq, Drop)]
pub struct Order(pub Vec<usize>);

/// An order of the memory operations of a trace that meets RVWMO where the trace is that of a run in rounds.
///
/// It takes the parallel loads of each round, then its parallel stores, and then its serial operations, each as they
/// stand in the trace. So of a hart's operations it exchanges only a store with a later load of one parallel phase.
///
/// # Errors
///
/// `OutOfMemory` alone.
pub fn memory_order(alloc: Global, trace: &Trace) -> Result<Order, OutOfMemory>
    ensures ordered { IfOk result (λ o. IsRoundOrder trace.now.events o.0.items) }
    ensures lists { IfOk result (λ o. ListsOperations trace.now.events o.0.items) }
    ensures meets { IfOk result (λ o. (opening : ℕ → ℕ) (budget : ℕ) → IsRoundTrace trace.now.events
        opening budget → MeetsRvwmo trace.now.events opening o.0.items) }
    ensures program { IfOk result (λ o. (opening : ℕ → ℕ) (budget : ℕ) → IsRoundTrace
        trace.now.events opening budget →
        RespectsProgramOrder trace.now.events (order_position o.0.items)) }
{
    let events = trace.to_vec(alloc)?;
    Ok(Order(by_rounds(alloc, &events)?))
}

/// The order by rounds of the memory operations of a list of events.
fn by_rounds(alloc: Global, events: &[Event]) -> Result<Vec<usize>, OutOfMemory>
    ensures { IfOk result (λ v. IsRoundOrder events.now v.items) }
{
    let mut order = operations(alloc, events)?;
    order.sort_by_key(|index| rank_at(events, *index))?;
    Ok(order)
}

/// The indexes of the memory operations, in rising order.
fn operations(alloc: Global, events: &[Event]) -> Result<Vec<usize>, OutOfMemory>
    ensures { IfOk result (λ v. v.items ≡
        filter (λ i. is_operation (event events.now i)) (range_with_len 0 (length events.now))) }
{
    let places: Vec<usize> = (0..events.len())
        .filter(|index| is_operation_at(events, *index))
        .collect(alloc)?;
    Ok(places)
}
