ghost use Rattle.std.specs.Prelude.{IfOk, MatchOption};
ghost use Rattle.memory_order.specs.Orders.{ListsOperations};
ghost use Rattle.memory_order.specs.Checking.{IsRanking};

use crate::operation::is_operation_at;
use pages::OutOfMemory;
use round_schedule::Event;
use std::alloc::Global;

/// Where each event stands in an order, if the order lists each memory operation once and nothing else.
///
/// An event that is no operation stands at the order's length.
pub fn positions(
    alloc: Global,
    events: &[Event],
    order: &[usize],
) -> Result<Option<Vec<usize>>, OutOfMemory>
    ensures { IfOk result (λ o. MatchOption o (ListsOperations events.now order.now →
        ⊥) (λ r. ListsOperations events.now order.now × IsRanking events.now order.now r.items)) }
{
    let absent = order.len();
    let mut ranks = vec![in alloc; absent; events.len()]?;
    for p in 0..order.len() {
        let index = order[p];
        if !is_operation_at(events, index) || ranks[index] != absent {
            return Ok(None);
        }
        ranks[index] = p;
    }
    for i in 0..events.len() {
        if is_operation_at(events, i) && ranks[i] == absent {
            return Ok(None);
        }
    }
    Ok(Some(ranks))
}
