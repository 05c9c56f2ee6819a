ghost use Rattle.std.specs.Prelude.{All, IfOk, MatchOption};
ghost use Rattle.trace.specs.Traced.{HasForm};
ghost use Rattle.memory_order.specs.Orders.{ListsOperations, order_position};
ghost use Rattle.memory_order.specs.Checking.{AreSources, IsRanking, OwnWrite};
ghost use Rattle.memory_order.specs.CheckingProgram.{RespectsOverlap};

use crate::checking::kinds::{event_at, position_of};
use crate::checking::noting::{may_store, note_store};
use crate::checking::source_bounds::{Sources, note_load};
use pages::OutOfMemory;
use round_schedule::Event;
use std::alloc::Global;
use std::collections::BTreeMap;

/// For each load and each of its bytes, the bound of the hart's stores to the byte before the load in the program.
///
/// `None` where two stores of a hart to one byte do not stand in the order as in the program.
pub fn own_stores(
    alloc: Global,
    events: &[Event],
    order: &[usize],
    ranks: &[usize],
) -> Result<Option<Sources>, OutOfMemory>
    requires formed { All HasForm events.now }
    requires lists { ListsOperations events.now order.now }
    requires ranked { IsRanking events.now order.now ranks.now }
    ensures { IfOk result (λ o.
        MatchOption o (RespectsOverlap events.now (order_position order.now) →
        ⊥) (λ s. RespectsOverlap events.now (order_position order.now) ×
        AreSources events.now order.now (OwnWrite events.now) s.items)) }
{
    let mut own = BTreeMap::new(alloc);
    let mut sources = vec![in alloc; [0; 8]; order.len()]?;
    for i in 0..events.len() {
        let event = event_at(events, i);
        let hart = u64::from(event.hart);
        let position = position_of(events, order, ranks, i);
        if !may_store(&own, hart, &event.access, position) {
            return Ok(None);
        }
        note_load(&mut sources, position, &event.access, &own, hart);
        note_store(&mut own, hart, &event.access, position + 1)?;
    }
    Ok(Some(sources))
}
