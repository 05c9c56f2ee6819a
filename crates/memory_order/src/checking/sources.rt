ghost use Rattle.std.specs.Prelude.{All, IfOk};
ghost use Rattle.trace.specs.Traced.{HasForm};
ghost use Rattle.memory_order.specs.Orders.{ListsOperations, order_position};
ghost use Rattle.memory_order.specs.Rvwmo.{MaySee};
ghost use Rattle.memory_order.specs.Checking.{AreSources, OwnWrite};

use crate::checking::kinds::{event_at, listed};
use crate::checking::noting::note_store;
use crate::checking::source_bounds::{Sources, note_load};
use pages::OutOfMemory;
use round_schedule::Event;
use std::alloc::Global;
use std::collections::BTreeMap;

/// For each load and each of its bytes, the bound of the stores that the byte may be from: so that of its source.
///
/// `sources` are the bounds of the stores of the load's hart before it in the program.
pub fn all_sources(
    alloc: Global,
    events: &[Event],
    order: &[usize],
    mut sources: Sources,
) -> Result<Sources, OutOfMemory>
    requires formed { All HasForm events.now }
    requires lists { ListsOperations events.now order.now }
    requires own { AreSources events.now order.now (OwnWrite events.now) sources.items }
    ensures { IfOk result (λ s.
        AreSources events.now order.now (MaySee events.now (order_position order.now)) s.items) }
{
    // the stores so far, at owner 0
    let mut seen = BTreeMap::new(alloc);
    for p in 0..order.len() {
        let reader = listed(events, order, p);
        let event = event_at(events, reader);
        note_load(&mut sources, p, &event.access, &seen, 0);
        note_store(&mut seen, 0, &event.access, p + 1)?;
    }
    Ok(sources)
}
