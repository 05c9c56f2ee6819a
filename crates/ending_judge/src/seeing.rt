//! The bytes of memory that an execution leaves.

ghost use Rattle.std.specs.Prelude.{◌≡◌, IfOk, map};
ghost use Rattle.trace.specs.Traced.{opening_at};
ghost use Rattle.all_endings.specs.Endings.{bytes_from, memory_after};

use execution_views::{Moment, bytes_at};
use hunt_table::SeenRange;
use memory_order::Order;
use pages::OutOfMemory;
use round_schedule::Event;
use std::alloc::Global;
use trace::Trace;

/// The bytes of a range after all operations of an order.
fn bytes_after(
    alloc: Global,
    opening: &Trace,
    events: &[Event],
    order: &Order,
    range: &SeenRange,
) -> Result<Vec<u8>, OutOfMemory>
    ensures { IfOk result (λ v. v.items ≡
        bytes_from (memory_after events.now order.now.0.items (opening_at opening.now.opening))
        range.now.address range.now.length) }
{
    let end = Moment {
        hart: 0,
        index: 0,
        position: order.0.as_slice().len(),
    };
    bytes_at(
        alloc,
        opening,
        events,
        order,
        &end,
        range.address,
        range.length,
    )
}

/// The bytes of each range after all operations of an order.
///
/// # Errors
///
/// `OutOfMemory` alone.
pub(crate) fn seen_after(
    alloc: Global,
    opening: &Trace,
    events: &[Event],
    order: &Order,
    ranges: &[SeenRange],
) -> Result<Vec<Vec<u8>>, OutOfMemory>
    ensures { IfOk result (λ v. map (λ bs. bs.items) v.items ≡
        map (λ r. bytes_from (memory_after events.now order.now.0.items
        (opening_at opening.now.opening)) r.address r.length) ranges.now) }
{
    let mut seen = Vec::new(alloc);
    for range in ranges {
        seen.push(bytes_after(alloc, opening, events, order, range)?)?;
    }
    Ok(seen)
}
