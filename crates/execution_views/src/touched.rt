//! The operations of an order that touch some bytes.

ghost use Rattle.std.specs.Prelude.{◌≡◌, IfOk, slice_index};
ghost use Rattle.std.specs.List.{list_any};
ghost use Rattle.round_schedule.specs.Positions.{event};
ghost use Rattle.byte_sources.specs.Touching.{touches};
ghost use Rattle.execution_views.specs.Touched.{is_chosen, is_of_hart, is_sought, positions_sought};

use crate::moment::event_of;
use byte_sources::touches;
use memory_order::Order;
use pages::{OutOfMemory, Range};
use round_schedule::{Access, Event};
use std::alloc::Global;

/// Whether the event is of that hart, where one is told.
fn is_of_hart(hart: Option<u32>, event: &Event) -> bool
    ensures { result ≡ is_of_hart hart event.now }
{
    match hart {
        None => true,
        Some(hart) => u32::from(event.hart) == hart,
    }
}

/// Whether it is, and wrote, where only those that did are sought.
fn is_chosen(hart: Option<u32>, only_stores: bool, event: &Event) -> bool
    ensures { result ≡ is_chosen hart only_stores event.now }
{
    is_of_hart(hart, event) && (!only_stores || event.access.stores())
}

fn touches_any(ranges: &[Range], access: &Access) -> bool
    ensures { result ≡ list_any (touches access.now) ranges.now }
{
    ranges.iter().any(|range| touches(access, range))
}

/// Whether an event is sought.
fn is_sought(ranges: &[Range], hart: Option<u32>, only_stores: bool, event: &Event) -> bool
    ensures { result ≡ is_sought ranges.now hart only_stores event.now }
{
    touches_any(ranges, &event.access) && is_chosen(hart, only_stores, event)
}

/// The index at a position of an order; 0 past its end.
pub(crate) fn place_at(order: &[usize], position: usize) -> usize
    ensures { result ≡ slice_index order.now position }
{
    match order.get(position) {
        Some(index) => *index,
        None => 0,
    }
}

/// Whether the operation at a position of an order is sought.
fn is_sought_at(
    events: &[Event],
    order: &[usize],
    ranges: &[Range],
    hart: Option<u32>,
    only_stores: bool,
    position: usize,
) -> bool
    ensures { result ≡ is_sought ranges.now hart only_stores
        (event events.now (slice_index order.now position)) }
{
    let event = event_of(events, place_at(order, position));
    is_sought(ranges, hart, only_stores, &event)
}

/// The positions, in the order of memory, of the operations that touch a byte of one of the ranges: of one hart, where it is told, and
/// of those that wrote alone, with `only_stores`.
///
/// A range ends at its start plus its length, without wrap; an empty one has no bytes.
///
/// # Errors
///
/// `OutOfMemory` alone.
pub fn positions_sought(
    alloc: Global,
    events: &[Event],
    order: &Order,
    ranges: &[Range],
    hart: Option<u32>,
    only_stores: bool,
) -> Result<Vec<usize>, OutOfMemory>
    ensures { IfOk result (λ v.
        v.items ≡ positions_sought events.now order.now.0.items ranges.now hart only_stores) }
{
    let order = order.0.as_slice();
    let positions: Vec<usize> = (0..order.len())
        .filter(|position| is_sought_at(events, order, ranges, hart, only_stores, *position))
        .collect(alloc)?;
    Ok(positions)
}
