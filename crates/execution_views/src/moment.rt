//! Memory at a moment of an execution, as a hart sees it.

ghost use Rattle.std.specs.Prelude.{◌≡◌, ◌<◌, IfOk, length, slice_index};
ghost use Rattle.memory_order.specs.Orders.{order_position};
ghost use Rattle.round_schedule.specs.Positions.{event};
ghost use Rattle.trace.specs.Traced.{opening_at};
ghost use Rattle.execution_views.specs.Moments.{byte_at, bytes_at, is_next_of, may_read, moment_of, next_operation, position_of, source_at};

use byte_sources::{no_event, writes};
use memory_order::{Order, is_operation};
use pages::OutOfMemory;
use round_schedule::Event;
use std::alloc::Global;
use trace::Trace;

/// A moment of a hart in an execution: which of its instructions it has done, and which operations precede it in the order of memory.
#[derive(Clone, Copy)]
pub struct Moment {
    /// The hart.
    pub hart: u8,
    /// The hart has done those of its instructions that are before this index in the list of all.
    pub index: usize,
    /// How many operations of the order precede the moment.
    pub position: usize,
}

/// The event at an index; past the end of the list a fence that orders nothing.
pub(crate) fn event_of(events: &[Event], index: usize) -> Event
    ensures { result ≡ event events.now index }
{
    match events.get(index) {
        Some(event) => *event,
        None => no_event(),
    }
}

/// Whether the event at an index is a memory operation of the hart of that at another.
fn is_next_of(events: &[Event], index: usize, later: usize) -> bool
    ensures { result ≡ is_next_of events.now index later }
{
    let next = event_of(events, later);
    next.hart == event_of(events, index).hart && is_operation(&next)
}

/// The index of the first memory operation of a hart from an instruction of it on.
fn next_operation(events: &[Event], index: usize) -> Option<usize>
    ensures { result ≡ next_operation events.now index }
{
    if index >= events.len() {
        return None;
    }
    for later in index..events.len() {
        if is_next_of(events, index, later) {
            return Some(later);
        }
    }
    None
}

/// Where an index stands in an order; the order's length where it doesn't.
fn position_in(order: &[usize], sought: usize) -> usize
    ensures { result ≡ order_position order.now sought }
{
    for position in 0..order.len() {
        if order[position] == sought {
            return position;
        }
    }
    order.len()
}

/// Where an operation stands in an order; at its end where there is none.
fn position_of(order: &[usize], operation: Option<usize>) -> usize
    ensures { result ≡ position_of order.now operation }
{
    match operation {
        Some(index) => position_in(order, index),
        None => order.len(),
    }
}

/// The moment of an instruction: before it, and where its hart's next memory operation stands in the order, which is the instruction
/// itself where it is one. It is the order's end where the hart does no further one.
pub fn moment_of(events: &[Event], order: &Order, index: usize) -> Moment
    ensures { result ≡ moment_of events.now order.now.0.items index }
{
    let position = position_of(&order.0, next_operation(events, index));
    Moment {
        hart: event_of(events, index).hart,
        index,
        position,
    }
}

/// Whether a load of a hart at a moment may read a byte of the operation at a position of the order.
fn may_read(
    events: &[Event],
    order: &[usize],
    moment: &Moment,
    address: u64,
    position: usize,
) -> bool
    requires { position < length order.now }
    ensures { result ≡ may_read events.now order.now moment.now address position }
{
    let index = order[position];
    let event = event_of(events, index);
    writes(&event.access, address)
        && (position < moment.position || (index < moment.index && event.hart == moment.hart))
}

/// The index of the operation that the byte at an address is from; `None` where it is as memory opened.
fn source_at(events: &[Event], order: &[usize], moment: &Moment, address: u64) -> Option<usize>
    ensures { result ≡ source_at events.now order.now moment.now address }
{
    let mut position = order.len();
    while position > 0 {
        position -= 1;
        if may_read(events, order, moment, address, position) {
            return Some(order[position]);
        }
    }
    None
}

/// The byte at an address, as a hart sees it at a moment.
fn byte_at(opening: &Trace, events: &[Event], order: &[usize], moment: &Moment, address: u64) -> u8
    ensures { result ≡ byte_at events.now (opening_at opening.now.opening) order.now moment.now
        address }
{
    match source_at(events, order, moment, address) {
        Some(index) => event_of(events, index).access.byte_written(address),
        None => opening.opening_byte(address),
    }
}

/// So many bytes from an address on, as a hart sees them at a moment: as a load of the hart would read them that stands there in the
/// order.
///
/// # Errors
///
/// `OutOfMemory` alone.
pub fn bytes_at(
    alloc: Global,
    opening: &Trace,
    events: &[Event],
    order: &Order,
    moment: &Moment,
    first: u32,
    count: u32,
) -> Result<Vec<u8>, OutOfMemory>
    ensures { IfOk result (λ v. v.items ≡
        bytes_at events.now (opening_at opening.now.opening) order.now.0.items moment.now first
        count) }
{
    let first = u64::from(first);
    let end = first + u64::from(count);
    let order = order.0.as_slice();
    let bytes: Vec<u8> = (first..end)
        .map(|address| byte_at(opening, events, order, moment, address))
        .collect(alloc)?;
    Ok(bytes)
}
