ghost use Rattle.std.specs.Prelude.{◌≡◌, ◌≤◌, ◌<◌, ◌↔◌, ℕ, All, IsTrue, length, true};
ghost use Rattle.round_schedule.specs.Positions.{reads_at};
ghost use Rattle.trace.specs.Traced.{HasForm, opening_at};
ghost use Rattle.memory_order.specs.Orders.{ListsOperations, order_position};
ghost use Rattle.memory_order.specs.Rvwmo.{MaySee};
ghost use Rattle.memory_order.specs.Checking.{AreSources, IsLeft, IsRanking, left_by, source_of};

use crate::checking::kinds::{event_at, listed, position_of};
use crate::checking::source_bounds::{Sources, source_at};
use round_schedule::Event;
use trace::Trace;

/// Whether each byte of each load is the one that its source left; `sources` has the bounds of the sources.
pub fn loads_are_right(
    trace: &Trace,
    events: &[Event],
    order: &[usize],
    ranks: &[usize],
    sources: &Sources,
) -> bool
    requires formed { All HasForm events.now }
    requires lists { ListsOperations events.now order.now }
    requires ranked { IsRanking events.now order.now ranks.now }
    requires sourced { AreSources events.now order.now
        (MaySee events.now (order_position order.now)) sources.now.items }
    ensures { IsTrue result ↔ ((r x : ℕ) → reads_at events.now r x ≡ true → IsLeft events.now
        (opening_at trace.now.opening) order.now r x (source_of order.now sources.now.items r x)) }
{
    for i in 0..events.len() {
        if !load_is_right(trace, events, order, ranks, sources, i) {
            return false;
        }
    }
    true
}

fn load_is_right(
    trace: &Trace,
    events: &[Event],
    order: &[usize],
    ranks: &[usize],
    sources: &Sources,
    reader: usize,
) -> bool
    requires within { reader < length events.now }
    requires formed { All HasForm events.now }
    requires lists { ListsOperations events.now order.now }
    requires ranked { IsRanking events.now order.now ranks.now }
    requires sourced { AreSources events.now order.now
        (MaySee events.now (order_position order.now)) sources.now.items }
    ensures { IsTrue result ↔ ((x : ℕ) → reads_at events.now reader x ≡ true → IsLeft events.now
        (opening_at trace.now.opening) order.now reader x
        (source_of order.now sources.now.items reader x)) }
{
    let event = event_at(events, reader);
    if !event.access.loads() {
        return true;
    }
    let position = position_of(events, order, ranks, reader);
    let start = event.access.address();
    for k in 0..event.access.byte_count() {
        let source = source_at(sources, position, start + k);
        if event.access.byte_read(start + k) != byte_left(trace, events, order, source, start + k) {
            return false;
        }
    }
    true
}

/// The byte at an address that the store before a position of the order left, or the opening byte for position 0.
fn byte_left(trace: &Trace, events: &[Event], order: &[usize], source: usize, x: u64) -> u8
    requires formed { All HasForm events.now }
    requires lists { ListsOperations events.now order.now }
    requires listed { source ≤ length order.now }
    ensures { result ≡ left_by events.now (opening_at trace.now.opening) order.now x source }
{
    if source == 0 {
        return trace.opening_byte(x);
    }
    let writer = listed(events, order, source - 1);
    let event = event_at(events, writer);
    event.access.byte_written(x)
}
