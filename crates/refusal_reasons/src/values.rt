ghost use Rattle.std.specs.Prelude.{◌≡◌, ◌<◌, MatchOption, Option, length, true, false};
ghost use Rattle.round_schedule.specs.Positions.{reads_at, source_byte};
ghost use Rattle.trace.specs.Traced.{opening_at};
ghost use Rattle.memory_order.specs.Orders.{order_position};
ghost use Rattle.memory_order.specs.Rvwmo.{LoadValueAxiom};
ghost use Rattle.order_rules.specs.Orders.{AreRanked, HasSources};
ghost use Rattle.refusal_reasons.specs.Reasons.{IsRight, IsWrong, IsRightLoad};

use memory_order::{Sources, event_at};
use order_rules::source_of;
use round_schedule::Event;
use trace::Trace;

/// A byte that a load read.
#[derive(Clone, Copy)]
pub(crate) struct ByteRead {
    pub(crate) load: usize,
    pub(crate) address: u64,
}

/// The first byte of the first load that isn't the one that its source wrote.
pub(crate) fn find_wrong(
    opening: &Trace,
    events: &[Event],
    order: &[usize],
    ranks: &[usize],
    sources: &Sources,
) -> Option<ByteRead>
    requires ranked { AreRanked events.now order.now ranks.now }
    requires sourced { HasSources events.now order.now sources.now.items }
    ensures { MatchOption result (LoadValueAxiom events.now (opening_at opening.now.opening)
        (order_position order.now))
        (λ w.
        IsWrong events.now (opening_at opening.now.opening) (order_position order.now) w.load
        w.address) }
{
    for load in 0..events.len() {
        match find_wrong_at(opening, events, order, ranks, sources, load) {
            Some(address) => return Some(ByteRead { load, address }),
            None => {}
        }
    }
    None
}

/// The first byte of one load.
fn find_wrong_at(
    opening: &Trace,
    events: &[Event],
    order: &[usize],
    ranks: &[usize],
    sources: &Sources,
    load: usize,
) -> Option<u64>
    requires ranked { AreRanked events.now order.now ranks.now }
    requires sourced { HasSources events.now order.now sources.now.items }
    requires within { load < length events.now }
    ensures { MatchOption result (IsRightLoad events.now (opening_at opening.now.opening)
        (order_position order.now) load)
        (λ x.
        IsWrong events.now (opening_at opening.now.opening) (order_position order.now) load x) }
{
    let event = event_at(events, load);
    if !event.access.loads() {
        return None;
    }
    let start = event.access.address();
    for k in 0..event.access.byte_count() {
        if !is_right(opening, events, order, ranks, sources, load, start + k) {
            return Some(start + k);
        }
    }
    None
}

/// Whether a byte that a load reads is the one that its source wrote.
fn is_right(
    opening: &Trace,
    events: &[Event],
    order: &[usize],
    ranks: &[usize],
    sources: &Sources,
    load: usize,
    x: u64,
) -> bool
    requires ranked { AreRanked events.now order.now ranks.now }
    requires sourced { HasSources events.now order.now sources.now.items }
    requires within { load < length events.now }
    requires reads { reads_at events.now load x ≡ true }
    ensures right { result ≡ true →
        IsRight events.now (opening_at opening.now.opening) (order_position order.now) load x }
    ensures wrong { result ≡ false →
        IsWrong events.now (opening_at opening.now.opening) (order_position order.now) load x }
{
    let source = source_of(events, order, ranks, sources, load, x);
    events[load].access.byte_read(x) == byte_left(opening, events, source, x)
}

/// The byte at an address that the store at an index left; the opening byte where there is none.
fn byte_left(opening: &Trace, events: &[Event], source: Option<usize>, x: u64) -> u8
    requires { MatchOption source (Unit {0}) (λ s. s < length events.now) }
    ensures { result ≡ source_byte events.now (opening_at opening.now.opening) x source }
{
    match source {
        Some(s) => events[s].access.byte_written(x),
        None => opening.opening_byte(x),
    }
}
