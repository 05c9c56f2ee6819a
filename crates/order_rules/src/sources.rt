ghost use Rattle.std.specs.Prelude.{◌≡◌, ◌<◌, MatchOption, length, true};
ghost use Rattle.round_schedule.specs.Positions.{reads_at};
ghost use Rattle.memory_order.specs.Orders.{order_position};
ghost use Rattle.memory_order.specs.Rvwmo.{IsSource};
ghost use Rattle.order_rules.specs.Orders.{AreRanked, HasSources};

use memory_order::{Sources, listed, position_of, source_at};
use round_schedule::Event;

/// The index of the store that the byte at an address is from, where the event at `reader` reads it: that of the latest among those
/// that precede the reader in the order or in program order; none where it is the opening byte.
pub fn source_of(
    events: &[Event],
    order: &[usize],
    ranks: &[usize],
    sources: &Sources,
    reader: usize,
    x: u64,
) -> Option<usize>
    requires ranked { AreRanked events.now order.now ranks.now }
    requires sourced { HasSources events.now order.now sources.now.items }
    requires within { reader < length events.now }
    requires reads { reads_at events.now reader x ≡ true }
    ensures source { IsSource events.now (order_position order.now) reader x result }
    ensures within { MatchOption result (Unit {0}) (λ s. s < length events.now) }
{
    let position = position_of(events, order, ranks, reader);
    let source = source_at(sources, position, x);
    if source == 0 {
        return None;
    }
    Some(listed(events, order, source - 1))
}
