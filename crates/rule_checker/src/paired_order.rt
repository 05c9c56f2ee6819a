ghost use Rattle.std.specs.Prelude.{◌<◌, ◌↔◌, All, IsTrue, IfOk, MatchOption, length};
ghost use Rattle.trace.specs.Traced.{HasForm};
ghost use Rattle.memory_order.specs.Orders.{order_position};
ghost use Rattle.memory_order.specs.Checking.{AreReserved, IsRanking};
ghost use Rattle.rule_checker.specs.Violations.{IsFirstViolation, RespectsAll, RespectsPairAt};

use memory_order::{event_at, last_reserved, paired, position_of};
use pages::OutOfMemory;
use round_schedule::Event;
use std::alloc::Global;

/// The first SC that succeeded and that an order has before the LR that it is paired with: the rule 8 (manual, section 14.1.3).
pub(crate) fn first_by_pair(
    alloc: Global,
    events: &[Event],
    order: &[usize],
    ranks: &[usize],
) -> Result<Option<usize>, OutOfMemory>
    requires formed { All HasForm events.now }
    requires ranked { IsRanking events.now order.now ranks.now }
    ensures { IfOk result (λ first.
        MatchOption first (RespectsAll events.now
        (RespectsPairAt events.now (order_position order.now)))
        (IsFirstViolation events.now (RespectsPairAt events.now (order_position order.now)))) }
{
    let reserved = last_reserved(alloc, events)?;
    for i in 0..events.len() {
        if !respects_pair(events, order, ranks, &reserved, i) {
            return Ok(Some(i));
        }
    }
    Ok(None)
}

fn respects_pair(
    events: &[Event],
    order: &[usize],
    ranks: &[usize],
    reserved: &[usize],
    i: usize,
) -> bool
    requires within { i < length events.now }
    requires formed { All HasForm events.now }
    requires ranked { IsRanking events.now order.now ranks.now }
    requires reserved { AreReserved events.now (length events.now) reserved.now }
    ensures { IsTrue result ↔ RespectsPairAt events.now (order_position order.now) i }
{
    if !event_at(events, i).access.stores() {
        return true;
    }
    match paired(events, reserved, i) {
        None => true,
        Some(reserve) => {
            position_of(events, order, ranks, reserve) < position_of(events, order, ranks, i)
        }
    }
}
