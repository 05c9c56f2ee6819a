//! Whether a rule of preserved program order orders two operations of a hart.

ghost use Rattle.std.specs.Prelude.{◌≡◌, ◌↔◌, ◌<◌, IsTrue, MatchOption, length};
ghost use Rattle.round_schedule.specs.Positions.{ProgramBefore};
ghost use Rattle.memory_order.specs.Orders.{order_position};
ghost use Rattle.order_rules.specs.Orders.{AreRanked, Asks, HasSources, IsFirstRule, NoneAsks, is_annotated};

use crate::access::{is_acquire, is_amo_or_sc};
use crate::between::{are_paired, is_fenced};
use crate::bytes::{differ, overlap, returns};
use crate::depending::{
    depends_by_address, depends_by_control, depends_by_data, forwards, is_addressed_between,
};
use crate::rule::{OrderRule, RULES};
use memory_order::{Sources, event_at, is_release};
use round_schedule::{Access, Event};
use rv64_decode::Instr;

/// The first rule that orders the operation at `a` before that at `b`, if there is one.
pub fn first_rule(
    instructions: &[Instr],
    events: &[Event],
    order: &[usize],
    ranks: &[usize],
    sources: &Sources,
    a: usize,
    b: usize,
) -> Option<OrderRule>
    requires along { length instructions.now ≡ length events.now }
    requires ranked { AreRanked events.now order.now ranks.now }
    requires sourced { HasSources events.now order.now sources.now.items }
    requires within { b < length events.now }
    requires before { ProgramBefore events.now a b }
    ensures { MatchOption result (NoneAsks instructions.now events.now (order_position order.now)
        a b)
        (λ rule. IsFirstRule rule instructions.now events.now (order_position order.now) a b) }
{
    for rule in RULES {
        if asks(rule, instructions, events, order, ranks, sources, a, b) {
            return Some(rule);
        }
    }
    None
}

pub(crate) fn asks(
    rule: OrderRule,
    instructions: &[Instr],
    events: &[Event],
    order: &[usize],
    ranks: &[usize],
    sources: &Sources,
    a: usize,
    b: usize,
) -> bool
    requires along { length instructions.now ≡ length events.now }
    requires ranked { AreRanked events.now order.now ranks.now }
    requires sourced { HasSources events.now order.now sources.now.items }
    requires within { b < length events.now }
    requires before { ProgramBefore events.now a b }
    ensures { IsTrue result ↔ Asks rule instructions.now events.now (order_position order.now) a b }
{
    let first = event_at(events, a).access;
    let second = event_at(events, b).access;
    match rule {
        OrderRule::OverlappingStore => second.stores() && overlap(&first, &second),
        OrderRule::DifferentWrites => differ(events, order, ranks, sources, a, b),
        OrderRule::ReturnsAtomic => is_amo_or_sc(&first)
            && returns(events, order, ranks, sources, a, b),
        OrderRule::Fenced => is_fenced(events, a, b),
        OrderRule::Acquired => is_acquire(&first),
        OrderRule::Released => is_release(&second),
        OrderRule::BothAnnotated => is_annotated(&first) && is_annotated(&second),
        OrderRule::Paired => are_paired(events, a, b),
        OrderRule::ByAddress => depends_by_address(instructions, events, a, b),
        OrderRule::ByData => second.stores() && depends_by_data(instructions, events, a, b),
        OrderRule::ByControl => second.stores() && depends_by_control(instructions, events, a, b),
        OrderRule::ByForwarding => forwards(instructions, events, order, ranks, sources, a, b),
        OrderRule::ByAddressBetween => {
            second.stores() && is_addressed_between(instructions, events, a, b)
        }
    }
}

fn is_annotated(access: &Access) -> bool
    ensures { result ≡ is_annotated access.now }
{
    is_acquire(access) || is_release(access)
}
