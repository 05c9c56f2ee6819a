ghost use Rattle.std.specs.Prelude.{◌≡◌, ◌↔◌, ◌<◌, IfOk, IsTrue, MatchOption, length};
ghost use Rattle.memory_order.specs.Orders.{order_position};
ghost use Rattle.memory_order.specs.Rvwmo.{PreservedOrderBy};
ghost use Rattle.memory_order.specs.Dependencies.{DependencyRule};
ghost use Rattle.rule_checker.specs.Violations.{IsFirstViolation, PreservedAt};
ghost use Rattle.order_rules.specs.Orders.{AreRanked, HasSources, IsFirstRule};
ghost use Rattle.order_rules.specs.Behind.{AreCandidates};
ghost use Rattle.order_rules.specs.declared.rule.OrderRule.{OrderRule};
ghost use Rattle.refusal_reasons.specs.Reasons.{IsBroken, IsFirstBroken, IsFirstBrokenAt, IsTurned, NoneBrokenAt};

use memory_order::{Sources, is_operation, position_of};
use order_rules::{OrderRule, find_candidates, first_rule};
use pages::OutOfMemory;
use round_schedule::Event;
use rule_checker::first_violation;
use rv64_decode::Instr;
use std::alloc::Global;

/// Two operations of a hart that break a rule of preserved program order.
#[derive(Clone, Copy)]
pub(crate) struct BrokenPair {
    pub(crate) rule: OrderRule,
    pub(crate) first: usize,
    pub(crate) second: usize,
}

/// The first two operations that break a rule: of the least second index, of these the ones of the least first index, and the first
/// rule that they break.
pub(crate) fn find_broken(
    alloc: Global,
    instructions: &[Instr],
    events: &[Event],
    order: &[usize],
    ranks: &[usize],
    sources: &Sources,
) -> Result<Option<BrokenPair>, OutOfMemory>
    requires along { length instructions.now ≡ length events.now }
    requires ranked { AreRanked events.now order.now ranks.now }
    requires sourced { HasSources events.now order.now sources.now.items }
    ensures { IfOk result (λ pair. MatchOption pair
        (PreservedOrderBy (DependencyRule instructions.now events.now (order_position order.now))
        events.now (order_position order.now))
        (λ p.
        IsFirstBroken p.rule instructions.now events.now (order_position order.now) p.first
        p.second)) }
{
    let violation = first_violation(alloc, instructions, events, order, ranks, sources)?;
    match violation {
        Some(second) => {
            let pair = first_broken_at(alloc, instructions, events, order, ranks, sources, second)?;
            Ok(Some(pair))
        }
        None => Ok(None),
    }
}

/// The first two operations that break a rule, where the second is known.
fn first_broken_at(
    alloc: Global,
    instructions: &[Instr],
    events: &[Event],
    order: &[usize],
    ranks: &[usize],
    sources: &Sources,
    second: usize,
) -> Result<BrokenPair, OutOfMemory>
    requires along { length instructions.now ≡ length events.now }
    requires ranked { AreRanked events.now order.now ranks.now }
    requires sourced { HasSources events.now order.now sources.now.items }
    requires second { IsFirstViolation events.now
        (PreservedAt (DependencyRule instructions.now events.now (order_position order.now))
        events.now (order_position order.now)) second }
    ensures { IfOk result (λ p.
        IsFirstBroken p.rule instructions.now events.now (order_position order.now) p.first
        p.second) }
{
    let may = find_candidates(alloc, instructions, events, order, ranks, sources, second)?;
    match find_broken_at(instructions, events, order, ranks, sources, &may, second) {
        Some(pair) => Ok(pair),
        None => unreachable!(),
    }
}

/// The same with a given second index, and with the candidates for the first.
fn find_broken_at(
    instructions: &[Instr],
    events: &[Event],
    order: &[usize],
    ranks: &[usize],
    sources: &Sources,
    may: &[bool],
    second: usize,
) -> Option<BrokenPair>
    requires along { length instructions.now ≡ length events.now }
    requires ranked { AreRanked events.now order.now ranks.now }
    requires sourced { HasSources events.now order.now sources.now.items }
    requires within { second < length events.now }
    requires candidates { AreCandidates instructions.now events.now (order_position order.now)
        second 0 may.now }
    ensures at { MatchOption result (Unit {0}) (λ p. p.second ≡ second) }
    ensures first { MatchOption result (NoneBrokenAt instructions.now events.now
        (order_position order.now) second second)
        (λ p.
        IsFirstBrokenAt p.rule instructions.now events.now (order_position order.now) p.first
        second) }
{
    for first in 0..second {
        match broken_by_candidate(
            instructions,
            events,
            order,
            ranks,
            sources,
            may,
            first,
            second,
        ) {
            Some(rule) => {
                return Some(BrokenPair {
                    rule,
                    first,
                    second,
                });
            }
            None => {}
        }
    }
    None
}

/// The first rule that two indexes break, if they break one; none where the first is no candidate.
fn broken_by_candidate(
    instructions: &[Instr],
    events: &[Event],
    order: &[usize],
    ranks: &[usize],
    sources: &Sources,
    may: &[bool],
    first: usize,
    second: usize,
) -> Option<OrderRule>
    requires along { length instructions.now ≡ length events.now }
    requires ranked { AreRanked events.now order.now ranks.now }
    requires sourced { HasSources events.now order.now sources.now.items }
    requires within { second < length events.now }
    requires earlier { first < second }
    requires candidates { AreCandidates instructions.now events.now (order_position order.now)
        second 0 may.now }
    ensures { MatchOption result
        ((rule : OrderRule) →
        IsBroken rule instructions.now events.now (order_position order.now) first second → ⊥)
        (λ rule. IsTurned events.now (order_position order.now) first second ×
        IsFirstRule rule instructions.now events.now (order_position order.now) first second) }
{
    if !may[first] {
        return None;
    }
    broken_rule(instructions, events, order, ranks, sources, first, second)
}

/// The first rule that two indexes break, if they break one.
fn broken_rule(
    instructions: &[Instr],
    events: &[Event],
    order: &[usize],
    ranks: &[usize],
    sources: &Sources,
    first: usize,
    second: usize,
) -> Option<OrderRule>
    requires along { length instructions.now ≡ length events.now }
    requires ranked { AreRanked events.now order.now ranks.now }
    requires sourced { HasSources events.now order.now sources.now.items }
    requires within { second < length events.now }
    requires earlier { first < second }
    ensures { MatchOption result
        ((rule : OrderRule) →
        IsBroken rule instructions.now events.now (order_position order.now) first second → ⊥)
        (λ rule. IsTurned events.now (order_position order.now) first second ×
        IsFirstRule rule instructions.now events.now (order_position order.now) first second) }
{
    if !is_turned(events, order, ranks, first, second) {
        return None;
    }
    first_rule(instructions, events, order, ranks, sources, first, second)
}

/// Whether these are memory operations of one hart, and the order has the second first.
fn is_turned(
    events: &[Event],
    order: &[usize],
    ranks: &[usize],
    first: usize,
    second: usize,
) -> bool
    requires ranked { AreRanked events.now order.now ranks.now }
    requires within { second < length events.now }
    requires earlier { first < second }
    ensures { IsTrue result ↔ IsTurned events.now (order_position order.now) first second }
{
    events[first].hart == events[second].hart
        && is_operation(&events[first])
        && is_operation(&events[second])
        && position_of(events, order, ranks, second) < position_of(events, order, ranks, first)
}
