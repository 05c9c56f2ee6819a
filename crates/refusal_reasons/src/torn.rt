ghost use Rattle.std.specs.Prelude.{◌≡◌, ◌↔◌, ◌+◌, ◌<◌, IfOk, IsTrue, MatchOption, length, true, false};
ghost use Rattle.round_schedule.specs.Positions.{event};
ghost use Rattle.memory_order.specs.Operations.{is_store};
ghost use Rattle.memory_order.specs.Orders.{order_position};
ghost use Rattle.memory_order.specs.Rvwmo.{AtomicityAxiom, IsPaired, IsUndisturbed};
ghost use Rattle.memory_order.specs.Checking.{AreReserved};
ghost use Rattle.order_rules.specs.Orders.{AreRanked, HasSources};
ghost use Rattle.refusal_reasons.specs.Reasons.{AtomicFor, IsTorn, AreUndisturbed, LiesBetween};

use memory_order::{Sources, event_at, last_reserved, listed, paired, position_of};
use order_rules::{source_of, writes};
use pages::OutOfMemory;
use round_schedule::Event;
use std::alloc::Global;

/// An LR and the SC that it is paired with.
#[derive(Clone, Copy)]
pub(crate) struct Pair {
    pub(crate) reserve: usize,
    pub(crate) conditional: usize,
}

/// The first SC that succeeded where another hart stored between the LR that it is paired with and itself, with that LR.
pub(crate) fn find_torn(
    alloc: Global,
    events: &[Event],
    order: &[usize],
    ranks: &[usize],
    sources: &Sources,
) -> Result<Option<Pair>, OutOfMemory>
    requires ranked { AreRanked events.now order.now ranks.now }
    requires sourced { HasSources events.now order.now sources.now.items }
    ensures { IfOk result (λ pair.
        MatchOption pair (AtomicityAxiom events.now (order_position order.now))
        (λ p. IsTorn events.now (order_position order.now) p.reserve p.conditional)) }
{
    let reserved = last_reserved(alloc, events)?;
    for conditional in 0..events.len() {
        match find_torn_at(events, order, ranks, sources, &reserved, conditional) {
            Some(reserve) => {
                return Ok(Some(Pair {
                    reserve,
                    conditional,
                }));
            }
            None => {}
        }
    }
    Ok(None)
}

/// The LR of one SC.
fn find_torn_at(
    events: &[Event],
    order: &[usize],
    ranks: &[usize],
    sources: &Sources,
    reserved: &[usize],
    conditional: usize,
) -> Option<usize>
    requires ranked { AreRanked events.now order.now ranks.now }
    requires sourced { HasSources events.now order.now sources.now.items }
    requires reserved { AreReserved events.now (length events.now) reserved.now }
    requires within { conditional < length events.now }
    ensures { MatchOption result (AtomicFor events.now (order_position order.now) conditional)
        (λ l. IsTorn events.now (order_position order.now) l conditional) }
{
    if !events[conditional].access.stores() {
        return None;
    }
    match paired(events, reserved, conditional) {
        Some(reserve) => {
            if are_undisturbed(events, order, ranks, sources, reserve, conditional) {
                None
            } else {
                Some(reserve)
            }
        }
        None => None,
    }
}

/// Whether no other hart stores to a byte of the load at `l` between its source and the SC at `c`.
fn are_undisturbed(
    events: &[Event],
    order: &[usize],
    ranks: &[usize],
    sources: &Sources,
    l: usize,
    c: usize,
) -> bool
    requires ranked { AreRanked events.now order.now ranks.now }
    requires sourced { HasSources events.now order.now sources.now.items }
    requires reserve { l < length events.now }
    requires within { c < length events.now }
    requires paired { IsPaired events.now l c }
    requires stores { is_store (event events.now c) ≡ true }
    ensures undisturbed { result ≡ true → AreUndisturbed events.now (order_position order.now) l c }
    ensures torn { result ≡ false → IsTorn events.now (order_position order.now) l c }
{
    let event = event_at(events, l);
    if !event.access.loads() {
        return true;
    }
    let start = event.access.address();
    for k in 0..event.access.byte_count() {
        let source = source_of(events, order, ranks, sources, l, start + k);
        if !is_undisturbed(events, order, ranks, c, start + k, source) {
            return false;
        }
    }
    true
}

/// Whether no other hart stores to a byte between the store at `source`, or the opening, and the SC at `c`.
fn is_undisturbed(
    events: &[Event],
    order: &[usize],
    ranks: &[usize],
    c: usize,
    x: u64,
    source: Option<usize>,
) -> bool
    requires ranked { AreRanked events.now order.now ranks.now }
    requires within { c < length events.now }
    requires source { MatchOption source (Unit {0}) (λ s. s < length events.now) }
    ensures { IsTrue result ↔ IsUndisturbed events.now (order_position order.now) c x source }
{
    if !precedes(events, order, ranks, source, c) {
        return false;
    }
    let start = position_after(events, order, ranks, source);
    for p in start..position_of(events, order, ranks, c) {
        if lies_between(events, order, ranks, c, x, source, listed(events, order, p)) {
            return false;
        }
    }
    true
}

/// The position after that of a store, or the first one.
fn position_after(
    events: &[Event],
    order: &[usize],
    ranks: &[usize],
    source: Option<usize>,
) -> usize
    requires ranked { AreRanked events.now order.now ranks.now }
    requires source { MatchOption source (Unit {0}) (λ s. s < length events.now) }
    ensures { MatchOption source (result ≡ 0) (λ s. result ≡ order_position order.now s + 1) }
{
    match source {
        Some(s) => position_of(events, order, ranks, s) + 1,
        None => 0,
    }
}

/// Whether a store stands before an index, or there is no store.
fn precedes(
    events: &[Event],
    order: &[usize],
    ranks: &[usize],
    source: Option<usize>,
    c: usize,
) -> bool
    requires ranked { AreRanked events.now order.now ranks.now }
    requires within { c < length events.now }
    requires source { MatchOption source (Unit {0}) (λ s. s < length events.now) }
    ensures { IsTrue result ↔ MatchOption source (Unit {0}) (λ s.
        order_position order.now s < order_position order.now c) }
{
    match source {
        Some(s) => position_of(events, order, ranks, s) < position_of(events, order, ranks, c),
        None => true,
    }
}

/// Whether the event at `v` is a store of another hart to a byte between.
fn lies_between(
    events: &[Event],
    order: &[usize],
    ranks: &[usize],
    c: usize,
    x: u64,
    source: Option<usize>,
    v: usize,
) -> bool
    requires ranked { AreRanked events.now order.now ranks.now }
    requires within { c < length events.now }
    requires source { MatchOption source (Unit {0}) (λ s. s < length events.now) }
    requires store { v < length events.now }
    ensures { IsTrue result ↔ LiesBetween events.now (order_position order.now) c x source v }
{
    if !writes(&events[v].access, x) || events[v].hart == events[c].hart {
        return false;
    }
    let position = position_of(events, order, ranks, v);
    if position >= position_of(events, order, ranks, c) {
        return false;
    }
    match source {
        Some(s) => position_of(events, order, ranks, s) < position,
        None => true,
    }
}
