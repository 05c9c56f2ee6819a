//! Which operations a rule may order before a later one, found in one walk back from that.

ghost use Rattle.std.specs.Prelude.{◌≡◌, ◌+◌, ◌<◌, All, IfOk, length, slice_index_or, true, false};
ghost use Rattle.trace.specs.Traced.{HasForm};
ghost use Rattle.round_schedule.specs.Accesses.{loads, stores};
ghost use Rattle.round_schedule.specs.Positions.{ProgramBefore, event};
ghost use Rattle.memory_order.specs.Dependencies.{destination_at};
ghost use Rattle.memory_order.specs.Orders.{order_position};
ghost use Rattle.order_rules.specs.Orders.{AreRanked, Asks, HasSources, NoneAsks};
ghost use Rattle.order_rules.specs.Behind.{AreCandidates, IsBehind, is_of_pair};
ghost use Rattle.order_rules.specs.declared.rule.OrderRule.{OrderRule};

use crate::access::is_same_hart;
use crate::asking::asks;
use crate::behind::{Behind, behind_before, behind_itself};
use crate::dependents::{are_registers, destination_of};
use crate::rule::{OrderRule, RULES};
use memory_order::{Sources, event_at, used_registers};
use pages::OutOfMemory;
use round_schedule::Event;
use rv64_decode::Instr;
use std::alloc::Global;

/// For each index before `b` whether a rule may order it before the operation at `b`: where it says no, none does. A yes is mostly one; the
/// contract doesn't say so.
///
/// It is one walk back from `b`, which keeps what lies between: fences, and the registers that `b` depends on. Only of two loads of a byte from
/// different stores, and of an LR before an SC, the steps between them are looked at.
///
/// # Errors
///
/// `OutOfMemory` alone.
pub fn find_candidates(
    alloc: Global,
    instructions: &[Instr],
    events: &[Event],
    order: &[usize],
    ranks: &[usize],
    sources: &Sources,
    b: usize,
) -> Result<Vec<bool>, OutOfMemory>
    requires along { length instructions.now ≡ length events.now }
    requires ranked { AreRanked events.now order.now ranks.now }
    requires sourced { HasSources events.now order.now sources.now.items }
    requires within { b < length events.now }
    ensures { IfOk result (λ v.
        AreCandidates instructions.now events.now (order_position order.now) b 0 v.items) }
{
    let mut may = vec![in alloc; true; b]?;
    let mut behind = behind_itself(instructions, events, b);
    for back in 0..b {
        let k = b - 1 - back;
        may[k] = may_order(instructions, events, order, ranks, sources, &behind, k, b);
        behind = behind_before(instructions, events, order, ranks, sources, b, k, &behind);
    }
    Ok(may)
}

/// Whether a rule may order the operation at `a` before that at `b`, where it is known what lies between.
fn may_order(
    instructions: &[Instr],
    events: &[Event],
    order: &[usize],
    ranks: &[usize],
    sources: &Sources,
    behind: &Behind,
    a: usize,
    b: usize,
) -> bool
    requires along { length instructions.now ≡ length events.now }
    requires ranked { AreRanked events.now order.now ranks.now }
    requires sourced { HasSources events.now order.now sources.now.items }
    requires within { b < length events.now }
    requires earlier { a < b }
    requires behind { IsBehind instructions.now events.now (order_position order.now) b (a + 1)
        behind.now }
    ensures { result ≡ false → ProgramBefore events.now a b →
        NoneAsks instructions.now events.now (order_position order.now) a b }
{
    if !is_same_hart(events, a, b) {
        return false;
    }
    if is_kept(instructions, events, behind, a) {
        return true;
    }
    is_paired_by(instructions, events, order, ranks, sources, a, b)
}

/// Whether what lies between may keep the operation at `a` before the other one: a fence, or a dependency.
fn is_kept(instructions: &[Instr], events: &[Event], behind: &Behind, a: usize) -> bool
    requires along { length instructions.now ≡ length events.now }
    requires formed { All HasForm events.now }
    requires within { a < length events.now }
    ensures loads { result ≡ false → loads (event events.now a).access ≡ true →
        behind.now.loads ≡ false }
    ensures stores { result ≡ false → stores (event events.now a).access ≡ true →
        behind.now.stores ≡ false }
    ensures needed { result ≡ false →
        slice_index_or behind.now.needed (destination_at instructions.now events.now a) false
        ≡ false }
{
    let used = used_registers(&instructions[a]);
    are_registers(&used);
    let first = event_at(events, a).access;
    let destination = destination_of(&used, &first);
    (first.loads() && behind.loads)
        || (first.stores() && behind.stores)
        || behind.needed[destination.index()]
}

/// Whether one of the rules orders them that go by the two operations and their bytes.
fn is_paired_by(
    instructions: &[Instr],
    events: &[Event],
    order: &[usize],
    ranks: &[usize],
    sources: &Sources,
    a: usize,
    b: usize,
) -> bool
    requires along { length instructions.now ≡ length events.now }
    requires ranked { AreRanked events.now order.now ranks.now }
    requires sourced { HasSources events.now order.now sources.now.items }
    requires within { b < length events.now }
    requires before { ProgramBefore events.now a b }
    ensures { result ≡ false → (k : OrderRule) → is_of_pair k ≡ true →
        Asks k instructions.now events.now (order_position order.now) a b → ⊥ }
{
    for rule in RULES {
        if is_of_pair(rule) && asks(rule, instructions, events, order, ranks, sources, a, b) {
            return true;
        }
    }
    false
}

/// Whether a rule goes by the two operations and their bytes, and neither by a fence between them nor by a dependency.
fn is_of_pair(rule: OrderRule) -> bool
    ensures { result ≡ is_of_pair rule }
{
    match rule {
        OrderRule::OverlappingStore
        | OrderRule::DifferentWrites
        | OrderRule::ReturnsAtomic
        | OrderRule::Acquired
        | OrderRule::Released
        | OrderRule::BothAnnotated
        | OrderRule::Paired => true,
        OrderRule::Fenced
        | OrderRule::ByAddress
        | OrderRule::ByData
        | OrderRule::ByControl
        | OrderRule::ByForwarding
        | OrderRule::ByAddressBetween => false,
    }
}
