ghost use Rattle.std.specs.Prelude.{◌≡◌, ℕ, List, All, IfOk, MatchOption, length};
ghost use Rattle.trace.specs.Traced.{HasForm, opening_at};
ghost use Rattle.rv64_decode.specs.declared.instruction.Instr.{Instr};
ghost use Rattle.memory_order.specs.Orders.{ListsOperations};
ghost use Rattle.memory_order.specs.Rvwmo.{MeetsRvwmoBy};
ghost use Rattle.memory_order.specs.Dependencies.{DependencyRule};
ghost use Rattle.order_rules.specs.Orders.{AreRanked};
ghost use Rattle.refusal_reasons.specs.Reasons.{IsTrueOf};

use crate::listing::{first_left_out, first_positions, first_stranger, first_twice};
use crate::pairs::find_broken;
use crate::refusal::Refusal;
use crate::torn::find_torn;
use crate::values::find_wrong;
use memory_order::{Order, positions};
use pages::OutOfMemory;
use round_schedule::Event;
use rule_checker::sources_of_loads;
use rv64_decode::Instr;
use std::alloc::Global;
use trace::Trace;

/// Why RVWMO refuses an order of the memory operations of instructions, over the bytes that a trace's memory opened with, if it does.
///
/// It looks first at what the order lists, then for two operations of a hart that break a rule of preserved program order, then for
/// a byte that a load did not get from its source, and then for an LR and an SC with another hart's store between. Each is found in a
/// time nearly in line with the events, but for two loads of a byte from different stores: of those what lies between is looked at, up
/// to a store of their hart.
///
/// # Errors
///
/// `OutOfMemory` alone.
pub fn find_refusal(
    alloc: Global,
    opening: &Trace,
    instructions: &[Instr],
    events: &[Event],
    order: &Order,
) -> Result<Option<Refusal>, OutOfMemory>
    requires formed { All HasForm events.now }
    requires along { length instructions.now ≡ length events.now }
    ensures { IfOk result (λ o. MatchOption o
        (MeetsRvwmoBy (DependencyRule instructions.now events.now) events.now
        (opening_at opening.now.opening) order.now.0.items)
        (λ r.
        IsTrueOf r instructions.now events.now (opening_at opening.now.opening)
        order.now.0.items)) }
{
    find_in(alloc, opening, instructions, events, &order.0)
}

/// The same of indexes.
fn find_in(
    alloc: Global,
    opening: &Trace,
    instructions: &[Instr],
    events: &[Event],
    order: &[usize],
) -> Result<Option<Refusal>, OutOfMemory>
    requires formed { All HasForm events.now }
    requires along { length instructions.now ≡ length events.now }
    ensures { IfOk result (λ o. MatchOption o
        (MeetsRvwmoBy (DependencyRule instructions.now events.now) events.now
        (opening_at opening.now.opening) order.now)
        (λ r. IsTrueOf r instructions.now events.now (opening_at opening.now.opening) order.now)) }
{
    match positions(alloc, events, order)? {
        Some(ranks) => Ok(find_unmet(alloc, opening, instructions, events, order, &ranks)?),
        None => Ok(Some(find_unlisted(alloc, events, order)?)),
    }
}

/// What an order lists amiss that doesn't list each memory operation once and nothing else.
fn find_unlisted(alloc: Global, events: &[Event], order: &[usize]) -> Result<Refusal, OutOfMemory>
    requires { ListsOperations events.now order.now → ⊥ }
    ensures { IfOk result (λ r. (is : List Instr) (opening : ℕ → ℕ) →
        IsTrueOf r is events.now opening order.now) }
{
    if let Some(position) = first_stranger(events, order) {
        return Ok(Refusal::NoOperation { position });
    }
    let firsts = first_positions(alloc, events, order)?;
    if let Some(index) = first_twice(events, order, &firsts) {
        return Ok(Refusal::Twice { index });
    }
    match first_left_out(events, order, &firsts) {
        Some(index) => Ok(Refusal::LeftOut { index }),
        None => unreachable!(),
    }
}

/// The same of an order that lists each memory operation once, each at its rank.
fn find_unmet(
    alloc: Global,
    opening: &Trace,
    instructions: &[Instr],
    events: &[Event],
    order: &[usize],
    ranks: &[usize],
) -> Result<Option<Refusal>, OutOfMemory>
    requires along { length instructions.now ≡ length events.now }
    requires ranked { AreRanked events.now order.now ranks.now }
    ensures { IfOk result (λ o. MatchOption o
        (MeetsRvwmoBy (DependencyRule instructions.now events.now) events.now
        (opening_at opening.now.opening) order.now)
        (λ r. IsTrueOf r instructions.now events.now (opening_at opening.now.opening) order.now)) }
{
    let sources = sources_of_loads(alloc, events, order, ranks)?;
    if let Some(pair) = find_broken(alloc, instructions, events, order, ranks, &sources)? {
        return Ok(Some(Refusal::OutOfOrder {
            rule: pair.rule,
            first: pair.first,
            second: pair.second,
        }));
    }
    if let Some(byte) = find_wrong(opening, events, order, ranks, &sources) {
        return Ok(Some(Refusal::WrongByte {
            load: byte.load,
            address: byte.address,
        }));
    }
    match find_torn(alloc, events, order, ranks, &sources)? {
        Some(torn) => Ok(Some(Refusal::NotAtomic {
            reserve: torn.reserve,
            conditional: torn.conditional,
        })),
        None => Ok(None),
    }
}
