//! Preserved program order with all the manual's rules, and the first operation that breaks it.

ghost use Rattle.std.specs.Prelude.{◌≡◌, All, IfOk, MatchOption, length};
ghost use Rattle.trace.specs.Traced.{HasForm};
ghost use Rattle.memory_order.specs.Orders.{ListsOperations, order_position};
ghost use Rattle.memory_order.specs.Rvwmo.{MaySee, PreservedOrderBy};
ghost use Rattle.memory_order.specs.Dependencies.{DependencyRule};
ghost use Rattle.memory_order.specs.Checking.{AreSources, IsRanking};
ghost use Rattle.rule_checker.specs.Violations.{IsFirstViolation, PreservedAt, earliest};

use crate::annotated::first_by_kind;
use crate::carried::first_by_dependency;
use crate::coherent::first_by_byte;
use crate::paired_order::first_by_pair;
use memory_order::Sources;
use pages::OutOfMemory;
use round_schedule::Event;
use rv64_decode::Instr;
use std::alloc::Global;

/// The index of the first operation that an order has before one that a rule of preserved program order orders before it (manual,
/// section 14.1.3); none where the order keeps all.
///
/// `sources` has the bounds of the sources of loads, as `sources_of_loads` gives them. Its time is nearly in line with the events.
///
/// # Errors
///
/// `OutOfMemory` alone.
pub fn first_violation(
    alloc: Global,
    instructions: &[Instr],
    events: &[Event],
    order: &[usize],
    ranks: &[usize],
    sources: &Sources,
) -> Result<Option<usize>, OutOfMemory>
    requires formed { All HasForm events.now }
    requires along { length instructions.now ≡ length events.now }
    requires lists { ListsOperations events.now order.now }
    requires ranked { IsRanking events.now order.now ranks.now }
    requires sourced { AreSources events.now order.now
        (MaySee events.now (order_position order.now)) sources.now.items }
    ensures { IfOk result (λ first. MatchOption first
        (PreservedOrderBy (DependencyRule instructions.now events.now (order_position order.now))
        events.now (order_position order.now))
        (IsFirstViolation events.now (PreservedAt
        (DependencyRule instructions.now events.now (order_position order.now)) events.now
        (order_position order.now)))) }
{
    let by_kind = first_by_kind(alloc, events, order, ranks)?;
    let by_byte = first_by_byte(alloc, events, order, ranks, sources)?;
    let by_pair = first_by_pair(alloc, events, order, ranks)?;
    let by_dependency = first_by_dependency(alloc, instructions, events, order, ranks, sources)?;
    let alone = earliest(by_kind, by_byte);
    let others = earliest(by_pair, by_dependency);
    Ok(earliest(alone, others))
}

/// The lower of two indexes, where there is one.
fn earliest(a: Option<usize>, b: Option<usize>) -> Option<usize>
    ensures { result ≡ earliest a b }
{
    match a {
        Some(first) => match b {
            Some(second) => Some(first.min(second)),
            None => Some(first),
        },
        None => b,
    }
}
