//! The rules 9 to 13 of preserved program order, on dependencies (manual, section 14.1.3).

ghost use Rattle.std.specs.Prelude.{◌≡◌, ◌↔◌, ◌<◌, All, IsTrue, length};
ghost use Rattle.trace.specs.Traced.{HasForm};
ghost use Rattle.round_schedule.specs.Positions.{ProgramBefore};
ghost use Rattle.memory_order.specs.Orders.{order_position};
ghost use Rattle.memory_order.specs.Dependencies.{AddressDependency, ControlDependency, DataDependency};
ghost use Rattle.order_rules.specs.Orders.{AddressedBetween, AreRanked, DependsBefore, Forwards, ForwardsAt, HasSources};

use crate::access::{is_same_hart, reads_at};
use crate::dependents::{dependents_before, is_dependent};
use crate::sources::source_of;
use memory_order::{Sources, event_at, used_registers};
use round_schedule::Event;
use rv64_decode::Instr;

/// Whether the address of the instruction at `b` depends on the one at `a` (rule 9).
pub(crate) fn depends_by_address(
    instructions: &[Instr],
    events: &[Event],
    a: usize,
    b: usize,
) -> bool
    requires along { length instructions.now ≡ length events.now }
    requires formed { All HasForm events.now }
    requires within { b < length events.now }
    requires before { ProgramBefore events.now a b }
    ensures { IsTrue result ↔ AddressDependency instructions.now events.now a b }
{
    let used = used_registers(&instructions[b]);
    is_dependent(&dependents_before(instructions, events, a, b), used.address)
}

/// Whether its data does (rule 10).
pub(crate) fn depends_by_data(instructions: &[Instr], events: &[Event], a: usize, b: usize) -> bool
    requires along { length instructions.now ≡ length events.now }
    requires formed { All HasForm events.now }
    requires within { b < length events.now }
    requires before { ProgramBefore events.now a b }
    ensures { IsTrue result ↔ DataDependency instructions.now events.now a b }
{
    let used = used_registers(&instructions[b]);
    is_dependent(&dependents_before(instructions, events, a, b), used.value)
}

/// Whether a branch or an indirect jump between them does (rule 11).
pub(crate) fn depends_by_control(
    instructions: &[Instr],
    events: &[Event],
    a: usize,
    b: usize,
) -> bool
    requires along { length instructions.now ≡ length events.now }
    requires formed { All HasForm events.now }
    requires within { b < length events.now }
    requires before { ProgramBefore events.now a b }
    ensures { IsTrue result ↔ ControlDependency instructions.now events.now a b }
{
    dependents_before(instructions, events, a, b).steered
}

/// Whether the load at `b` has a byte from a store of its hart before it whose address or data depends on `a` (rule 12).
pub(crate) fn forwards(
    instructions: &[Instr],
    events: &[Event],
    order: &[usize],
    ranks: &[usize],
    sources: &Sources,
    a: usize,
    b: usize,
) -> bool
    requires along { length instructions.now ≡ length events.now }
    requires ranked { AreRanked events.now order.now ranks.now }
    requires sourced { HasSources events.now order.now sources.now.items }
    requires within { b < length events.now }
    requires before { ProgramBefore events.now a b }
    ensures { IsTrue result ↔ Forwards instructions.now events.now (order_position order.now) a b }
{
    let event = event_at(events, b);
    let start = event.access.address();
    for k in 0..event.access.byte_count() {
        if forwards_at(instructions, events, order, ranks, sources, a, b, start + k) {
            return true;
        }
    }
    false
}

/// The same of one byte.
fn forwards_at(
    instructions: &[Instr],
    events: &[Event],
    order: &[usize],
    ranks: &[usize],
    sources: &Sources,
    a: usize,
    b: usize,
    x: u64,
) -> bool
    requires along { length instructions.now ≡ length events.now }
    requires ranked { AreRanked events.now order.now ranks.now }
    requires sourced { HasSources events.now order.now sources.now.items }
    requires within { b < length events.now }
    requires before { ProgramBefore events.now a b }
    ensures { IsTrue result ↔ ForwardsAt instructions.now events.now (order_position order.now) a b
        x }
{
    if !reads_at(events, b, x) {
        return false;
    }
    match source_of(events, order, ranks, sources, b, x) {
        Some(m) => depends_before(instructions, events, a, m, b),
        None => false,
    }
}

/// Whether the event at `m` is of the hart before `b`, and its address or data depends on `a`.
fn depends_before(instructions: &[Instr], events: &[Event], a: usize, m: usize, b: usize) -> bool
    requires along { length instructions.now ≡ length events.now }
    requires formed { All HasForm events.now }
    requires store { m < length events.now }
    requires within { b < length events.now }
    requires before { ProgramBefore events.now a b }
    ensures { IsTrue result ↔ DependsBefore instructions.now events.now a m b }
{
    if m <= a || m >= b {
        return false;
    }
    if !is_same_hart(events, m, b) {
        return false;
    }
    if depends_by_address(instructions, events, a, m) {
        return true;
    }
    depends_by_data(instructions, events, a, m)
}

/// Whether the address of an instruction between them depends on the one at `a` (rule 13).
pub(crate) fn is_addressed_between(
    instructions: &[Instr],
    events: &[Event],
    a: usize,
    b: usize,
) -> bool
    requires along { length instructions.now ≡ length events.now }
    requires formed { All HasForm events.now }
    requires within { b < length events.now }
    requires before { ProgramBefore events.now a b }
    ensures { IsTrue result ↔ AddressedBetween instructions.now events.now a b }
{
    dependents_before(instructions, events, a, b).addressed
}
