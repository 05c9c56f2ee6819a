ghost use Rattle.std.specs.Prelude.{◌≡◌, ◌==◌, ◌<◌, ◌≤◌, ◌↔◌, ℕ, All, IsTrue, IfOk, MatchOption, if◌then◌else◌, length};
ghost use Rattle.trace.specs.Traced.{HasForm};
ghost use Rattle.memory_order.specs.Orders.{ListsOperations, order_position};
ghost use Rattle.memory_order.specs.Rvwmo.{MaySee};
ghost use Rattle.memory_order.specs.Dependencies.{RespectsDependencies, RespectsAt, has_failed};
ghost use Rattle.hart_step.specs.Registers.{reg, set_reg};
ghost use Rattle.memory_order.specs.Checking.{AreSources, IsRanking, source_of};
ghost use Rattle.rule_checker.specs.CarriedBounds.{AllowedBy, AreRegisters, MayForward, MayForwardAll, carried_after, carried_of, operand_bound, sources_bound};
ghost use Rattle.rule_checker.specs.Violations.{IsFirstViolation};

use memory_order::{
    Registers, Sources, event_at, is_operation, of_hart, position_of, source_at, used_registers,
};
use pages::OutOfMemory;
use round_schedule::{Access, Event};
use rv64_decode::{Instr, Reg};
use std::alloc::Global;

/// The bounds of the positions of what a hart's instructions so far depend on.
#[derive(Clone, Copy)]
pub struct Carried {
    /// What each register depends on.
    pub(crate) registers: [usize; 32],
    /// What the branches and indirect jumps depend on.
    pub(crate) steered: usize,
    /// What the addresses depend on.
    pub(crate) addressed: usize,
}

const NONE_CARRIED: Carried = Carried {
    registers: [0; 32],
    steered: 0,
    addressed: 0,
};

/// The first operation that an order has before one that it depends on: the rules 9 to 13 (manual, section 14.1.3).
pub(crate) fn first_by_dependency(
    alloc: Global,
    instructions: &[Instr],
    events: &[Event],
    order: &[usize],
    ranks: &[usize],
    sources: &Sources,
) -> Result<Option<usize>, OutOfMemory>
    requires formed { All HasForm events.now }
    requires lists { ListsOperations events.now order.now }
    requires ranked { IsRanking events.now order.now ranks.now }
    requires along { length instructions.now ≡ length events.now }
    requires sourced { AreSources events.now order.now
        (MaySee events.now (order_position order.now)) sources.now.items }
    ensures { IfOk result (λ first.
        MatchOption first (RespectsDependencies instructions.now events.now
        (order_position order.now))
        (IsFirstViolation events.now (RespectsAt instructions.now events.now
        (order_position order.now)))) }
{
    let mut harts = vec![in alloc; NONE_CARRIED; 256]?;
    // of each event so far, what its address and data depend on
    let mut operands = Vec::new(alloc);
    for i in 0..events.len() {
        let event = event_at(events, i);
        let position = position_of(events, order, ranks, i);
        let used = used_registers(&instructions[i]);
        let carried = of_hart(&harts, event.hart);
        are_registers(&used);
        if is_operation(&event)
            && !(allows(&carried, &used, &event.access, position)
                && may_forward(events, order, &operands, sources, i, position))
        {
            return Ok(Some(i));
        }
        operands.push(operand_bound(&carried, &used))?;
        carry(&mut harts, &used, &event, position + 1);
    }
    Ok(None)
}

/// Registers are registers.
fn are_registers(x: &Registers)
    ensures { AreRegisters x.now }
{
    let _address = x.address.index();
    let _value = x.value.index();
    let _first = x.first.index();
    let _second = x.second.index();
    let _destination = x.destination.index();
}

/// The bound of what a register depends on.
fn bound_of(carried: &Carried, r: Reg) -> usize
    ensures { result ≡ reg carried.now.registers r }
{
    let value = carried.registers[r.index()];
    if r.index() == 0 { 0 } else { value }
}

fn operand_bound(carried: &Carried, x: &Registers) -> usize
    ensures { result ≡ operand_bound carried.now x.now }
{
    bound_of(carried, x.address).max(bound_of(carried, x.value))
}

fn sources_bound(carried: &Carried, x: &Registers) -> usize
    ensures { result ≡ sources_bound carried.now x.now }
{
    let others = bound_of(carried, x.first).max(bound_of(carried, x.second));
    operand_bound(carried, x).max(others)
}

fn has_failed(access: &Access) -> bool
    ensures { result ≡ has_failed access.now }
{
    matches!(*access, Access::StoreConditional { written: None, .. })
}

/// Takes the bounds of a hart past one more instruction, whose event stands before the position `next`.
fn carry(harts: &mut Vec<Carried>, x: &Registers, event: &Event, next: usize)
    requires { 256 ≤ length harts.old.items }
    ensures len { length harts.new.items ≡ length harts.old.items }
    ensures set { (h : ℕ) → carried_of harts.new.items h ≡ (if h == event.now.hart then
        carried_after (carried_of harts.old.items event.now.hart) x.now event.now next
        else carried_of harts.old.items h) }
{
    carry_on(&mut harts[usize::from(event.hart)], x, event, next);
}

/// The same of its bounds alone.
fn carry_on(carried: &mut Carried, x: &Registers, event: &Event, next: usize)
    ensures { carried.new ≡ carried_after carried.old x.now event.now next }
{
    let sources = sources_bound(carried, x);
    let addressed = bound_of(carried, x.address);
    let own = if is_operation(event) { next } else { 0 };
    let on = if x.carries { sources } else { 0 };
    let destination = if has_failed(&event.access) {
        Reg::new(0)
    } else {
        x.destination
    };
    if x.steers {
        carried.steered = carried.steered.max(sources);
    }
    carried.addressed = carried.addressed.max(addressed);
    set_bound(&mut carried.registers, destination, own.max(on));
}

fn set_bound(registers: &mut [usize; 32], r: Reg, value: usize)
    ensures { registers.new ≡ set_reg registers.old r value }
{
    if r.index() != 0 {
        registers[r.index()] = value;
    }
}

/// Whether an operation may stand at a position by the rules 9, 10, 11 and 13.
fn allows(carried: &Carried, x: &Registers, access: &Access, position: usize) -> bool
    ensures { IsTrue result ↔ AllowedBy carried.now x.now access.now position }
{
    bound_of(carried, x.address) <= position
        && (!access.stores()
            || (bound_of(carried, x.value) <= position
                && carried.steered <= position
                && carried.addressed <= position))
}

/// Whether an operation may be from its sources, where it stands at a position, by the rule 12.
fn may_forward(
    events: &[Event],
    order: &[usize],
    operands: &[usize],
    sources: &Sources,
    i: usize,
    position: usize,
) -> bool
    requires within { i < length events.now }
    requires formed { All HasForm events.now }
    requires lists { ListsOperations events.now order.now }
    requires standing { position ≡ order_position order.now i }
    requires operands { length operands.now ≡ i }
    requires sourced { AreSources events.now order.now
        (MaySee events.now (order_position order.now)) sources.now.items }
    ensures { IsTrue result ↔ MayForwardAll events.now order.now operands.now
        (λ x. source_of order.now sources.now.items i x) i position }
{
    let event = event_at(events, i);
    if !event.access.loads() {
        return true;
    }
    let start = event.access.address();
    for k in 0..event.access.byte_count() {
        let source = source_at(sources, position, start + k);
        if !forwards_from(events, order, operands, i, position, source) {
            return false;
        }
    }
    true
}

/// The same of one byte, which is from the store before position `source`.
fn forwards_from(
    events: &[Event],
    order: &[usize],
    operands: &[usize],
    i: usize,
    position: usize,
    source: usize,
) -> bool
    requires within { i < length events.now }
    requires operands { length operands.now ≡ i }
    ensures { IsTrue result ↔ MayForward events.now order.now operands.now i position source }
{
    if source == 0 {
        return true;
    }
    let store = match order.get(source - 1) {
        Some(store) => *store,
        None => 0,
    };
    store >= i || events[store].hart != events[i].hart || operands[store] <= position
}
