ghost use Rattle.std.specs.Prelude.{◌≡◌, ◌==◌, ◌+◌, ◌<◌, ◌≤◌, All, if◌then◌else◌, length};
ghost use Rattle.trace.specs.Traced.{HasForm};
ghost use Rattle.round_schedule.specs.Positions.{event};
ghost use Rattle.memory_order.specs.Dependencies.{has_failed};
ghost use Rattle.order_rules.specs.Dependents.{AreDependents, AreRegisters, any_source, dependents_after, is_dependent, marked};

use memory_order::{Registers, event_at, used_registers};
use round_schedule::{Access, Event};
use rv64_decode::{Instr, Reg};

/// What depends on one operation, before a later index of its hart.
#[derive(Clone, Copy)]
pub(crate) struct Dependents {
    /// Which registers do.
    pub(crate) registers: [bool; 32],
    /// Whether a branch or an indirect jump did.
    pub(crate) steered: bool,
    /// Whether the address of an instruction did.
    pub(crate) addressed: bool,
}

/// What depends on the operation at `i`, before index `j`.
pub(crate) fn dependents_before(
    instructions: &[Instr],
    events: &[Event],
    i: usize,
    j: usize,
) -> Dependents
    requires along { length instructions.now ≡ length events.now }
    requires formed { All HasForm events.now }
    requires earlier { i ≤ j }
    requires within { i < length events.now }
    requires up_to { j ≤ length events.now }
    ensures { AreDependents instructions.now events.now i (event events.now i).hart j result }
{
    let hart = events[i].hart;
    let mut dependents = Dependents {
        registers: [false; 32],
        steered: false,
        addressed: false,
    };
    for k in i..j {
        dependents = next_dependents(instructions, events, &dependents, i, hart, k);
    }
    dependents
}

/// The same before the next index after `k`, from what it is before `k`.
fn next_dependents(
    instructions: &[Instr],
    events: &[Event],
    dependents: &Dependents,
    i: usize,
    hart: u8,
    k: usize,
) -> Dependents
    requires along { length instructions.now ≡ length events.now }
    requires formed { All HasForm events.now }
    requires within { k < length events.now }
    ensures { AreDependents instructions.now events.now i hart k dependents.now →
        AreDependents instructions.now events.now i hart (k + 1) result }
{
    let event = event_at(events, k);
    if event.hart != hart {
        return *dependents;
    }
    let used = used_registers(&instructions[k]);
    are_registers(&used);
    let destination = destination_of(&used, &event.access);
    let itself = are_same(k, i);
    dependents_after(dependents, &used, destination, itself)
}

fn are_same(k: usize, i: usize) -> bool
    ensures { result ≡ (k == i) }
{
    k == i
}

/// Registers are registers.
pub(crate) fn are_registers(x: &Registers)
    ensures { AreRegisters x.now }
{
    let _address = x.address.index();
    let _value = x.value.index();
    let _first = x.first.index();
    let _second = x.second.index();
}

/// The destination register of an instruction that left an access; an SC that failed has none.
pub(crate) fn destination_of(used: &Registers, access: &Access) -> Reg
    ensures { result ≡ (if has_failed access.now then 0 else used.now.destination) }
{
    if matches!(*access, Access::StoreConditional { written: None, .. }) {
        Reg::new(0)
    } else {
        used.destination
    }
}

/// What depends on the operation after one more instruction, which is the operation itself or not.
fn dependents_after(
    dependents: &Dependents,
    used: &Registers,
    destination: Reg,
    itself: bool,
) -> Dependents
    ensures { result ≡ dependents_after dependents.now used.now destination itself }
{
    let any = any_source(dependents, used);
    let addressed = is_dependent(dependents, used.address);
    let value = itself || (used.carries && any);
    Dependents {
        registers: marked(dependents.registers, destination, value),
        steered: dependents.steered || (used.steers && any),
        addressed: dependents.addressed || addressed,
    }
}

pub(crate) fn is_dependent(dependents: &Dependents, r: Reg) -> bool
    ensures { result ≡ is_dependent dependents.now r }
{
    dependents.registers[r.index()]
}

/// Whether one of the source registers is dependent.
fn any_source(dependents: &Dependents, used: &Registers) -> bool
    ensures { result ≡ any_source dependents.now used.now }
{
    is_dependent(dependents, used.address)
        || is_dependent(dependents, used.value)
        || is_dependent(dependents, used.first)
        || is_dependent(dependents, used.second)
}

fn marked(mut registers: [bool; 32], r: Reg, value: bool) -> [bool; 32]
    ensures { result ≡ marked registers r value }
{
    if r.index() != 0 {
        registers[r.index()] = value;
    }
    registers
}
