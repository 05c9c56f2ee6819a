//! Bounds by syntactic dependencies, as the checker of orders keeps them.
ghost use Rattle.std.specs.Prelude.{◌≡◌, ◌↔◌, ℕ, IsTrue, Some};
ghost use Rattle.hart_step.specs.Registers.{reg, set_reg};
ghost use Rattle.memory_order.specs.Dependencies.{has_failed};
ghost use Rattle.execution.specs.Progressing.{step_event};
ghost use Rattle.rule_checker.specs.CarriedBounds.{AllowedBy, carried_after, operand_bound, sources_bound};
ghost use Rattle.run_bounds.specs.Bounds.{carried_of};

use memory_order::Registers;
use round_schedule::Access;
use rv64_decode::Reg;

/// The bounds of the times of what a hart's instructions so far depend on: the rules 9, 10, 11 and 13 (manual, section 14.1.3).
#[derive(Clone, Copy, PartialEq, Eq)]
pub struct CarriedTimes {
    /// What each register depends on.
    pub registers: [usize; 32],
    /// What the branches and indirect jumps depend on.
    pub steered: usize,
    /// What the addresses depend on.
    pub addressed: usize,
}

/// Of a hart that did no instruction.
pub const NONE_CARRIED: CarriedTimes = CarriedTimes {
    registers: [0; 32],
    steered: 0,
    addressed: 0,
};

/// The bound of what a register depends on.
fn bound_of(carried: &CarriedTimes, r: Reg) -> usize
    ensures { result ≡ reg carried.now.registers r }
{
    let value = carried.registers[r.index()];
    if r.index() == 0 { 0 } else { value }
}

/// The bound of what an instruction's address and data depend on.
pub fn operand_bound(carried: &CarriedTimes, x: &Registers) -> usize
    ensures { result ≡ operand_bound (carried_of carried.now) x.now }
{
    bound_of(carried, x.address).max(bound_of(carried, x.value))
}

fn sources_bound(carried: &CarriedTimes, x: &Registers) -> usize
    ensures { result ≡ sources_bound (carried_of carried.now) x.now }
{
    let others = bound_of(carried, x.first).max(bound_of(carried, x.second));
    operand_bound(carried, x).max(others)
}

fn has_failed(access: &Access) -> bool
    ensures { result ≡ has_failed access.now }
{
    matches!(*access, Access::StoreConditional { written: None, .. })
}

/// The bounds after one more instruction that left this access, where the time behind it is `next`.
pub fn carried_after(
    carried: &CarriedTimes,
    x: &Registers,
    access: &Access,
    next: usize,
) -> CarriedTimes
    ensures { (h : ℕ) → carried_of result ≡
        carried_after (carried_of carried.now) x.now (step_event h (Some access.now)) next }
{
    let sources = sources_bound(carried, x);
    let addressed = bound_of(carried, x.address);
    let own = if access.loads() || access.stores() {
        next
    } else {
        0
    };
    let on = if x.carries { sources } else { 0 };
    let destination = if has_failed(access) {
        Reg::new(0)
    } else {
        x.destination
    };
    CarriedTimes {
        registers: set_bound(carried.registers, destination, own.max(on)),
        steered: if x.steers {
            carried.steered.max(sources)
        } else {
            carried.steered
        },
        addressed: carried.addressed.max(addressed),
    }
}

fn set_bound(mut registers: [usize; 32], r: Reg, value: usize) -> [usize; 32]
    ensures { result ≡ set_reg registers r value }
{
    if r.index() != 0 {
        registers[r.index()] = value;
    }
    registers
}

/// Whether an operation may stand at a time by the rules 9, 10, 11 and 13.
pub fn allows_dependencies(
    carried: &CarriedTimes,
    x: &Registers,
    access: &Access,
    time: usize,
) -> bool
    ensures { IsTrue result ↔ AllowedBy (carried_of carried.now) x.now access.now time }
{
    bound_of(carried, x.address) <= time
        && (!access.stores()
            || (bound_of(carried, x.value) <= time
                && carried.steered <= time
                && carried.addressed <= time))
}
