//! A memory operation that a run comes to.
ghost use Rattle.std.specs.Prelude.{◌≡◌, ◌+◌, ◌≤◌, ◌^◌, true, length, IfNone, IfSome, Some};
ghost use Rattle.pages.specs.Memory.{width_bytes};
ghost use Rattle.hart_step.specs.Effect.{action};
ghost use Rattle.run_bounds.specs.Operations.{operation_in};
ghost use Rattle.all_endings.specs.HartRuns.{IsReadable, IsWritable};
ghost use Rattle.all_endings.specs.Locality.{filled};
ghost use Rattle.hart_states.specs.States.{state_of};
ghost use Rattle.hart_moves.specs.Choosing.{IsAble, IsComing};

use hart_states::{RunState, known, span_known};
use memory_order::{Registers, used_registers};
use pages::{Pages, Width};
use run_bounds::{Kind, Operation, TouchedByte};
use rv64_decode::Instr;

/// A memory operation that a run comes to.
#[derive(Clone, Copy)]
pub struct Coming {
    /// The instruction.
    pub instruction: Instr,
    /// Its registers.
    pub used: Registers,
    /// What it does.
    pub operation: Operation,
    /// What its data register holds, where that is known.
    pub operand: Option<u64>,
    /// What is kept of its bytes.
    pub known: [TouchedByte; 8],
}

/// Whether a number can be read.
#[tactic(auto, using(crate::proofs::Allowed::read_within))]
fn is_readable(pages: &Pages, address: u64, width: Width) -> bool
    ensures yes { IsReadable pages.now.memory address width → result ≡ true }
    ensures within { result ≡ true → address + width_bytes width ≤ length pages.now.memory.bytes }
{
    match pages.read(address, width) {
        Ok(_) => true,
        Err(_) => false,
    }
}

/// Whether a number can be written.
#[tactic(auto, using(crate::proofs::Allowed::write_within))]
fn is_writable(pages: &Pages, address: u64, width: Width) -> bool
    ensures yes { IsWritable pages.now.memory address width → result ≡ true }
    ensures within { result ≡ true → address + width_bytes width ≤ length pages.now.memory.bytes }
{
    match pages.check_store(address, width) {
        Ok(()) => true,
        Err(_) => false,
    }
}

/// Whether an operation's address is known, and memory lets it be done.
fn is_able(pages: &Pages, state: &RunState, i: &Instr, operation: &Operation) -> bool
    ensures able { IsAble pages.now.memory (state_of state.now) i.now operation.now →
        result ≡ true }
    ensures within { result ≡ true →
        operation.now.address + width_bytes operation.now.width ≤ length pages.now.memory.bytes }
{
    let (address, width) = (operation.address, operation.width);
    if known(&state.registers, used_registers(i).address).is_none() {
        return false;
    }
    match operation.kind {
        Kind::Load | Kind::LoadReserved => is_readable(pages, address, width),
        Kind::Store | Kind::StoreConditional | Kind::Atomic => is_writable(pages, address, width),
    }
}

/// What is known of an operation.
fn all_known(state: &RunState, i: &Instr, operation: &Operation) -> Coming
    requires fits { operation.now.address + width_bytes operation.now.width ≤ 2 ^ 64 }
    ensures coming { IsComing (state_of state.now) result }
    ensures instruction { result.instruction ≡ i.now }
    ensures operation { result.operation ≡ operation.now }
{
    let used = used_registers(i);
    let count = operation.width.bytes() as usize;
    Coming {
        instruction: *i,
        used,
        operation: *operation,
        operand: known(&state.registers, used.value),
        known: span_known(&state.bytes, operation.address, count),
    }
}

/// What is known of an operation whose address is known, and which memory lets be done.
pub fn coming_of(
    pages: &Pages,
    state: &RunState,
    i: &Instr,
    operation: &Operation,
) -> Option<Coming>
    ensures coming { IfSome result (λ c. IsComing (state_of state.now) c) }
    ensures instruction { IfSome result (λ c. c.instruction ≡ i.now) }
    ensures operation { IfSome result (λ c. c.operation ≡ operation.now) }
    ensures within { IfSome result (λ c. operation.now.address + width_bytes operation.now.width ≤
        length pages.now.memory.bytes) }
    ensures none { IfNone result
        (IsAble pages.now.memory (state_of state.now) i.now operation.now → ⊥) }
{
    if !is_able(pages, state, i, operation) {
        return None;
    }
    let _pages = pages.count();
    Some(all_known(state, i, operation))
}
