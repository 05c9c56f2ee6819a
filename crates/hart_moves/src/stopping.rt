//! The stop of a run's next instruction.
ghost use Rattle.std.specs.Prelude.{◌≡◌, ◌≢◌, ◌==◌, if◌then◌else◌, IfOk, None, Some};
ghost use Rattle.pages.specs.Memory.{loaded, store_fault};
ghost use Rattle.rv64_decode.specs.declared.instruction.Instr.TheVariants.{Ecall};
ghost use Rattle.hart_step.specs.DecodedCode.{decoded};
ghost use Rattle.hart_step.specs.Effect.{action};
ghost use Rattle.hart_step.specs.Registers.{reg};
ghost use Rattle.run_bounds.specs.Operations.{operation_in};
ghost use Rattle.all_endings.specs.Locality.{filled};
ghost use Rattle.all_endings.specs.Stopping.{stop_at, stop_in, stop_of_load, stop_of_store, stop_with};
ghost use Rattle.hart_moves.specs.Stops.{stop_of_operation};

use crate::computing::{hart_of, step_through};
use hart_states::RunState;
use hart_step::{Buffered, Hart, Stop, stop_code};
use pages::{OutOfMemory, Pages, Width};
use run_bounds::{Kind, Operation, operation_of};
use rv64_decode::{Instr, Reg, decode};
use std::alloc::Global;

/// The stop of a code that gives no value.
fn stop_with(code: u8) -> Stop
    ensures { result ≡ stop_with code }
{
    Stop { code, value: 0 }
}

/// The stop of a load, where it has a fault.
fn load_stop(pages: &Pages, address: u64, width: Width) -> Option<Stop>
    ensures { result ≡ stop_of_load (loaded pages.now.memory address width) }
{
    match pages.read(address, width) {
        Ok(_) => None,
        Err(fault) => Some(stop_with(stop_code(fault))),
    }
}

/// The stop of a store, where it has a fault.
fn store_stop(pages: &Pages, address: u64, width: Width) -> Option<Stop>
    ensures { result ≡ stop_of_store (store_fault pages.now.memory address width) }
{
    match pages.check_store(address, width) {
        Ok(()) => None,
        Err(fault) => Some(stop_with(stop_code(fault))),
    }
}

/// The stop of a memory operation, where it has a fault. An SC and an AMO are tested as stores.
fn access_stop(pages: &Pages, operation: &Operation) -> Option<Stop>
    ensures { result ≡ stop_of_operation pages.now.memory operation.now }
{
    let (address, width) = (operation.address, operation.width);
    match operation.kind {
        Kind::Load | Kind::LoadReserved => load_stop(pages, address, width),
        Kind::Store | Kind::StoreConditional | Kind::Atomic => store_stop(pages, address, width),
    }
}

/// The stop of a call: the exit call, of number 0.
fn call_stop(hart: &Hart) -> Option<Stop>
    ensures { result ≡ (if reg hart.now.x 17 == 0
        then Some (record { code = 1; value = reg hart.now.x 10 }) else None) }
{
    if hart.reg(Reg::new(17)) == 0 {
        return Some(Stop {
            code: 1,
            value: hart.reg(Reg::new(10)),
        });
    }
    None
}

/// The stop of an instruction that is neither a memory operation nor a call.
fn other_stop(
    alloc: Global,
    pages: &Pages,
    begun: Hart,
    i: Instr,
) -> Result<Option<Stop>, OutOfMemory>
    requires known { decoded pages.now.memory begun.pc ≡ Some i }
    requires runs { begun.stop ≡ None }
    requires none { operation_in (action i begun.x begun.pc) ≡ None }
    ensures { i ≢ Ecall → IfOk result (λ o. o ≡
        stop_in pages.now.memory begun.x (action i begun.x begun.pc)) }
{
    let mut hart = begun;
    let mut bus = Buffered::new(alloc, pages);
    step_through(&mut hart, &mut bus, i)?;
    drop(bus);
    Ok(hart.stop)
}

/// The stop of an instruction.
fn instruction_stop(
    alloc: Global,
    pages: &Pages,
    hart: Hart,
    i: Instr,
) -> Result<Option<Stop>, OutOfMemory>
    requires known { decoded pages.now.memory hart.pc ≡ Some i }
    requires runs { hart.stop ≡ None }
    ensures { IfOk result (λ o. o ≡ stop_in pages.now.memory hart.x (action i hart.x hart.pc)) }
{
    if let Instr::Ecall = i {
        return Ok(call_stop(&hart));
    }
    match operation_of(&hart, &i) {
        Some(operation) => Ok(access_stop(pages, &operation)),
        None => other_stop(alloc, pages, hart, i),
    }
}

/// The stop of a run's next instruction, with 0 for each unknown register. Where all are known, it can stop in no other way.
///
/// # Errors
///
/// `OutOfMemory` alone.
pub fn stop_of(alloc: Global, pages: &Pages, state: &RunState) -> Result<Option<Stop>, OutOfMemory>
    ensures { IfOk result (λ o.
        o ≡ stop_at pages.now.memory (filled state.now.registers) state.now.pc) }
{
    let Some(word) = pages.fetch(state.pc) else {
        return Ok(Some(stop_with(3)));
    };
    match decode(word) {
        Some(i) => instruction_stop(alloc, pages, hart_of(state), i),
        None => Ok(Some(stop_with(2))),
    }
}
