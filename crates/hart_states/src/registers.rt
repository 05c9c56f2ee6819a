//! Registers of which some are unknown.
ghost use Rattle.std.specs.Prelude.{◌≡◌, map, Some};
ghost use Rattle.all_endings.specs.Locality.{filled, set_view, view};
ghost use Rattle.all_endings.specs.RunStates.{answers_to};

use memory_order::used_registers;
use rv64_decode::{Instr, Reg};

/// What a register holds, where that is known. x0 holds 0.
pub fn known(registers: &[Option<u64>; 32], r: Reg) -> Option<u64>
    ensures { result ≡ view registers.now r }
{
    let value = registers[r.index()];
    if r.index() == 0 { Some(0) } else { value }
}

/// The registers, once one has got this.
pub(crate) fn with_result(
    mut registers: [Option<u64>; 32],
    r: Reg,
    value: Option<u64>,
) -> [Option<u64>; 32]
    ensures { result ≡ set_view registers r value }
{
    if r.index() != 0 {
        registers[r.index()] = value;
    }
    registers
}

/// 0 for each unknown number.
pub fn filled(registers: &[Option<u64>; 32]) -> [u64; 32]
    ensures { result ≡ filled registers.now }
{
    let mut numbers = [0; 32];
    for r in 0..32 {
        numbers[r] = registers[r].unwrap_or(0);
    }
    numbers
}

/// Registers all of which are known.
pub(crate) fn all_known(numbers: &[u64; 32]) -> [Option<u64>; 32]
    ensures { result ≡ map (λ n. Some n) numbers.now }
{
    let mut registers = [None; 32];
    for r in 0..32 {
        registers[r] = Some(numbers[r]);
    }
    registers
}

/// The register that an instruction writes.
#[tactic(auto, using(crate::proofs::Choices::answers_elsewhere))]
pub fn answered(i: &Instr) -> Reg
    ensures { result ≡ answers_to i.now }
{
    match *i {
        Instr::Ecall => Reg::new(10),
        _ => used_registers(i).destination,
    }
}
