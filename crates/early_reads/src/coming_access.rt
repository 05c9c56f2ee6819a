//! The access of an instruction, as far as the code tells it.
ghost use Rattle.std.specs.Prelude.{◌≡◌, ℕ, List, None, IsTrue};
ghost use Rattle.hart_step.specs.Effect.{action};
ghost use Rattle.all_endings.specs.Locality.{KnowsButData, filled};
ghost use Rattle.memory_order.specs.Registers.{registers_of};
ghost use Rattle.run_bounds.specs.Operations.{operation_in};
ghost use Rattle.early_reads.specs.Flows.{access_in};

use hart_states::{filled, known};
use hart_step::Hart;
use memory_order::used_registers;
use round_schedule::Access;
use run_bounds::operation_of;
use rv64_decode::{FenceMode, FenceSet, Instr};

/// The access of an instruction that is no memory operation.
fn fence_of(i: &Instr) -> Access
    ensures { (x : List ℕ) (pc : ℕ) → operation_in (action i.now x pc) ≡ None →
        access_in (action i.now x pc) ≡ result }
{
    let none = FenceSet {
        reads: false,
        writes: false,
    };
    match *i {
        Instr::Fence {
            before,
            after,
            mode,
        } => Access::Fence {
            before,
            after,
            mode,
            place: 0,
        },
        _ => Access::Fence {
            before: none,
            after: none,
            mode: FenceMode::Normal,
            place: 0,
        },
    }
}

/// The access of an instruction over constants, with 0 for each register that is none.
pub fn access_over(constants: &[Option<u64>; 32], pc: u64, i: &Instr) -> Access
    ensures { result ≡ access_in (action i.now (filled constants.now) pc) }
{
    let hart = Hart {
        x: filled(constants),
        pc,
        stop: None,
        done: 0,
    };
    match operation_of(&hart, i) {
        Some(operation) => operation.access(),
        None => fence_of(i),
    }
}

/// Whether the address of an instruction's access comes from constants.
pub fn knows_address(constants: &[Option<u64>; 32], i: &Instr) -> bool
    ensures knows { IsTrue result → KnowsButData (registers_of i.now) constants.now }
    ensures all { KnowsButData (registers_of i.now) constants.now → IsTrue result }
{
    let used = used_registers(i);
    known(constants, used.address).is_some()
        && known(constants, used.first).is_some()
        && known(constants, used.second).is_some()
}
