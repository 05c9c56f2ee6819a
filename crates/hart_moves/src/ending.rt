//! What has to be known where a run ends.
ghost use Rattle.std.specs.Prelude.{◌↔◌, ◌≤◌, ℕ, IsTrue};
ghost use Rattle.run_bounds.specs.Touched.{known_at};
ghost use Rattle.all_endings.specs.Tables.{IsSettled};
ghost use Rattle.all_endings.specs.Factorizing.{IsOpenCall};
ghost use Rattle.all_endings.specs.Halting.{KnowsRegisters};
ghost use Rattle.hart_states.specs.States.{listed, state_of};

use crate::moving::instruction_at;
use hart_states::{ListedStore, RunState, known};
use pages::Pages;
use run_bounds::{TouchedByte, byte_known};
use rv64_decode::{Instr, Reg};

/// Whether all registers are known.
pub fn knows_registers(state: &RunState) -> bool
    ensures { IsTrue result ↔ KnowsRegisters (state_of state.now) }
{
    for r in 0u8..32 {
        if known(&state.registers, Reg::new(r)).is_none() {
            return false;
        }
    }
    true
}

/// Whether nothing that a run did is later.
pub fn is_settled(list: &[ListedStore], state: &RunState) -> bool
    ensures { IsTrue result ↔ IsSettled (listed list.now) (state_of state.now) }
{
    all_before(&state.bytes, list.len())
}

/// Whether no byte is touched behind a time.
fn all_before(bytes: &[TouchedByte], time: usize) -> bool
    ensures { IsTrue result ↔ ((x : ℕ) → (known_at bytes.now x).touched ≤ time) }
{
    for index in 0..bytes.len() {
        if byte_known(bytes, bytes[index].address).touched > time {
            return false;
        }
    }
    true
}

/// Whether the next instruction is a call whose number is unknown.
pub fn is_open_call(pages: &Pages, state: &RunState) -> bool
    ensures { IsTrue result ↔ IsOpenCall pages.now.memory (state_of state.now) }
{
    match instruction_at(pages, state.pc) {
        Some(Instr::Ecall) => known(&state.registers, Reg::new(17)).is_none(),
        _ => false,
    }
}
