//! A call that goes on.
ghost use Rattle.std.specs.Prelude.{◌≡◌, false, replicate, IfSome, List, None, Some};
ghost use Rattle.execution.specs.Executions.{no_access};
ghost use Rattle.hart_step.specs.Numbers.{plus};
ghost use Rattle.rv64_decode.specs.declared.instruction.Instr.TheVariants.{Ecall};
ghost use Rattle.all_endings.specs.Locality.{view};
ghost use Rattle.all_endings.specs.RunStates.{Move};
ghost use Rattle.all_endings.specs.StoreLists.{Stored};
ghost use Rattle.hart_moves.specs.Choosing.{CallsSo, IsFound, answer_of};
ghost use Rattle.hart_moves.specs.Moves.{has_any_answer};
ghost use Rattle.hart_states.specs.States.{state_of};

use crate::computing::idle;
use hart_states::{Choice, RunState, known};
use rv64_decode::{Instr, Reg};

/// The number of a call, where it is known.
pub(crate) fn call_number(state: &RunState) -> Option<u64>
    ensures { result ≡ view state.now.registers 17 }
{
    known(&state.registers, Reg::new(17))
}

/// Whether a call of this number may have any answer: it takes in a byte, or asks for the round.
pub(crate) fn has_any_answer(number: Option<u64>) -> bool
    ensures { result ≡ has_any_answer number }
{
    match number {
        Some(number) => number == 2 || number == 3,
        None => false,
    }
}

/// The answer of a call that may have no other.
fn answer_of(number: u64) -> u64
    ensures { result ≡ answer_of number }
{
    if number == 1 { 0 } else { u64::MAX }
}

/// A call of a number.
fn call_of(state: &RunState, number: u64) -> Choice
    ensures { result ≡ record {
      instruction = Ecall;
      access = no_access;
      time = 0;
      result = Some (answer_of number);
      written = None;
      sources = replicate 8 0;
      next = plus state.now.pc 4;
    } }
{
    Choice {
        instruction: Instr::Ecall,
        access: idle(),
        time: 0,
        result: Some(answer_of(number)),
        written: None,
        sources: [0; 8],
        next: state.pc.wrapping_add(4),
    }
}

/// A call that goes on, where it may have one answer alone.
pub(crate) fn call(state: &RunState) -> Option<Choice>
    ensures found { (m : List Stored) (v : Move) → v.instruction ≡ Ecall →
        CallsSo (state_of state.now) v →
        has_any_answer (view state.now.registers 17) ≡ false →
        IsFound m (state_of state.now) result v }
    ensures fits { IfSome result (λ c. c.access ≡ no_access) }
{
    match call_number(state) {
        Some(number) if number != 0 => Some(call_of(state, number)),
        _ => None,
    }
}
