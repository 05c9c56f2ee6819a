ghost use Rattle.std.specs.Prelude.{◌≡◌, ℕ, ◌+◌, ◌≤◌, ◌<◌, ◌==◌, ◌++◌, ◌||◌, ◌&&◌, [], length, option_to_list};
ghost use Rattle.hart_step.specs.Registers.{reg};
ghost use Rattle.hart_step.specs.Room.{HasSpares};
ghost use Rattle.hart_step.specs.Words.{words_of};
ghost use Rattle.serial_phase.specs.Asking.{asks_in_reserving_turn};
ghost use Rattle.serial_phase.specs.Forgetting.{asks_number, is_ecall};
ghost use Rattle.serial_phase.specs.Phase.{TakesTurn, turn_done};
ghost use Rattle.serial_phase.specs.Roomed.{HasRoom};

use crate::instruction::serve;
use crate::log::SerialLog;
use crate::shared::{SharedState, Turn};
use hart_step::Hart;
use pages::Pages;
use round_schedule::{Access, Stepped};
use rv64_decode::{Instr, Reg, decode};

/// Does the serial turn of a hart as `take_turn` does it, and answers whether one of its instructions is the call for the number
/// of the round.
pub fn take_asking_turn(h: &mut Hart, state: &mut SharedState, turn: Turn) -> bool
    requires hart { turn.hart < length state.old.reservations }
    requires pages { HasSpares turn.budget state.old.pages }
    requires console { HasRoom turn.budget state.old.console }
    requires log { turn.budget ≤ state.old.log.room }
    requires began { state.old.log.current ≡ [] }
    ensures asks { result ≡ asks_in_reserving_turn (words_of state.old.pages.memory.code)
        (asks_number state.old.pages.memory.code) turn.round turn.hart turn.budget (record {
          hart = h.old;
          bytes = state.old.pages.memory.bytes;
          console = state.old.console.console;
          reservations = state.old.reservations;
          log = [];
        }) }
    ensures turn { TakesTurn (turn_done turn h.old state.old) h.new state.old state.new }
    ensures pages { (n : ℕ) →
        HasSpares (n + turn.budget) state.old.pages → HasSpares n state.new.pages }
    ensures console { (n : ℕ) →
        HasRoom (n + turn.budget) state.old.console → HasRoom n state.new.console }
    ensures log { state.old.log.room ≤ state.new.log.room + turn.budget }
    ensures reservations { length state.new.reservations ≡ length state.old.reservations }
{
    let mut asked = false;
    let mut left = turn.budget;
    while left > 0 {
        if h.stop.is_some() {
            return asked;
        }
        asked = asked_by(asked, h, &state.pages);
        match serve(h, state, turn.hart, turn.round) {
            Stepped::Done(access) => keep(&mut state.log, access),
            Stepped::Waits => return asked,
            Stepped::Stopped(_) => return asked,
        }
        left -= 1;
    }
    asked
}

/// Whether the number was asked for before, or the hart's next instruction is the call for it.
fn asked_by(asked: bool, h: &Hart, pages: &Pages) -> bool
    ensures { result ≡ (asked || asks_number pages.now.memory.code h.now pages.now.memory.bytes) }
{
    asked || asks(h, pages)
}

/// Whether the hart's next instruction is the call for the number of the round.
fn asks(h: &Hart, pages: &Pages) -> bool
    ensures { result ≡ asks_number pages.now.memory.code h.now pages.now.memory.bytes }
{
    match pages.fetch(h.pc) {
        Some(word) => match decode(word) {
            Some(i) => is_call_for_round(h, i),
            None => false,
        },
        None => false,
    }
}

/// Whether it is, once it is decoded: ECALL (manual, section 2.8) with 3 in x17.
fn is_call_for_round(h: &Hart, i: Instr) -> bool
    ensures { result ≡ (is_ecall i && (reg h.now.x 17 == 3)) }
{
    match i {
        Instr::Ecall => h.reg(Reg::new(17)) == 3,
        _ => false,
    }
}

/// Adds an access to the turn that is under way, where there is one.
fn keep(log: &mut SerialLog, access: Option<Access>)
    requires { 0 < log.old.room }
    ensures current { log.new.current ≡ log.old.current ++ option_to_list access }
    ensures closed { log.new.closed ≡ log.old.closed }
    ensures room { log.old.room ≤ log.new.room + 1 }
{
    match access {
        Some(access) => log.push(access),
        None => {}
    }
}
