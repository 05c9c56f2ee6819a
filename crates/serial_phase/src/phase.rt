ghost use Rattle.std.specs.Prelude.{◌≡◌, ℕ, ◌<◌, ◌≤◌, ◌+◌, [], length};
ghost use Rattle.hart_step.specs.Room.{HasSpares};
ghost use Rattle.serial_phase.specs.Phase.{TakesTurn, TakesTurns, budget_of, budget_of_all, is_waiting, serial_done, turn_done, turn_of};
ghost use Rattle.serial_phase.specs.Roomed.{HasRoom};

use crate::instruction::serve;
use crate::log::keep;
use crate::plain_run::take_plain;
use crate::shared::{SerialRound, SharedState, Turn};
use hart_step::Hart;
use round_schedule::{MOST_HARTS, Stepped};

/// Does the serial phase of a round: the turns of the waiting harts, in hart order, each of up to
/// `budget` instructions, 1 to 1,000.
///
/// Each turn goes on from what the one before left of memory, reservations and the console. The log
/// has the accesses of each turn. What the turns may need is there before: spare pages, or as many
/// as there are pages that are not ready, room for output and room in the log, each for as many
/// instructions as the turns may do. So no memory is taken.
pub fn serial(state: &mut SharedState, harts: &mut [Hart], phase: SerialRound)
    requires harts { length harts.old ≡ length state.old.reservations }
    requires few { length harts.old ≤ MOST_HARTS }
    requires pages { HasSpares (budget_of_all phase harts.old) state.old.pages }
    requires console { HasRoom (budget_of_all phase harts.old) state.old.console }
    requires log { budget_of_all phase harts.old ≤ state.old.log.room }
    requires closed { state.old.log.closed ≡ [] }
    requires current { state.old.log.current ≡ [] }
    ensures turns { TakesTurns (serial_done phase harts.old state.old)
        harts.new state.old state.new }
    ensures reservations { length state.new.reservations ≡ length state.old.reservations }
    ensures current { state.new.log.current ≡ [] }
    ensures code { state.new.code ≡ state.old.code }
{
    for i in 0..harts.len() {
        take_turn_of_waiting(&mut harts[i], state, i as u32, phase);
        state.log.end_turn();
    }
}

/// Whether hart `hart` waits.
fn waits(waiting: u64, hart: u32) -> bool
    requires { hart < MOST_HARTS }
    ensures { result ≡ is_waiting waiting hart }
{
    (waiting >> hart) % 2 == 1
}

/// Does the turn of a hart, where it waits.
// Inlined, since most harts of a round have no turn.
#[inline(always)]
fn take_turn_of_waiting(h: &mut Hart, state: &mut SharedState, hart: u32, phase: SerialRound)
    requires few { hart < MOST_HARTS }
    requires hart { hart < length state.old.reservations }
    requires pages { HasSpares (budget_of phase.waiting hart phase.budget) state.old.pages }
    requires console { HasRoom (budget_of phase.waiting hart phase.budget) state.old.console }
    requires log { budget_of phase.waiting hart phase.budget ≤ state.old.log.room }
    requires began { state.old.log.current ≡ [] }
    ensures turn { TakesTurn (turn_done (turn_of phase hart) h.old state.old)
        h.new state.old state.new }
    ensures pages { (n : ℕ) → HasSpares (n + budget_of phase.waiting hart phase.budget)
        state.old.pages → HasSpares n state.new.pages }
    ensures console { (n : ℕ) → HasRoom (n + budget_of phase.waiting hart phase.budget)
        state.old.console → HasRoom n state.new.console }
    ensures log { state.old.log.room ≤
        state.new.log.room + budget_of phase.waiting hart phase.budget }
    ensures reservations { length state.new.reservations ≡ length state.old.reservations }
    ensures code { state.new.code ≡ state.old.code }
{
    if !waits(phase.waiting, hart) {
        return;
    }
    let turn = Turn {
        hart,
        round: phase.round,
        budget: phase.budget,
    };
    take_turn(h, state, turn);
}

/// Does the serial turn of one hart: up to `budget` instructions, or to a stop.
///
/// It goes on from what is there of memory, reservations and the console, and its accesses become
/// the turn that is under way in the log. What the turn may need is there before, and what is left
/// of it is there after. So no memory is taken.
pub fn take_turn(h: &mut Hart, state: &mut SharedState, turn: Turn)
    requires hart { turn.hart < length state.old.reservations }
    requires pages { HasSpares turn.budget state.old.pages }
    requires console { HasRoom turn.budget state.old.console }
    requires log { turn.budget ≤ state.old.log.room }
    requires began { state.old.log.current ≡ [] }
    ensures turn { TakesTurn (turn_done turn h.old state.old) h.new state.old state.new }
    ensures pages { (n : ℕ) →
        HasSpares (n + turn.budget) state.old.pages → HasSpares n state.new.pages }
    ensures console { (n : ℕ) →
        HasRoom (n + turn.budget) state.old.console → HasRoom n state.new.console }
    ensures log { state.old.log.room ≤ state.new.log.room + turn.budget }
    ensures reservations { length state.new.reservations ≡ length state.old.reservations }
    ensures code { state.new.code ≡ state.old.code }
{
    let mut left = turn.budget;
    while left > 0 {
        if h.stop.is_some() {
            return;
        }
        match serve(h, state, turn.hart, turn.round) {
            Stepped::Done(access) => keep(&mut state.log, access),
            Stepped::Waits => return,
            Stepped::Stopped(_) => return,
        }
        left = take_plain(
            h,
            state,
            Turn {
                budget: left - 1,
                ..turn
            },
        );
    }
}
