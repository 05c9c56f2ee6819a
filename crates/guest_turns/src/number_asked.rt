ghost use Rattle.std.specs.Prelude.{◌≡◌, ◌<◌, ◌≤◌, ◌+◌, ◌^◌, [], Bool, List, length, IfOk};
ghost use Rattle.pages.specs.Memory.{TouchesNoCode};
ghost use Rattle.round_schedule.specs.declared.event.Event.{Event};
ghost use Rattle.round_schedule.specs.Schedule.{HartRound, all_stores};
ghost use Rattle.round_schedule.specs.Reservations.{Tied};
ghost use Rattle.round_planner.specs.Quotas.{quotas_of};
ghost use Rattle.hart_step.specs.declared.hart.Hart.{Hart};
ghost use Rattle.hart_step.specs.Words.{words_of};
ghost use Rattle.serial_phase.specs.Asking.{asks_in_round, asks_in_reserving_phase};
ghost use Rattle.serial_phase.specs.Forgetting.{asks_number};
ghost use Rattle.guest_rounds.specs.Guests.{guest_state, shared_of};
ghost use Rattle.guest_rounds.specs.HartEnds.{AreFit, AreEndsOf};
ghost use Rattle.guest_turns.specs.Asked.{ready_for_turns};
ghost use Rattle.guest_turns.specs.NumberAsked.{TellsAsking};
ghost use Rattle.round_schedule.specs.Bounds.{AreWorkers};

use crate::asked_turn::turn_of;
use guest_rounds::{Crew, GuestState, HalfRound, commit, make_turn_room};
use hart_rounds::HartEnd;
use pages::OutOfMemory;
use parallel_phase::Open;
use round_planner::Plan;
use round_schedule::MOST_HARTS;
use serial_phase::{SharedState, Turn, take_asking_turn};
use std::sync::Wait;
use std::thread::Threads;

/// Whether a hart of a guest asks for the number of the round in the round after `done` rounds.
pub fn asks_in_round<R: Threads + Wait + Sync>(
    crew: &Crew<'_, Open, R>,
    guest: GuestState,
    plan: &Plan,
    done: u32,
) -> Result<bool, OutOfMemory>
    requires workers { AreWorkers crew.now.workers }
    requires harts { length guest.harts ≡ plan.now.harts }
    requires done { done + 1 < 2 ^ 32 }
    ensures { IfOk result (λ b. (es : List Event) → Tied guest.shared.reservations es → b ≡
        asks_in_round (words_of guest.shared.memory.code) (asks_number guest.shared.memory.code)
        plan.now.budget (quotas_of plan.now) (guest_state done es guest)) }
{
    // The types keep: bytes in memory, at most 64 harts, and a budget of at most 1,000.
    guest.pages().bytes_fit();
    let _harts = plan.harts();
    let budget = plan.budget();
    let half = guest.into_half_round(crew, plan, done)?;
    let HalfRound { mut shared, ends } = half;
    asks_in_turns(crew, &mut shared, ends.as_slice(), done + 1, budget)
}

/// Whether one of the harts whose rounds left this asks in the serial phase that follows.
fn asks_in_turns<G, R: Threads + Sync>(
    crew: &Crew<'_, G, R>,
    shared: &mut SharedState,
    ends: &[HartEnd],
    round: u32,
    budget: u32,
) -> Result<bool, OutOfMemory>
    requires workers { 1 ≤ crew.now.workers }
    requires rounds { (logs : Bool) × (rs : List (HartRound Hart)) ×
        AreEndsOf logs shared.old.pages.memory rs ends.now ×
        TouchesNoCode shared.old.pages.memory.code (all_stores rs) }
    requires few { length ends.now ≤ MOST_HARTS }
    requires fits { AreFit shared.old.pages.memory ends.now }
    requires size { length shared.old.reservations ≡ length ends.now }
    requires budget { budget ≤ 1000 }
    ensures { IfOk result (λ b. (logs : Bool) (rs : List (HartRound Hart)) →
        AreEndsOf logs shared.old.pages.memory rs ends.now →
        b ≡ asks_in_reserving_phase (words_of shared.old.pages.memory.code)
        (asks_number shared.old.pages.memory.code) budget round 0 rs
        (ready_for_turns (shared_of shared.old) rs)) }
{
    make_turn_room(shared, ends, 0)?;
    commit(crew, &mut shared.pages, &mut shared.reservations, ends);
    let first = Turn {
        hart: 0,
        round,
        budget,
    };
    one_asks(shared, ends, first)
}

/// Does the turns of the waiting ones among these harts, of which the first one's turn would be this, up to one in which its hart
/// asks, and answers whether there is one.
fn one_asks(shared: &mut SharedState, ends: &[HartEnd], turn: Turn) -> Result<bool, OutOfMemory>
    requires harts { turn.hart + length ends.now ≤ length shared.old.reservations }
    requires few { length shared.old.reservations ≤ MOST_HARTS }
    ensures { IfOk result (TellsAsking turn ends.now shared.old) }
{
    match ends {
        [] => Ok(false),
        [end, rest @ ..] => {
            let its = turn_of(end, turn);
            make_turn_room(shared, &[], its.budget)?;
            let mut hart = end.hart;
            let asks = take_asking_turn(&mut hart, shared, its);
            if asks {
                return Ok(true);
            }
            let next = Turn {
                hart: turn.hart + 1,
                ..turn
            };
            one_asks(shared, rest, next)
        }
    }
}
