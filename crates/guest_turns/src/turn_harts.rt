ghost use Rattle.std.specs.Prelude.{◌≡◌, ◌<◌, ◌≤◌, ◌+◌, ◌^◌, ◌++◌, [], Bool, List, length, IfOk, OnOk, option_to_list};
ghost use Rattle.pages.specs.Memory.{TouchesNoCode};
ghost use Rattle.round_schedule.specs.declared.event.Event.{Event};
ghost use Rattle.round_schedule.specs.Schedule.{HartRound, all_stores};
ghost use Rattle.round_schedule.specs.Reservations.{Tied};
ghost use Rattle.round_planner.specs.Quotas.{quotas_of};
ghost use Rattle.hart_step.specs.declared.hart.Hart.{Hart};
ghost use Rattle.hart_step.specs.Room.{HasSpares, TakesDirectly};
ghost use Rattle.hart_step.specs.Words.{words_of};
ghost use Rattle.serial_phase.specs.Roomed.{HasRoom};
ghost use Rattle.guest_rounds.specs.Guests.{guest_state, shared_of};
ghost use Rattle.guest_rounds.specs.HartEnds.{AreFit, AreEndsOf};
ghost use Rattle.guest_turns.specs.Asked.{ready_for_turns};
ghost use Rattle.guest_turns.specs.ReservingTurnHarts.{ShowsTurn, ShowsTurns, turns_in_reserving_phase};
ghost use Rattle.guest_turns.specs.TurnHarts.{TurnsEndThePast, turns_in_round};
ghost use Rattle.round_schedule.specs.Bounds.{AreWorkers};

use crate::asked_turn::turn_of;
use crate::visiting::TurnVisitor;
use guest_rounds::{Crew, GuestState, HalfRound, commit, make_turn_room};
use hart_rounds::HartEnd;
use hart_step::Hart;
use pages::{OutOfMemory, Pages};
use parallel_phase::Open;
use round_planner::Plan;
use round_schedule::{Access, MOST_HARTS, Stepped};
use serial_phase::{SerialLog, SharedState, Turn, serve};
use std::sync::Wait;
use std::thread::Threads;

/// What `visit_turns` shows of a hart is what its past in the round ends with, from where its part of the parallel phase ends.
pub fn turns_end_the_past<H, C>()
    ensures { TurnsEndThePast H C }
{}

/// Shows a visitor the harts along the serial turns of the round after `done` rounds of a guest: of each hart, in hart order, what it
/// is before each instruction of its turn, and as the turn leaves it, its stop told. One that has no turn is shown once, as its part
/// of the parallel phase left it.
pub fn visit_turns<V: TurnVisitor, R: Threads + Wait + Sync>(
    crew: &Crew<'_, Open, R>,
    guest: GuestState,
    plan: &Plan,
    done: u32,
    visitor: &mut V,
) -> Result<(), OutOfMemory>
    requires workers { AreWorkers crew.now.workers }
    requires harts { length guest.harts ≡ plan.now.harts }
    requires done { done + 1 < 2 ^ 32 }
    ensures { OnOk result ((es : List Event) → Tied guest.shared.reservations es → (first : V) →
        V.knows first visitor.old [] [] → V.knows first visitor.new (turns_in_round
        (words_of guest.shared.memory.code) plan.now.budget (quotas_of plan.now)
        (guest_state done es guest)) []) }
{
    // The types keep: bytes in memory, at most 64 harts, and a budget of at most 1,000.
    guest.pages().bytes_fit();
    let _harts = plan.harts();
    let budget = plan.budget();
    let half = guest.into_half_round(crew, plan, done)?;
    let HalfRound { mut shared, ends } = half;
    visit_committed(
        crew,
        &mut shared,
        ends.as_slice(),
        done + 1,
        budget,
        visitor,
    )
}

/// Shows the harts along the turns of the serial phase that follows what these rounds left.
fn visit_committed<V: TurnVisitor, G, R: Threads + Sync>(
    crew: &Crew<'_, G, R>,
    shared: &mut SharedState,
    ends: &[HartEnd],
    round: u32,
    budget: u32,
    visitor: &mut V,
) -> Result<(), OutOfMemory>
    requires workers { 1 ≤ crew.now.workers }
    requires rounds { (logs : Bool) × (rs : List (HartRound Hart)) ×
        AreEndsOf logs shared.old.pages.memory rs ends.now ×
        TouchesNoCode shared.old.pages.memory.code (all_stores rs) }
    requires few { length ends.now ≤ MOST_HARTS }
    requires fits { AreFit shared.old.pages.memory ends.now }
    requires size { length shared.old.reservations ≡ length ends.now }
    requires budget { budget ≤ 1000 }
    ensures { OnOk result ((logs : Bool) (rs : List (HartRound Hart)) →
        AreEndsOf logs shared.old.pages.memory rs ends.now → (first : V) →
        V.knows first visitor.old [] [] → V.knows first visitor.new (turns_in_reserving_phase
        (words_of shared.old.pages.memory.code) budget round 0 rs
        (ready_for_turns (shared_of shared.old) rs)) []) }
{
    make_turn_room(shared, ends, 0)?;
    commit(crew, &mut shared.pages, &mut shared.reservations, ends);
    let first = Turn {
        hart: 0,
        round,
        budget,
    };
    visit_each(shared, ends, first, visitor)
}

/// Does the turns of the waiting ones among these harts, of which the first one's turn would be this, and shows the harts along each.
fn visit_each<V: TurnVisitor>(
    shared: &mut SharedState,
    ends: &[HartEnd],
    turn: Turn,
    visitor: &mut V,
) -> Result<(), OutOfMemory>
    requires harts { turn.hart + length ends.now ≤ length shared.old.reservations }
    requires few { length shared.old.reservations ≤ MOST_HARTS }
    requires began { shared.old.log.current ≡ [] }
    ensures { OnOk result (ShowsTurns V.knows turn ends.now shared.old visitor.old visitor.new) }
{
    match ends {
        [] => Ok(()),
        [end, rest @ ..] => {
            let its = turn_of(end, turn);
            shared.console.reserve(its.budget as usize)?;
            shared.log.reserve(its.budget as usize)?;
            let mut hart = end.hart;
            let count = visit_turn(&mut hart, shared, its, visitor)?;
            visitor.after_turn(turn.hart, count, &hart)?;
            shared.log.clear();
            let next = Turn {
                hart: turn.hart + 1,
                ..turn
            };
            visit_each(shared, rest, next, visitor)
        }
    }
}

/// Does the turn of a hart, and shows what the hart is before each of the instructions that it does there. Answers how many they are.
fn visit_turn<V: TurnVisitor>(
    h: &mut Hart,
    state: &mut SharedState,
    turn: Turn,
    visitor: &mut V,
) -> Result<u32, OutOfMemory>
    requires hart { turn.hart < length state.old.reservations }
    requires console { HasRoom turn.budget state.old.console }
    requires log { turn.budget ≤ state.old.log.room }
    requires began { state.old.log.current ≡ [] }
    ensures { IfOk result (λ k. ShowsTurn V.knows turn h.old state.old visitor.old k
        h.new state.new visitor.new) }
{
    let mut done = 0;
    while done < turn.budget {
        if h.stop.is_some() {
            return Ok(done);
        }
        let before = *h;
        make_spare(&mut state.pages)?;
        match serve(h, state, turn.hart, turn.round) {
            Stepped::Done(access) => keep(&mut state.log, access),
            Stepped::Waits => return Ok(done),
            Stepped::Stopped(_) => return Ok(done),
        }
        visitor.before_instruction(turn.hart, done, &before)?;
        done += 1;
    }
    Ok(done)
}

/// Has a spare page for the next store, where it can need one: one at a time, since most turns store to few pages.
fn make_spare(pages: &mut Pages) -> Result<(), OutOfMemory>
    ensures memory { pages.new.memory ≡ pages.old.memory }
    ensures idle { OnOk result (TakesDirectly pages.old [] pages.new) }
    ensures spare { OnOk result (HasSpares 1 pages.new) }
{
    // What is spare already stays.
    let spare = pages.spare().max(1);
    let alloc = pages.allocator();
    pages.prepare(alloc, &[], spare)
}

/// Adds an access to the turn that is under way, where there is one.
fn keep(log: &mut SerialLog, access: Option<Access>)
    requires { 0 < log.old.room }
    ensures current { log.new.current ≡ log.old.current ++ option_to_list access }
    ensures closed { log.new.closed ≡ log.old.closed }
    ensures room { log.old.room ≤ log.new.room + 1 }
{
    match access {
        Some(access) => log.push(access),
        None => {}
    }
}
