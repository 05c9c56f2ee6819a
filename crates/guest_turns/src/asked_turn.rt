ghost use Rattle.std.specs.Prelude.{◌≡◌, ℕ, ◌<◌, ◌≤◌, ◌+◌, Bool, List, [], length, IfOk, OnOk, if◌then◌else◌};
ghost use Rattle.pages.specs.Memory.{TouchesNoCode};
ghost use Rattle.round_schedule.specs.Schedule.{HartRound, all_stores};
ghost use Rattle.hart_step.specs.declared.hart.Hart.{Hart};
ghost use Rattle.hart_step.specs.Room.{HasSpares};
ghost use Rattle.serial_phase.specs.Roomed.{HasRoom};
ghost use Rattle.guest_turns.specs.Asked.{HadTurns, reserving_turn_begun, found_at, found_in, one_further};
ghost use Rattle.guest_rounds.specs.Guests.{shared_of};
ghost use Rattle.guest_rounds.specs.HartEnds.{AreFit, AreEndsOf};

use guest_rounds::{Crew, commit, make_turn_room};
use hart_rounds::HartEnd;
use hart_step::Hart;
use moments::Sight;
use pages::OutOfMemory;
use round_schedule::MOST_HARTS;
use serial_phase::{SharedState, Turn, take_turn};
use std::thread::Threads;

/// A place in a serial turn.
#[derive(Clone, Copy)]
pub(crate) struct TurnPlace {
    /// Whose turn it is.
    pub hart: u32,
    /// In which round.
    pub round: u32,
    /// How many instructions a turn may do.
    pub budget: u32,
    /// How many of them are done, at most the budget.
    pub count: u32,
}

/// What a waiting hart sees at a place in its turn, for which it went out of its part of the round as `start`: after the commit and
/// the turns of the harts before it. `None` where it does fewer instructions.
pub(crate) fn ask_turn<G, R: Threads + Sync>(
    crew: &Crew<'_, G, R>,
    shared: &mut SharedState,
    ends: &[HartEnd],
    start: Hart,
    place: TurnPlace,
) -> Result<Option<Sight>, OutOfMemory>
    requires workers { 1 ≤ crew.now.workers }
    requires rounds { (logs : Bool) × (rs : List (HartRound Hart)) ×
        AreEndsOf logs shared.old.pages.memory rs ends.now ×
        TouchesNoCode shared.old.pages.memory.code (all_stores rs) }
    requires few { length ends.now ≤ MOST_HARTS }
    requires fits { AreFit shared.old.pages.memory ends.now }
    requires size { length shared.old.reservations ≡ length ends.now }
    requires hart { place.hart < length ends.now }
    requires budget { place.budget ≤ 1000 }
    requires count { place.count ≤ place.budget }
    ensures { IfOk result (λ s. (logs : Bool) (rs : List (HartRound Hart)) →
        AreEndsOf logs shared.old.pages.memory rs ends.now →
        s ≡ found_in (shared_of shared.old) place start rs) }
{
    let earlier = &ends[..place.hart as usize];
    make_turn_room(shared, ends, 0)?;
    commit(crew, &mut shared.pages, &mut shared.reservations, ends);
    let first = Turn {
        hart: 0,
        round: place.round,
        budget: place.budget,
    };
    take_turns(shared, earlier, first)?;
    make_turn_room(shared, &[], place.budget)?;
    sight_at(shared, start, place)
}

/// Does the turns of the waiting ones among these harts, of which the first one's turn would be this.
fn take_turns(shared: &mut SharedState, ends: &[HartEnd], turn: Turn) -> Result<(), OutOfMemory>
    requires harts { turn.hart + length ends.now ≤ length shared.old.reservations }
    requires few { length shared.old.reservations ≤ MOST_HARTS }
    ensures turns { OnOk result (HadTurns turn ends.now shared.old shared.new) }
    ensures size { length shared.new.reservations ≡ length shared.old.reservations }
{
    match ends {
        [] => Ok(()),
        [end, rest @ ..] => {
            let its = turn_of(end, turn);
            make_turn_room(shared, &[], its.budget)?;
            let mut hart = end.hart;
            take_turn(&mut hart, shared, its);
            let next = Turn {
                hart: turn.hart + 1,
                ..turn
            };
            take_turns(shared, rest, next)
        }
    }
}

/// The turn of a hart: of no instruction where it does not wait.
pub(crate) fn turn_of(end: &HartEnd, turn: Turn) -> Turn
    ensures { result ≡ record turn { budget = if end.now.waits then turn.budget else 0 } }
{
    Turn {
        budget: if end.waits { turn.budget } else { 0 },
        ..turn
    }
}

/// What a hart sees at a place in its turn, which begins here and now.
fn sight_at(
    shared: &mut SharedState,
    start: Hart,
    place: TurnPlace,
) -> Result<Option<Sight>, OutOfMemory>
    requires hart { place.hart < length shared.old.reservations }
    requires count { place.count ≤ place.budget }
    requires pages { HasSpares place.budget shared.old.pages }
    requires console { HasRoom place.budget shared.old.console }
    requires log { place.budget ≤ shared.old.log.room }
    requires began { shared.old.log.current ≡ [] }
    ensures { IfOk result (λ s.
        s ≡ found_at shared.old.pages.memory.code place (reserving_turn_begun start
        shared.old.pages.memory.bytes shared.old.console.console shared.old.reservations)) }
{
    let mut here = start;
    let turn = Turn {
        hart: place.hart,
        round: place.round,
        budget: place.count,
    };
    take_turn(&mut here, shared, turn);
    if here.done.wrapping_sub(start.done) < u64::from(place.count) {
        return Ok(None);
    }
    let seen = shared.pages.share(shared.pages.allocator())?;
    if place.count == place.budget {
        return Ok(Some(Sight::of_memory(here, seen)));
    }
    // Where one more instruction is not done, the turn ends there, and the hart may have stopped.
    let next = after_one_more(shared, here, turn)?;
    if next.done == here.done {
        Ok(Some(Sight::of_memory(next, seen)))
    } else {
        Ok(Some(Sight::of_memory(here, seen)))
    }
}

/// A hart after one more instruction of its turn.
fn after_one_more(shared: &mut SharedState, hart: Hart, turn: Turn) -> Result<Hart, OutOfMemory>
    requires hart { turn.hart < length shared.old.reservations }
    requires console { HasRoom 1 shared.old.console }
    requires log { 1 ≤ shared.old.log.room }
    ensures { IfOk result (λ h. h ≡ (one_further shared.old.pages.memory.code turn.round turn.hart
        (reserving_turn_begun hart shared.old.pages.memory.bytes shared.old.console.console
        shared.old.reservations)).hart) }
{
    shared.pages.prepare(shared.pages.allocator(), &[], 1)?;
    shared.log.clear();
    let mut next = hart;
    take_turn(&mut next, shared, Turn { budget: 1, ..turn });
    Ok(next)
}
