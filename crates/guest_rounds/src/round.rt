ghost use Rattle.std.specs.Prelude.{◌≡◌, ◌<◌, ◌≤◌, ◌+◌, ◌*◌, ◌^◌, ◌++◌, List, length, IfOk, OnOk, OnErr};
ghost use Rattle.pages.specs.Memory.{TouchesNoCode};
ghost use Rattle.round_schedule.specs.declared.event.Event.{Event};
ghost use Rattle.round_schedule.specs.Schedule.{HartRound, all_stores, hart_rounds};
ghost use Rattle.round_planner.specs.Quotas.{quotas_of};
ghost use Rattle.hart_step.specs.declared.hart.Hart.{Hart};
ghost use Rattle.hart_step.specs.Words.{words_of};
ghost use Rattle.hart_rounds.specs.Starts.{keeps_log};
ghost use Rattle.parallel_phase.specs.Rounds.{IsWholeHistory};
ghost use Rattle.guest_rounds.specs.Guests.{guest_events, guest_of, next_guest, shared_of};
ghost use Rattle.guest_rounds.specs.Held.{most_of_round};
ghost use Rattle.guest_rounds.specs.NextStarts.{AreOfGuest, next_start};
ghost use Rattle.guest_rounds.specs.Rounds.{count_waiting};
ghost use Rattle.guest_rounds.specs.HartEnds.{AreAtRest, AreFit, StoppedStay, AreEndsOf, count_accesses, count_true, harts_of, mask_of, waits_of};
ghost use Rattle.guest_rounds.specs.Rounds.{IsFinished, MayFinish};
ghost use Rattle.round_schedule.specs.Bounds.{AreWorkers};

use crate::committing::commit;
use crate::crew::Crew;
use crate::guest::GuestState;
use crate::keeper::EventKeeper;
use crate::parallel::{give_harts, parallel};
use crate::room::make_turn_room;
use crate::tally::Tally;
use hart_rounds::HartEnd;
use hart_step::Hart;
use pages::OutOfMemory;
use parallel_phase::Gate;
use round_planner::Plan;
use round_schedule::MOST_HARTS;
use serial_phase::{SerialRound, SharedState, serial};
use std::sync::Wait;
use std::thread::Threads;

/// What a round left beside the guest.
#[derive(Clone, Copy)]
pub struct RoundCounts {
    /// How many harts waited for the serial phase.
    pub waited: u32,
    /// How many events there were.
    pub events: u64,
}

impl GuestState {
    /// Does the rounds of all harts after `done` rounds, by the workers of a crew. Refused or not, the guest is as it was.
    pub fn do_parallel<G: Gate + Sync, R: Threads + Wait + Sync>(
        &mut self,
        crew: &Crew<'_, G, R>,
        plan: &Plan,
        done: u32,
    ) -> Result<Vec<HartEnd>, OutOfMemory>
        requires workers { AreWorkers crew.now.workers }
        requires harts { length self.old.harts ≡ plan.now.harts }
        requires done { done + 1 < 2 ^ 32 }
        ensures stays { self.new ≡ self.old }
        ensures whole { IfOk result (λ os. IsWholeHistory (next_start (keeps_log crew.now.form)
            plan.now done self.old) os.items) }
        ensures ends { IfOk result (λ os.
            AreOfGuest (keeps_log crew.now.form) plan.now done self.old os.items) }
    {
        parallel(
            crew,
            &self.shared,
            &self.harts,
            plan,
            done + 1,
            &mut self.spare,
        )
    }

    /// Does the round after `done` rounds from what its harts left on: the commit, the serial turns. The keeper gets its events.
    ///
    /// All that can be refused is asked for before the commit, so that a refusal leaves all as it was.
    pub fn do_round<E: EventKeeper, G, R: Threads + Sync>(
        &mut self,
        crew: &Crew<'_, G, R>,
        keeper: &mut E,
        plan: &Plan,
        done: u32,
        mut ends: Vec<HartEnd>,
    ) -> Result<RoundCounts, OutOfMemory>
        requires workers { 1 ≤ crew.now.workers }
        requires ends { AreOfGuest E.logs plan.now done self.old ends.items }
        requires harts { length self.old.harts ≡ plan.now.harts }
        requires done { done + 1 < 2 ^ 32 }
        requires sound { (es : List Event) × E.keeps keeper.old es ×
            E.may_keep (es ++ guest_events plan.now done self.old) }
        ensures ok { OnOk result (self.new ≡ next_guest plan.now done self.old) }
        ensures count { OnOk result (length self.new.harts ≡ length self.old.harts) }
        ensures kept { OnOk result ((es : List Event) → E.keeps keeper.old es →
            E.keeps keeper.new (es ++ guest_events plan.now done self.old)) }
        ensures opening { E.opens_with keeper.new ≡ E.opens_with keeper.old }
        ensures waited { IfOk result (λ n. n.waited ≡
            count_waiting (hart_rounds (words_of self.old.shared.memory.code)
            self.old.shared.memory.bytes (quotas_of plan.now done) self.old.harts)) }
        ensures events { IfOk result (λ n. n.events ≡
            length (guest_events plan.now done self.old)) }
        ensures few { IfOk result (λ n. n.events ≤ 64 * most_of_round) }
        ensures err { OnErr result (self.new ≡ self.old) }
        ensures untold { OnErr result ((es : List Event) → E.keeps keeper.old es →
            E.keeps keeper.new es) }
    {
        // At most 64.
        let _harts = plan.harts();
        let tally = Tally::of(&ends);
        let phase = SerialRound {
            round: done + 1,
            waiting: tally.waiting,
            budget: plan.budget(),
        };
        let counts = finish(
            crew,
            &mut self.shared,
            keeper,
            &mut ends,
            &mut self.harts,
            phase,
            tally,
        )?;
        self.spare.ends = ends;
        Ok(counts)
    }
}

/// Goes on from the rounds of the harts: the commit, the serial turns and the events.
fn finish<E: EventKeeper, G, R: Threads + Sync>(
    crew: &Crew<'_, G, R>,
    shared: &mut SharedState,
    keeper: &mut E,
    ends: &mut [HartEnd],
    harts: &mut [Hart],
    phase: SerialRound,
    tally: Tally,
) -> Result<RoundCounts, OutOfMemory>
    requires workers { 1 ≤ crew.now.workers }
    requires rounds { (rs : List (HartRound Hart)) × AreEndsOf E.logs shared.old.pages.memory
        rs ends.old × TouchesNoCode shared.old.pages.memory.code (all_stores rs) ×
        ((es : List Event) × E.keeps keeper.old es ×
        MayFinish E.may_keep phase rs ends.old (shared_of shared.old) es) }
    requires few { length ends.old ≤ MOST_HARTS }
    requires fits { AreFit shared.old.pages.memory ends.old }
    requires harts { length harts.old ≡ length ends.old }
    requires at_rest { AreAtRest harts.old ends.old }
    requires size { length shared.old.reservations ≡ length ends.old }
    requires waiting { phase.waiting ≡ mask_of (waits_of ends.old) }
    requires budget { phase.budget ≤ 1000 }
    requires waited { tally.waited ≡ count_true (waits_of ends.old) }
    requires counted { tally.accesses ≡ count_accesses ends.old }
    requires accesses { count_accesses ends.old ≤ 64000000 }
    ensures ok { IfOk result (λ n. (rs : List (HartRound Hart)) →
        AreEndsOf E.logs shared.old.pages.memory rs ends.old → (more : List Event) ×
        IsFinished phase rs ends.old (shared_of shared.old) (guest_of harts.new shared.new)
        more × (n.events ≡ length more) ×
        ((es : List Event) → E.keeps keeper.old es → E.keeps keeper.new (es ++ more))) }
    ensures few { IfOk result (λ n. n.events ≤ 64 * most_of_round) }
    ensures opening { E.opens_with keeper.new ≡ E.opens_with keeper.old }
    ensures size { length shared.new.reservations ≡ length shared.old.reservations }
    ensures waited { IfOk result (λ n. n.waited ≡ count_true (waits_of ends.old)) }
    ensures harts { OnErr result (harts.new ≡ harts.old) }
    ensures memory { OnErr result (shared.new.pages.memory ≡ shared.old.pages.memory) }
    ensures reservations { OnErr result (shared.new.reservations ≡ shared.old.reservations) }
    ensures console { OnErr result (shared.new.console.console ≡ shared.old.console.console) }
    ensures untold { OnErr result ((es : List Event) → E.keeps keeper.old es →
        E.keeps keeper.new es) }
    ensures kept { OnOk result (StoppedStay harts.new (harts_of ends.new)) }
{
    let turns = tally.waited * phase.budget;
    make_turn_room(shared, ends, turns)?;
    let adopts = keeper.make_room(ends, tally, turns)?;
    // From here on nothing is refused.
    commit(crew, &mut shared.pages, &mut shared.reservations, ends);
    give_harts(ends, harts);
    serial(shared, harts, phase);
    let events = tally.accesses + shared.log.len() as u64;
    keeper.add(phase.round, ends, &shared.log, adopts);
    Ok(RoundCounts {
        waited: tally.waited,
        events,
    })
}
