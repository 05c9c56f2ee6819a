ghost use Rattle.std.specs.Prelude.{◌≡◌, ◌+◌, ◌≤◌, [], List, OnOk, IfOk, true};
ghost use Rattle.round_schedule.specs.declared.event.Event.{Event as Happened};
ghost use Rattle.trace.specs.Traced.{IsTrace};
ghost use Rattle.guest_rounds.specs.HartEnds.{HasPlaces, count_copied};
ghost use Rattle.guest_rounds.specs.Keepers.{never};
ghost use Rattle.run_events.specs.Hits.{sought_in};
ghost use Rattle.run_events.specs.Watched.{HasWatched};

use crate::finding::sought_in;
use crate::sought::{Search, Sought};
use guest_rounds::{EventKeeper, Tally};
use hart_rounds::{HartEnd, LogForm};
use pages::OutOfMemory;
use round_schedule::Event;
use serial_phase::SerialLog;
use std::alloc::Global;
use std::marker::PhantomData;
use trace::Trace;

/// So many events are kept whole at once, and those of one more round.
const MANY_EVENTS: usize = 1 << 18;

/// Keeps of a run's events those that are sought. The last ones are kept whole, until there are many of them.
#[derive(Drop)]
pub(crate) struct Watcher<'a, S: Search> {
    alloc: Global,
    sought: Sought<'a>,
    /// What is sought of the events that were looked through.
    found: Vec<Event>,
    /// The events after those.
    last: Trace,
    of: PhantomData<S>,
}

impl<'a, S: Search> Watcher<'a, S> {
    /// One that has seen no event.
    pub(crate) fn new(alloc: Global, sought: Sought<'a>) -> Watcher<'a, S>
        requires ranges { sought.ranges.now ≡ S.ranges }
        requires within { sought.within ≡ S.within }
        ensures { HasWatched S.ranges S.within result.sought result.found.items
            result.last.events [] }
    {
        Watcher {
            alloc,
            sought,
            found: Vec::new(alloc),
            last: Trace::new(alloc, Vec::new(alloc)),
            of: PhantomData,
        }
    }

    /// The events that are sought, of all that it has seen.
    pub(crate) fn into_found(mut self) -> Result<Vec<Event>, OutOfMemory>
        ensures { (es : List Happened) → HasWatched S.ranges S.within self.entry.sought
            self.entry.found.items self.entry.last.events es →
            IfOk result (λ v. v.items ≡ sought_in S.within S.ranges es) }
    {
        self.look_through()?;
        Ok(self.found)
    }

    /// Looks through the last events, and lets them go. Where memory is refused, they stay.
    fn look_through(&mut self) -> Result<(), OutOfMemory>
        ensures seen { (es : List Happened) →
            HasWatched S.ranges S.within self.old.sought self.old.found.items
            self.old.last.events es → HasWatched S.ranges S.within self.new.sought
            self.new.found.items self.new.last.events es }
        ensures last { OnOk result (self.new.last.events ≡ []) }
    {
        let mut found = sought_in(self.alloc, &self.last, self.sought)?;
        self.found.append(&mut found)?;
        self.last = Trace::new(self.alloc, Vec::new(self.alloc));
        Ok(())
    }
}

impl<'a, S: Search> EventKeeper for Watcher<'a, S> {
    ghost logs = { true };

    ghost keeps = { λ w es. HasWatched S.ranges S.within w.sought w.found.items w.last.events es };

    ghost opens_with = { λ w. [] };

    ghost may_keep = { IsTrace };

    ghost has_room = { λ w adopts os turns.
        HasPlaces adopts os w.last × (count_copied adopts os + turns ≤ w.last.room) };

    fn log_form(&self) -> LogForm {
        self.last.log_form()
    }

    fn make_room(
        &mut self,
        ends: &mut [HartEnd],
        tally: Tally,
        turns: u32,
    ) -> Result<bool, OutOfMemory> {
        if self.last.len() >= MANY_EVENTS {
            self.look_through()?;
        }
        self.last.make_room(ends, tally, turns)
    }

    fn add(&mut self, round: u32, ends: &mut [HartEnd], log: &SerialLog, adopts: bool) {
        self.last.add(round, ends, log, adopts);
    }

    ghost keeps_any = { λ e k es fs kept. never e };

    ghost may_keep_any = { λ e es fs may. never e };
}
