ghost use Rattle.std.specs.Prelude.{◌≡◌, ◌≤◌, Bool, length, List};
ghost use Rattle.round_schedule.specs.Schedule.{HartRound};
ghost use Rattle.commit_phase.specs.Commit.{Committed};
ghost use Rattle.hart_step.specs.declared.hart.Hart.{Hart};
ghost use Rattle.guest_rounds.specs.HartEnds.{AreFit, AreEndsOf, AreReady};

use crate::crew::Crew;
use commit_phase::{OpenShards, commit as commit_all, commit_on};
use hart_rounds::HartEnd;
use pages::Pages;
use round_schedule::{MOST_HARTS, Reservations};
use std::thread::Threads;
use store_buffer::StoreBuffer;

/// Commits the stores of all harts, in hart order. Where the crew shares the commit, each worker writes those of a part of
/// memory. Takes no memory.
pub fn commit<G, R: Threads + Sync>(
    crew: &Crew<'_, G, R>,
    pages: &mut Pages,
    reservations: &mut Reservations,
    ends: &[HartEnd],
)
    requires workers { 1 ≤ crew.now.workers }
    requires few { length ends.now ≤ MOST_HARTS }
    requires fits { AreFit pages.old.memory ends.now }
    requires ready { AreReady pages.old ends.now }
    ensures ready { pages.new.ready ≡ pages.old.ready }
    ensures spare { pages.new.spare ≡ pages.old.spare }
    ensures size { length reservations.new ≡ length reservations.old }
    ensures committed { (logs : Bool) (rs : List (HartRound Hart)) →
        AreEndsOf logs pages.old.memory rs ends.now →
        Committed rs pages.old pages.new reservations.old reservations.new }
{
    if crew.workers > 1 && stores_lines(ends, crew.least_lines) {
        commit_on(
            crew.rt,
            pages,
            reservations,
            ends,
            crew.workers,
            &OpenShards,
        );
    } else {
        commit_all(pages, reservations, ends);
    }
}

/// Whether the harts stored to so many lines at least, each hart's counted.
fn stores_lines(ends: &[HartEnd], least: usize) -> bool {
    least == 0 || line_count(ends) >= least
}

/// How many lines the harts stored to, each hart's counted.
fn line_count(ends: &[HartEnd]) -> usize {
    let mut count: usize = 0;
    for end in ends {
        count = count.saturating_add(lines_of(&end.buffer));
    }
    count
}

/// How many lines a buffer has.
fn lines_of(buffer: &StoreBuffer) -> usize {
    let mut count: usize = 0;
    for _line in buffer.lines() {
        count = count.saturating_add(1);
    }
    count
}
