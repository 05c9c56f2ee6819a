ghost use Rattle.std.specs.Prelude.{◌≡◌, ◌≤◌, ◌↔◌, IsTrue, true};
ghost use Rattle.plan_hunt.specs.Extents.{IsSought, start_of};

use crate::ending::Ending;
use crate::hart_ending::are_well;
use crate::observing::HuntObserver;
use crate::row::Row;

/// With which ending a hunt is over before its last plan.
#[derive(Clone, Copy, PartialEq, Eq)]
pub enum Until {
    /// With none: all its plans are done.
    Done,
    /// The first in which a hart didn't exit with 0.
    Bad,
    /// The first that is another than that of the first plan.
    Differ,
}

/// How far a hunt goes.
#[derive(Clone, Copy)]
pub struct Extent {
    /// The first plan.
    pub first: u32,
    /// How many plans there are at most, from the first one on.
    pub most: u32,
    /// With which ending it is over before.
    pub until: Until,
    /// Whether it is over where there is no more time. The observer says whether there is.
    pub is_timed: bool,
}

impl Extent {
    /// Whether there is no time for one more plan. There is for the first.
    pub fn is_out_of_time<O: HuntObserver>(self, observer: &O, done: u32) -> bool
        ensures { IsTrue result → (self.is_timed ≡ true) × (1 ≤ done) }
    {
        self.is_timed && done > 0 && !observer.has_time()
    }
}

impl Until {
    /// Whether a hunt whose first plan ends so is over with an ending.
    fn is_sought(self, start: &Ending, ending: &Ending) -> bool
        ensures { IsTrue result ↔ IsSought self start.now ending.now }
    {
        match self {
            Until::Done => false,
            Until::Bad => !are_well(ending.stops()),
            Until::Differ => !ending.is_same(start),
        }
    }

    /// Whether a hunt with these rows so far is over with the ending of the plan that comes next.
    pub fn is_over_with(self, rows: &[Row], ending: &Ending) -> bool
        ensures { IsTrue result ↔ IsSought self (start_of rows.now ending.now) ending.now }
    {
        match rows.first() {
            Some(row) => self.is_sought(&row.ending, ending),
            None => self.is_sought(ending, ending),
        }
    }
}
