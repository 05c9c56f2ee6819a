ghost use Rattle.std.specs.Prelude.{◌≡◌, ◌+◌, ◌<◌, ◌^◌};
ghost use Rattle.fence_search.specs.Counting.{count_all, none_counted, with_trial};

use fence_table::Tally;
use fence_trials::Trial;

/// How many numbers came to what.
#[derive(Clone, Copy)]
pub struct Counted {
    /// Numbers whose executions end as they have to.
    pub well: u32,
    /// Numbers that fail without departures too.
    pub ordinary: Tally,
    /// Numbers that fail only with departures, by executions that are sequentially consistent.
    pub unnamed: Tally,
    /// Numbers whose executions were cut off while harts ran, and of which nothing else is known.
    pub running: Tally,
    /// Numbers that fail by what their departures moved.
    pub failing: u32,
    /// Numbers of which the checker of executions allows no order.
    pub unconfirmed: Tally,
}

impl Counted {
    /// No number.
    pub(crate) fn none() -> Counted
        ensures { result ≡ none_counted }
    {
        Counted {
            well: 0,
            ordinary: Tally::none(),
            unnamed: Tally::none(),
            running: Tally::none(),
            failing: 0,
            unconfirmed: Tally::none(),
        }
    }

    /// Counts another number, of whose execution this came.
    pub(crate) fn add(&mut self, number: u32, trial: &Trial)
        requires { count_all self.old + 1 < 2 ^ 32 }
        ensures { self.new ≡ with_trial trial.now number self.old }
    {
        match trial {
            Trial::Well => self.well += 1,
            Trial::Ordinary => self.ordinary.count(number),
            Trial::Unnamed => self.unnamed.count(number),
            Trial::Running => self.running.count(number),
            Trial::Fails(_) => self.failing += 1,
            Trial::Unconfirmed => self.unconfirmed.count(number),
        }
    }
}
