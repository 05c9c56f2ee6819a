ghost use Rattle.std.specs.Prelude.{◌≡◌, ◌+◌, ◌<◌, ◌^◌, OnOk, [], false, length};
ghost use Rattle.fence_search.specs.Counting.{count_all, none_counted, with_trial};

use crate::counting::Counted;
use fence_trials::{Found, Trial};
use pages::OutOfMemory;
use std::alloc::Global;

/// What came of the numbers of a search so far.
#[derive(Drop)]
pub struct Trials {
    /// The executions that fail by what their departures moved.
    pub founds: Vec<Found>,
    pub counted: Counted,
    /// How many numbers are done.
    pub done: u32,
    /// Whether the search is over before its last number.
    pub is_over: bool,
}

impl Trials {
    /// Nothing yet.
    pub(crate) fn none(alloc: Global) -> Trials
        ensures founds { result.founds.items ≡ [] }
        ensures counted { result.counted ≡ none_counted }
        ensures done { result.done ≡ 0 }
        ensures going { result.is_over ≡ false }
    {
        Trials {
            founds: Vec::new(alloc),
            counted: Counted::none(),
            done: 0,
            is_over: false,
        }
    }

    /// Adds what came of the execution of the next number.
    ///
    /// # Errors
    ///
    /// `OutOfMemory` alone.
    pub(crate) fn add(&mut self, number: u32, trial: Trial) -> Result<(), OutOfMemory>
        requires few { count_all self.old.counted + 1 < 2 ^ 32 }
        requires more { self.old.done + 1 < 2 ^ 32 }
        requires found { length self.old.founds.items ≡ self.old.counted.failing }
        ensures counted { OnOk result (self.new.counted
            ≡ with_trial trial number self.old.counted) }
        ensures done { OnOk result (self.new.done ≡ self.old.done + 1) }
        ensures found { OnOk result (length self.new.founds.items ≡ self.new.counted.failing) }
    {
        self.counted.add(number, &trial);
        self.done += 1;
        if let Trial::Fails(found) = trial {
            self.founds.push(found)?;
        }
        Ok(())
    }
}
