ghost use Rattle.std.specs.Prelude.{◌≡◌, ◌+◌, ◌<◌, ◌≤◌, ◌^◌, All, IfOk, IfSome, OnOk, false, length};
ghost use Rattle.fence_search.specs.Counting.{IsAnswer, tried_by};
ghost use Rattle.fence_search.specs.Searching.{AreSearchedBy, StandsSo};
ghost use Rattle.fence_trials.specs.Trials.{WasTried};

use crate::trials::Trials;
use fence_trials::{
    Executer, FenceGuest, Ordinary, Trial, TrialObserver, Tried, try_block, try_number,
};
use pages::OutOfMemory;
use plan_hunt::{Extent, HuntObserver, Task, Until, block_size};
use std::thread::Threads;

/// Tries the numbers of an extent, one block after the other.
#[derive(Drop)]
pub struct Searcher<'a, 'b, E, O> {
    pub executer: &'a E,
    pub guest: &'a FenceGuest<'b>,
    /// What the executions are compared with.
    pub runs: &'a Ordinary,
    pub extent: Extent,
    /// How many numbers are tried at the same time.
    pub workers: u32,
    pub observer: &'a O,
}

impl<E: Executer + Sync, O: HuntObserver + TrialObserver + Sync> Searcher<'_, '_, E, O> {
    /// Tries the numbers until the search is over. What comes of it is the same for any number of workers.
    ///
    /// # Errors
    ///
    /// `OutOfMemory` alone.
    pub fn try_all<R: Threads + Sync>(&self, rt: &R) -> Result<Trials, OutOfMemory>
        requires { self.now.extent.first + self.now.extent.most < 2 ^ 32 }
        ensures { IfOk result (AreSearchedBy (E.comes_to self.now.guest.now)
            (O.answers self.now.observer.now)
            self.now.runs.now self.now.extent) }
    {
        let mut trials = Trials::none(self.guest.alloc);
        while trials.done < self.extent.most && !trials.is_over {
            self.try_more(rt, &mut trials)?;
        }
        Ok(trials)
    }

    /// Tries the numbers of the next block.
    fn try_more<R: Threads + Sync>(&self, rt: &R, trials: &mut Trials) -> Result<(), OutOfMemory>
        requires few { self.now.extent.first + self.now.extent.most < 2 ^ 32 }
        requires more { trials.old.done < self.now.extent.most }
        requires going { trials.old.is_over ≡ false }
        requires stands { StandsSo (E.comes_to self.now.guest.now) (O.answers self.now.observer.now)
            self.now.runs.now self.now.extent trials.old }
        ensures stands { OnOk result (StandsSo (E.comes_to self.now.guest.now)
            (O.answers self.now.observer.now)
            self.now.runs.now self.now.extent trials.new) }
        ensures more { OnOk result (trials.new.is_over ≡ false →
            trials.old.done < trials.new.done) }
    {
        let wanted = self.observer.before_numbers(trials.done, &trials.founds);
        let task = Task {
            first: self.extent.first + trials.done,
            count: block_size(wanted, self.extent.most - trials.done),
            extent: self.extent,
            rows: &[],
            observer: self.observer,
        };
        let mut slots = try_block(
            rt,
            self.executer,
            self.guest,
            self.runs,
            &task,
            self.workers,
        )?;
        let added = self.add_slots(&mut slots, trials);
        drop(slots);
        added
    }

    /// Adds what came of a block of numbers, up to the one with which the search is over. What the slots leave out is tried here, as long as
    /// there is time.
    fn add_slots(&self, slots: &mut [Option<Tried>], trials: &mut Trials) -> Result<(), OutOfMemory>
        requires few { self.now.extent.first + self.now.extent.most < 2 ^ 32 }
        requires some { 1 ≤ length slots.old }
        requires within { trials.old.done + length slots.old ≤ self.now.extent.most }
        requires tried { All (λ s.
            IfSome s (WasTried (E.comes_to self.now.guest.now) self.now.runs.now)) slots.old }
        requires going { trials.old.is_over ≡ false }
        requires stands { StandsSo (E.comes_to self.now.guest.now) (O.answers self.now.observer.now)
            self.now.runs.now self.now.extent trials.old }
        ensures stands { OnOk result (StandsSo (E.comes_to self.now.guest.now)
            (O.answers self.now.observer.now)
            self.now.runs.now self.now.extent trials.new) }
        ensures more { OnOk result (trials.new.is_over ≡ false →
            trials.old.done < trials.new.done) }
    {
        for index in 0..slots.len() {
            let tried = slots[index].take();
            if tried.is_none() && self.extent.is_out_of_time(self.observer, trials.done) {
                trials.is_over = true;
                return Ok(());
            }
            let number = self.extent.first + trials.done;
            let trial = self.trial_in(tried, number)?;
            self.add(trials, trial)?;
            if trials.is_over {
                return Ok(());
            }
        }
        Ok(())
    }

    /// What came of a number, which is tried here where it isn't in the slot.
    fn trial_in(&self, slot: Option<Tried>, number: u32) -> Result<Trial, OutOfMemory>
        requires { IfSome slot (WasTried (E.comes_to self.now.guest.now) self.now.runs.now) }
        ensures { IfOk result (tried_by (E.comes_to self.now.guest.now) self.now.runs.now number) }
    {
        if let Some(tried) = slot {
            if tried.number == number {
                return Ok(tried.trial);
            }
        }
        try_number(self.executer, self.guest, self.runs, number, self.observer)
    }

    /// Adds what came of the next number.
    fn add(&self, trials: &mut Trials, trial: Trial) -> Result<(), OutOfMemory>
        requires few { self.now.extent.first + self.now.extent.most < 2 ^ 32 }
        requires more { trials.old.done < self.now.extent.most }
        requires tried { tried_by (E.comes_to self.now.guest.now) self.now.runs.now
            (self.now.extent.first + trials.old.done) trial }
        requires going { trials.old.is_over ≡ false }
        requires stands { StandsSo (E.comes_to self.now.guest.now) (O.answers self.now.observer.now)
            self.now.runs.now self.now.extent trials.old }
        ensures stands { OnOk result (StandsSo (E.comes_to self.now.guest.now)
            (O.answers self.now.observer.now)
            self.now.runs.now self.now.extent trials.new) }
        ensures done { OnOk result (trials.new.done ≡ trials.old.done + 1) }
    {
        let number = self.extent.first + trials.done;
        let is_over = self.is_over_with(&trial)?;
        trials.add(number, trial)?;
        trials.is_over = is_over;
        Ok(())
    }

    /// Whether the search is over with a number of which this came.
    fn is_over_with(&self, trial: &Trial) -> Result<bool, OutOfMemory>
        ensures { IfOk result (IsAnswer (O.answers self.now.observer.now) self.now.extent.until
            trial.now) }
    {
        match self.extent.until {
            Until::Done => Ok(false),
            Until::Bad | Until::Differ => self.observer.is_over_with(trial),
        }
    }
}
