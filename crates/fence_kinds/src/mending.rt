ghost use Rattle.std.specs.Prelude.{◌≡◌, ◌↔◌, ◌+◌, ◌<◌, ◌^◌, IfOk, IfSome, IsTrue, true};
ghost use Rattle.std.specs.Bool.{OnFalse, OnTrue};
ghost use Rattle.fence_kinds.specs.Kinds.{DoesFail, FailsAmong, FailsStill, IsWeakest, Mends, NoneFails};

use crate::at_spot::AtSpot;
use crate::kinds::{KINDS, kind_at, with_fence};
use fence_search::{Searcher, Weakness};
use fence_table::FenceKind;
use fence_trials::{Executer, FenceGuest, Found, Ordinary, try_departures};
use pages::OutOfMemory;
use plan_hunt::{Extent, HuntObserver, Until};
use std::thread::Threads;

/// A place at which a fence is missing, and the numbers that are tried with one there.
#[derive(Drop)]
pub struct Place<'a, 'b> {
    pub guest: &'a FenceGuest<'b>,
    /// What the executions are compared with.
    pub runs: &'a Ordinary,
    pub weakness: &'a Weakness,
    pub first: u32,
    pub count: u32,
    pub workers: u32,
}

impl Place<'_, '_> {
    /// The first kind of fence with which none of the numbers fails at the place any more, as if the fence stood there: neither by what its
    /// execution draws, nor by the departures that were found. An observer learns of the rounds of these executions.
    ///
    /// # Errors
    ///
    /// `OutOfMemory` alone.
    pub fn weakest_fence<E: Executer + Sync, O: HuntObserver + Sync, R: Threads + Sync>(
        &self,
        rt: &R,
        executer: &E,
        observer: &O,
    ) -> Result<Option<FenceKind>, OutOfMemory>
        requires { self.now.first + self.now.count < 2 ^ 32 }
        // Each number was executed with it, and fails elsewhere at most. With each kind before it one failed there.
        ensures { IfOk result (λ found. IfSome found (IsWeakest E.comes_to self.now)) }
    {
        for index in 0..KINDS {
            let kind = kind_at(index);
            if self.mends(rt, executer, observer, kind)? {
                return Ok(Some(kind));
            }
        }
        Ok(None)
    }

    /// Whether none of the numbers fails at the place, as if a fence of a kind stood there.
    fn mends<E: Executer + Sync, O: HuntObserver + Sync, R: Threads + Sync>(
        &self,
        rt: &R,
        executer: &E,
        observer: &O,
        kind: FenceKind,
    ) -> Result<bool, OutOfMemory>
        requires { self.now.first + self.now.count < 2 ^ 32 }
        ensures mends { IfOk result (λ yes. OnTrue yes (Mends E.comes_to self.now kind)) }
        ensures fails { IfOk result (λ yes. OnFalse yes (FailsStill E.comes_to self.now kind)) }
    {
        let fences = with_fence(
            self.guest.alloc,
            self.guest.fences,
            self.weakness.pc(),
            kind,
        )?;
        let fenced = self.guest.assuming(&fences);
        if self.do_founds_fail(executer, observer, &fenced)? {
            return Ok(false);
        }
        let fails = self.does_one_fail(rt, executer, observer, &fenced)?;
        Ok(!fails)
    }

    /// Whether one of the executions that were found to fail for want of a fence at the place fails there, as a guest that has one.
    fn do_founds_fail<E: Executer, O: HuntObserver>(
        &self,
        executer: &E,
        observer: &O,
        fenced: &FenceGuest<'_>,
    ) -> Result<bool, OutOfMemory>
        ensures { IfOk result (λ yes.
            OnTrue yes (DoesFail (E.comes_to fenced.now) self.now.runs.now)) }
    {
        if self.does_found_fail(executer, observer, fenced, &self.weakness.shown)? {
            return Ok(true);
        }
        for found in &self.weakness.others {
            if self.does_found_fail(executer, observer, fenced, found)? {
                return Ok(true);
            }
        }
        Ok(false)
    }

    /// Whether an execution that was found does.
    fn does_found_fail<E: Executer, O: HuntObserver>(
        &self,
        executer: &E,
        observer: &O,
        fenced: &FenceGuest<'_>,
        found: &Found,
    ) -> Result<bool, OutOfMemory>
        ensures { IfOk result (λ yes.
            OnTrue yes (DoesFail (E.comes_to fenced.now) self.now.runs.now)) }
    {
        let (number, departures) = (found.number, &found.departures);
        let runs = self.runs;
        let trial = try_departures(executer, fenced, runs, number, departures, observer)?;
        Ok(trial.fails_at(self.weakness.spot))
    }

    /// Whether one of the numbers fails at the place, as a guest that has a fence there.
    fn does_one_fail<E: Executer + Sync, O: HuntObserver + Sync, R: Threads + Sync>(
        &self,
        rt: &R,
        executer: &E,
        observer: &O,
        fenced: &FenceGuest<'_>,
    ) -> Result<bool, OutOfMemory>
        requires { self.now.first + self.now.count < 2 ^ 32 }
        ensures fails { IfOk result (λ yes.
            OnTrue yes (FailsAmong (E.comes_to fenced.now) self.now)) }
        ensures none { IfOk result (λ yes.
            OnFalse yes (NoneFails (E.comes_to fenced.now) self.now)) }
    {
        let searcher = Searcher {
            executer,
            guest: fenced,
            runs: self.runs,
            extent: Extent {
                first: self.first,
                most: self.count,
                until: Until::Bad,
                is_timed: false,
            },
            workers: self.workers,
            observer: &AtSpot {
                spot: self.weakness.spot,
                observer,
            },
        };
        let trials = searcher.try_all(rt)?;
        let fails = trials.is_over;
        drop(trials);
        Ok(fails)
    }
}
