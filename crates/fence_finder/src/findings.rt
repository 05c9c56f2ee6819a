ghost use Rattle.std.specs.Prelude.{◌≡◌, ◌⊎◌, ◌+◌, ◌<◌, ◌^◌, ℕ, [], ◌∷◌, ◌++◌, IfErr, IfOk, OnOk};
ghost use Rattle.std.specs.Bool.{OnTrue};
ghost use Rattle.fence_finder.specs.MissingFences.{AreMissing, AreShown, IsUsual};
ghost use Rattle.fence_finder.specs.Telling.{told_plans};
ghost use Rattle.fence_search.specs.Gathered.{plans_of};
ghost use Rattle.host_io.specs.declared.error.RunError.TheVariants as refusals;
ghost use Rattle.hunter.specs.declared.error.HuntError.TheVariants as hunting;
ghost use Rattle.weak_hunter.specs.declared.error.WeakHuntError.TheVariants.{Hunt, Unconfirmed};

use crate::confirming::{Confirmed, confirm};
use crate::finding::FenceFinder;
use crate::guest::Guest;
use crate::usual::check_usual;
use execution_scripts::ExecutionFile;
use fence_kinds::Place;
use fence_search::{Search, Weakness};
use fence_table::{Missing, Tally, TriedFence};
use fence_trials::Executer;
use pages::OutOfMemory;
use plan_hunt::HuntObserver;
use std::alloc::Global;
use std::thread::Threads;
use weak_hunter::WeakHuntError;

/// What a search found, as far as the checker of executions confirms it.
#[derive(Drop)]
pub(crate) struct Findings {
    /// Numbers that fail for want of a fence at a gap that is accepted.
    pub accepted: Tally,
    /// Numbers that no fence at a gap mends.
    pub unnamed: Tally,
    /// At which other gaps fences are missing.
    pub missing: Vec<Missing>,
    /// The executions that show them, where they are kept.
    pub executions: Vec<ExecutionFile>,
}

impl Findings {
    /// Nothing but these numbers.
    fn none(alloc: Global, unnamed: Tally) -> Findings
        ensures accepted { result.accepted.plans ≡ 0 }
        ensures unnamed { result.unnamed ≡ unnamed }
        ensures missing { result.missing.items ≡ [] }
    {
        Findings {
            accepted: Tally::none(),
            unnamed,
            missing: Vec::new(alloc),
            executions: Vec::new(alloc),
        }
    }

    /// What is left of a search once each execution that it shows is put to the checker of executions, and an ordinary run too where it shows
    /// one.
    ///
    /// # Errors
    ///
    /// `Unconfirmed` with the number of the first one that the checker doesn't allow, or that it finds to end otherwise; `OutOfMemory`.
    pub(crate) fn of<E: Executer + Sync, O: HuntObserver + Sync, R: Threads + Sync>(
        rt: &R,
        finder: &FenceFinder<'_, '_, E, O>,
        guest: &Guest<'_>,
        workers: u32,
        search: &Search,
    ) -> Result<Findings, WeakHuntError>
        requires few { plans_of search.now.weaknesses.items + search.now.unnamed.plans < 2 ^ 32 }
        requires below { guest.now.extent.first + search.now.done < 2 ^ 32 }
        ensures shown { IfOk result (λ f.
            AreShown guest.now.opening.image.now guest.now.opening.input.now
            guest.now.opening.harts.now f.missing.items) }
        ensures missing { IfOk result (λ f. AreMissing E.comes_to guest.now.maker search.now.runs
            guest.now.extent.first search.now.done f.missing.items) }
        ensures usual { IfOk result (λ f. (f.missing.items ≡ []) ⊎
            IsUsual guest.now.opening.image.now
            guest.now.opening.input.now guest.now.opening.harts.now search.now.runs) }
        ensures none_lost { IfOk result (λ f. told_plans f
            ≡ plans_of search.now.weaknesses.items + search.now.unnamed.plans) }
        ensures errors { IfErr result (λ e. (e ≡ Hunt (hunting.Run refusals.OutOfMemory)) ⊎
            ((n : ℕ) × (e ≡ Unconfirmed n))) }
    {
        let mut findings = Findings::none(guest.alloc, search.unnamed);
        if search.weaknesses.is_empty() {
            return Ok(findings);
        }
        check_usual(guest, &search.runs, finder.observer)?;
        findings.add_all(rt, finder, guest, workers, search)?;
        Ok(findings)
    }

    /// Adds missing fences, where none was added before.
    fn add_all<E: Executer + Sync, O: HuntObserver + Sync, R: Threads + Sync>(
        &mut self,
        rt: &R,
        finder: &FenceFinder<'_, '_, E, O>,
        guest: &Guest<'_>,
        workers: u32,
        search: &Search,
    ) -> Result<(), WeakHuntError>
        requires none { self.old.missing.items ≡ [] }
        requires accepted { self.old.accepted.plans ≡ 0 }
        requires few { plans_of search.now.weaknesses.items + self.old.unnamed.plans < 2 ^ 32 }
        requires below { guest.now.extent.first + search.now.done < 2 ^ 32 }
        ensures shown { OnOk result (AreShown guest.now.opening.image.now
            guest.now.opening.input.now
            guest.now.opening.harts.now self.new.missing.items) }
        ensures missing { OnOk result (AreMissing E.comes_to guest.now.maker search.now.runs
            guest.now.extent.first search.now.done self.new.missing.items) }
        ensures none_lost { OnOk result (told_plans self.new
            ≡ plans_of search.now.weaknesses.items + self.old.unnamed.plans) }
        ensures errors { IfErr result (λ e. (e ≡ Hunt (hunting.Run refusals.OutOfMemory)) ⊎
            ((n : ℕ) × (e ≡ Unconfirmed n))) }
    {
        for weakness in &search.weaknesses {
            self.add(rt, finder, guest, workers, search, weakness)?;
        }
        Ok(())
    }

    /// Adds a missing fence, where one at its gap mends the numbers, and the checker of executions allows the execution that shows it.
    fn add<E: Executer + Sync, O: HuntObserver + Sync, R: Threads + Sync>(
        &mut self,
        rt: &R,
        finder: &FenceFinder<'_, '_, E, O>,
        guest: &Guest<'_>,
        workers: u32,
        search: &Search,
        weakness: &Weakness,
    ) -> Result<(), WeakHuntError>
        requires few { told_plans self.old + weakness.now.numbers.plans < 2 ^ 32 }
        requires below { guest.now.extent.first + search.now.done < 2 ^ 32 }
        requires shown { AreShown guest.now.opening.image.now guest.now.opening.input.now
            guest.now.opening.harts.now self.old.missing.items }
        requires missing { AreMissing E.comes_to guest.now.maker search.now.runs
            guest.now.extent.first search.now.done self.old.missing.items }
        ensures shown { OnOk result (AreShown guest.now.opening.image.now
            guest.now.opening.input.now
            guest.now.opening.harts.now self.new.missing.items) }
        ensures missing { OnOk result (AreMissing E.comes_to guest.now.maker search.now.runs
            guest.now.extent.first search.now.done self.new.missing.items) }
        ensures one_more { OnOk result (told_plans self.new
            ≡ told_plans self.old + weakness.now.numbers.plans) }
        ensures errors { IfErr result (λ e. (e ≡ Hunt (hunting.Run refusals.OutOfMemory)) ⊎
            ((n : ℕ) × (e ≡ Unconfirmed n))) }
    {
        let gap = guest.gap_between(weakness.earlier, weakness.later)?;
        if guest.settings.accepted.has(guest.alloc, &gap)? {
            self.accepted = self.accepted.joined(weakness.numbers);
            return Ok(());
        }
        let place = Place {
            guest: &guest.maker,
            runs: &search.runs,
            weakness,
            first: guest.extent.first,
            count: search.done,
            workers,
        };
        let Some(kind) = place.weakest_fence(rt, finder.executer, finder.observer)? else {
            self.unnamed = self.unnamed.joined(weakness.numbers);
            return Ok(());
        };
        let fence = TriedFence {
            kind,
            pc: weakness.pc(),
            executions: search.done,
        };
        match confirm(guest, gap, &search.runs, fence, weakness, finder.observer)? {
            Some(confirmed) => {
                self.put(confirmed)?;
                Ok(())
            }
            None => Err(WeakHuntError::Unconfirmed(weakness.shown.number)),
        }
    }

    /// Puts a missing fence that was confirmed with the others.
    fn put(&mut self, confirmed: Confirmed) -> Result<(), OutOfMemory>
        ensures missing { OnOk result (self.new.missing.items ≡ self.old.missing.items
            ++ confirmed.missing ∷ []) }
        ensures accepted { OnOk result (self.new.accepted ≡ self.old.accepted) }
        ensures unnamed { OnOk result (self.new.unnamed ≡ self.old.unnamed) }
    {
        let Confirmed { missing, execution } = confirmed;
        if let Some(execution) = execution {
            self.executions.push(execution)?;
        }
        self.missing.push(missing)?;
        Ok(())
    }
}
