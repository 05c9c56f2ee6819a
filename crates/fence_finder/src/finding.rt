ghost use Rattle.std.specs.Prelude.{◌≡◌, ◌⊎◌, ◌≤◌, Err, IfErr, IfOk, List, ℕ, None, Some, false, length, option_map};
ghost use Rattle.elf_loader.specs.Image.{Loaded};
ghost use Rattle.fence_finder.specs.Telling.{IsTableFrom};
ghost use Rattle.fence_finder.specs.MissingFences.{AreShown, IsSearchText, IsSearched, IsSearchedBy, IsToldBy};
ghost use Rattle.fence_table.specs.declared.fence_table.FenceTable.{FenceTable as Table};
ghost use Rattle.host_io.specs.declared.load_error.LoadError.{LoadError as ImageCause};
ghost use Rattle.host_io.specs.declared.error.RunError.TheVariants as refusals;
ghost use Rattle.hunter.specs.Hunts.{IsHunt, IsImageCause, has_bad_range, hunt_fault};
ghost use Rattle.hunter.specs.declared.error.HuntError.{HuntError as Refusal};
ghost use Rattle.hunter.specs.declared.settings.HuntSettings.{HuntSettings as AskedFor};
ghost use Rattle.hunter.specs.declared.error.HuntError.TheVariants as hunting;
ghost use Rattle.host_io.specs.Writes.{IsFaultOr, WritesAnswer};
ghost use Rattle.weak_hunter.specs.WeakHunts.{IsWeakReason};
ghost use Rattle.weak_hunter.specs.declared.error.WeakHuntError.TheVariants.{Hunt};

use crate::findings::Findings;
use crate::guest::Guest;
use crate::looking::Looking;
use crate::observing::FenceObserver;
use crate::settings::FenceSettings;
use execution_scripts::ExecutionFile;
use fence_search::{Search, search_fences};
use fence_table::{FenceTable, write_fences};
use fence_trials::{Compared, Executer, FenceGuest, Reach};
use guest_rounds::opening_harts;
use host_io::Sink;
use hunter::{check_hunt, check_ranges};
use laid_image::LaidImage;
use machine::load;
use std::alloc::Global;
use std::sync::Wait;
use std::thread::Threads;
use weak_executions::Opening;
use weak_hunter::WeakHuntError;

/// What a search for missing fences found.
#[derive(Drop)]
pub struct FoundFences {
    /// What it tells.
    pub table: FenceTable,
    /// The execution that shows each missing fence, where they were to be kept.
    pub executions: Vec<ExecutionFile>,
    /// With what of ordinary runs the executions were compared.
    pub compared: Compared,
}

/// What finds missing fences: who makes the executions, and who looks on.
#[derive(Clone, Copy)]
pub struct FenceFinder<'a, 'b, E, O> {
    pub executer: &'a E,
    pub observer: &'b O,
}

/// What a search found, and what is told of it.
#[derive(Drop)]
struct Searched {
    search: Search,
    findings: Findings,
}

impl<E: Executer + Sync, O: FenceObserver + Sync> FenceFinder<'_, '_, E, O> {
    /// Makes a guest's executions of the numbers that the settings name, until the search is over, looks for what those fail by that fail, and
    /// writes at which gaps fences are missing. Each execution that is shown was put to the checker of executions, and an ordinary run beside
    /// them. The observer looks on.
    ///
    /// Each number is counted by what came of its execution, and none that fails is lost. What isn't found by these numbers isn't told.
    ///
    /// # Errors
    ///
    /// The refusals of the settings, then of the image, then of the ranges; `OutOfMemory`; `Unconfirmed` where the checker allows an execution
    /// that fails in no order, or finds that it or an ordinary run ends otherwise; `SinkFailed`. Nothing is written before all executions are
    /// made and checked.
    pub fn find_fences<S: Sink, R: Threads + Wait + Sync>(
        &self,
        rt: &R,
        alloc: Global,
        image: &[u8],
        input: &[u8],
        settings: FenceSettings,
        out: &mut S,
    ) -> Result<FoundFences, WeakHuntError>
        // RVWMO allows each execution that the table shows. Each number of the table was executed and is counted, and none that fails is lost;
        // what is told fails as no ordinary run does, and with a fence of the kind that is told none of the numbers fails at the place. The
        // sink takes the table's text.
        ensures writes { WritesAnswer S.took S.failures
            (IsSearchText E.comes_to settings image.now input.now)
            (IsFaultOr (option_map Hunt (hunt_fault settings.hunt))
            (IsWeakReason settings.hunt image.now))
            (Hunt (hunting.Run refusals.OutOfMemory)) (Hunt (hunting.Run refusals.SinkFailed))
            out.old out.new result }
        // Where memory is refused, it took nothing.
        ensures memory { result ≡ Err (Hunt (hunting.Run refusals.OutOfMemory)) →
            S.took out.new ≡ S.took out.old }
        // Settings out of range are refused first, and then an image.
        ensures settings { (e : Refusal) → hunt_fault settings.hunt ≡ Some e →
            result ≡ Err (Hunt e) }
        ensures image { (cause : ImageCause) → hunt_fault settings.hunt ≡ None →
            IsImageCause settings.hunt image.now cause →
            (result ≡ Err (Hunt (hunting.Run (refusals.Image cause)))) ⊎
            (result ≡ Err (Hunt (hunting.Run refusals.OutOfMemory))) }
        // No search looks at a range that is empty, or not all in memory.
        ensures ranges { IfOk result (λ _. has_bad_range settings.hunt ≡ false) }
    {
        let found = self.searched(rt, alloc, image, input, settings)?;
        write_fences(alloc, &found.table, out)?;
        Ok(found)
    }

    /// What a search finds. The image is loaded and laid into memory once.
    fn searched<R: Threads + Wait + Sync>(
        &self,
        rt: &R,
        alloc: Global,
        image: &[u8],
        input: &[u8],
        settings: FenceSettings,
    ) -> Result<FoundFences, WeakHuntError>
        ensures shown { IfOk result (λ f. IsSearched settings.hunt image.now input.now f.table) }
        ensures searched { IfOk result (λ f.
            IsSearchedBy E.comes_to settings image.now input.now f.table) }
        ensures settings { (e : Refusal) → hunt_fault settings.hunt ≡ Some e →
            result ≡ Err (Hunt e) }
        ensures errors { hunt_fault settings.hunt ≡ None →
            IfErr result (λ e. IsWeakReason settings.hunt image.now e) }
        ensures image { (cause : ImageCause) → hunt_fault settings.hunt ≡ None →
            IsImageCause settings.hunt image.now cause →
            (result ≡ Err (Hunt (hunting.Run (refusals.Image cause)))) ⊎
            (result ≡ Err (Hunt (hunting.Run refusals.OutOfMemory))) }
        ensures ranges { IfOk result (λ _. has_bad_range settings.hunt ≡ false) }
    {
        check_hunt(&settings.hunt)?;
        let loaded = load(alloc, settings.hunt.format, image, settings.hunt.pages)?;
        check_ranges(&settings.hunt)?;
        let harts = opening_harts(alloc, loaded.entry(), settings.hunt.harts)?;
        let laid = LaidImage::new(alloc, loaded)?;
        let opening = Opening {
            image: &laid,
            input,
            harts: &harts,
        };
        let found = self.findings_of(rt, alloc, image, opening, &settings)?;
        Ok(told(found, settings))
    }

    /// What a search among the executions that begin so finds.
    fn findings_of<'x, R: Threads + Wait + Sync>(
        &self,
        rt: &R,
        alloc: Global,
        file: &'x [u8],
        opening: Opening<'x>,
        settings: &'x FenceSettings,
    ) -> Result<Searched, WeakHuntError>
        requires hunt { IsHunt settings.now.hunt }
        requires harts { length opening.harts.now ≡ settings.now.hunt.harts }
        ensures shown { IfOk result (λ f. AreShown opening.entry.image.now opening.entry.input.now
            opening.entry.harts.now f.findings.missing.items) }
        ensures told { IfOk result (λ f. (t : Table) → IsTableFrom f settings.now t →
            IsToldBy E.comes_to opening.entry settings.now t) }
        ensures few { IfOk result (λ f. f.search.done ≤ settings.now.hunt.header.count) }
        ensures errors { (s : AskedFor) (file : List ℕ) →
            IfErr result (λ e. IsWeakReason s file e) }
    {
        let hunt = &settings.hunt;
        let reach = Reach {
            rounds: hunt.rounds,
            steps: settings.steps,
        };
        let (seed, ranges, fences) = (hunt.header.seed, &hunt.header.ranges, &settings.assumed);
        let guest = Guest {
            alloc,
            file,
            settings,
            opening,
            maker: FenceGuest::new(alloc, opening, seed, reach, ranges, fences),
            extent: hunt.extent(),
        };
        let (executer, extent, workers) = (self.executer, guest.extent, hunt.workers);
        let maker = &guest.maker;
        let looking = Looking::new(&guest, self.observer);
        let search = search_fences(rt, executer, maker, extent, workers, &looking)?;
        looking.tell_last(&search.weaknesses);
        if search.counted.unconfirmed.plans != 0 {
            return Err(WeakHuntError::Unconfirmed(search.counted.unconfirmed.first));
        }
        let finder = FenceFinder {
            executer,
            observer: &looking,
        };
        let findings = Findings::of(rt, &finder, &guest, workers, &search)?;
        Ok(Searched { search, findings })
    }
}

/// What is told of a search.
fn told(found: Searched, settings: FenceSettings) -> FoundFences
    ensures { IsTableFrom found settings result.table }
{
    let Searched { search, findings } = found;
    FoundFences {
        compared: search.runs.compared(),
        table: FenceTable {
            seed: settings.hunt.header.seed,
            first: settings.hunt.header.first,
            count: search.done,
            ordinary: search.counted.ordinary,
            unnamed: findings.unnamed,
            running: search.counted.running,
            accepted: findings.accepted,
            missing: findings.missing,
            ranges: settings.into_ranges(),
        },
        executions: findings.executions,
    }
}
