ghost use denote.Param.Send.{IsSync};
ghost use Rattle.std.specs.Prelude.{◌≡◌, ◌⊎◌, ◌<◌, ◌++◌, ⊤, ℕ, Err, IfErr, IfOk, List, None, OnErr, Some, false};
ghost use Rattle.endings_finder.specs.AllEndings.{AreKept, IsSearched};
ghost use Rattle.endings_finder.specs.declared.settings.EndingsSettings.{EndingsSettings as AskedFor};
ghost use Rattle.endings_table.specs.Text.{table_text};
ghost use Rattle.endings_table.specs.declared.table.EndingsTable.{EndingsTable as Table};
ghost use Rattle.execution_file.specs.declared.file.ExecutionFile.{ExecutionFile as Saved};
ghost use Rattle.host_io.specs.Taken.{BeganText};
ghost use Rattle.host_io.specs.declared.load_error.LoadError.{LoadError as ImageCause};
ghost use Rattle.host_io.specs.declared.error.RunError.TheVariants as refusals;
ghost use Rattle.hunter.specs.Hunts.{IsHuntReason, IsImageCause, has_bad_range, hunt_fault};
ghost use Rattle.hunter.specs.Refusals.{hunt_number};
ghost use Rattle.hunter.specs.declared.error.HuntError.{HuntError as Refusal};
ghost use Rattle.hunter.specs.declared.error.HuntError.TheVariants.{Run};
ghost use Rattle.program_files.specs.Failures.{IsUnprinted};

use endings_finder::{EndingsObserver, EndingsSettings, FoundEndings, find_endings};
use host_io::Sink;
use hunter::HuntError;
use program_files::ProgramFiles;
use std::alloc::Global;
use std::thread::Threads;

/// Who searches for all endings. No definition says which endings are found where there may be others, nor what nodes and time have to do
/// with that: so it is a relation, which a command can only get by a call with them.
pub trait EndingsSearches {
    /// A search by these settings in an image and an input finds what the table has, with these executions.
    ghost finds: { AskedFor → List ℕ → List ℕ → Table → List Saved → Type 0 };

    /// Searches, and writes the table of what was found.
    ///
    /// # Errors
    ///
    /// As `find_endings` of endings_finder.
    fn search<S: Sink, O: EndingsObserver, R: Threads + Sync>(
        &self,
        rt: &R,
        alloc: Global,
        files: &ProgramFiles,
        settings: EndingsSettings,
        observer: &mut O,
        out: &mut S,
    ) -> Result<FoundEndings, HuntError>
        requires sync { IsSync R.row }
        ensures finds { IfOk result (λ f.
            IsSearched settings files.now.image.items files.now.input.items f.table ×
            AreKept settings.keeps f.table.endings.items f.executions.items ×
            finds settings files.now.image.items files.now.input.items f.table
            f.executions.items ×
            (S.took out.new ≡ S.took out.old ++ table_text f.table)) }
        ensures begun { OnErr result ((S.took out.new ≡ S.took out.old) ⊎
            ((t : Table) × (es : List Saved) ×
            IsSearched settings files.now.image.items files.now.input.items t ×
            AreKept settings.keeps t.endings.items es ×
            finds settings files.now.image.items files.now.input.items t es ×
            BeganText (S.took out.old) (S.took out.new) (table_text t))) }
        ensures unprinted { IfErr result (λ e.
            IsUnprinted (hunt_number e) (S.took out.old) (S.took out.new)) }
        ensures settings { (e : Refusal) → hunt_fault settings.hunt ≡ Some e → result ≡ Err e }
        ensures errors { hunt_fault settings.hunt ≡ None → IfErr result (λ e.
            IsHuntReason settings.hunt files.now.image.items e ⊎
            ((e ≡ Run refusals.SinkFailed) × (S.failures out.old < S.failures out.new))) }
        ensures image { (cause : ImageCause) → hunt_fault settings.hunt ≡ None →
            IsImageCause settings.hunt files.now.image.items cause →
            (result ≡ Err (Run (refusals.Image cause))) ⊎
            (result ≡ Err (Run refusals.OutOfMemory)) }
        ensures ranges { IfOk result (λ _. has_bad_range settings.hunt ≡ false) };
}

/// The searches of endings_finder.
#[derive(Clone, Copy)]
pub struct EndingsSearcher;

impl EndingsSearches for EndingsSearcher {
    ghost finds = { λ _ _ _ _ _. ⊤ };

    fn search<S: Sink, O: EndingsObserver, R: Threads + Sync>(
        &self,
        rt: &R,
        alloc: Global,
        files: &ProgramFiles,
        settings: EndingsSettings,
        observer: &mut O,
        out: &mut S,
    ) -> Result<FoundEndings, HuntError> {
        find_endings(
            rt,
            alloc,
            &files.image,
            &files.input,
            settings,
            observer,
            out,
        )
    }
}
