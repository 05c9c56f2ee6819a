ghost use denote.Param.Send.{IsSync};
ghost use Rattle.std.specs.Prelude.{◌≡◌, ◌⊎◌, ◌<◌, ◌++◌, ℕ, Err, IfErr, IfOk, List, None, OnErr, Some, false};
ghost use Rattle.execution_file.specs.declared.file.ExecutionFile.{ExecutionFile as Saved};
ghost use Rattle.fence_finder.specs.MissingFences.{IsSearched, IsSearchedBy};
ghost use Rattle.fence_table.specs.Text.{fences_text};
ghost use Rattle.fence_table.specs.declared.fence_table.FenceTable.{FenceTable as Table};
ghost use Rattle.host_io.specs.Taken.{BeganText};
ghost use Rattle.host_io.specs.declared.load_error.LoadError.{LoadError as ImageCause};
ghost use Rattle.host_io.specs.declared.error.RunError.TheVariants as refusals;
ghost use Rattle.hunter.specs.Hunts.{IsImageCause, has_bad_range, hunt_fault};
ghost use Rattle.hunter.specs.declared.error.HuntError.{HuntError as Refusal};
ghost use Rattle.hunter.specs.declared.error.HuntError.TheVariants as hunting;
ghost use Rattle.weak_commands.specs.Relations.{FenceRelations};
ghost use Rattle.weak_hunter.specs.WeakHunts.{IsWeakReason};
ghost use Rattle.weak_hunter.specs.declared.error.WeakHuntError.TheVariants.{Hunt};

use crate::finds::FenceFinds;
use fence_finder::{FenceSettings, FoundFences};
use host_io::Sink;
use hunt_commands::WeakHunts;
use program_files::ProgramFiles;
use std::alloc::Global;
use std::sync::Wait;
use std::thread::Threads;
use weak_hunter::WeakHuntError;

/// A world that also searches for missing fences. No definition says which fences are found, nor which execution a number stands for: so these
/// are relations, which a command can only get by a call.
pub trait FenceSearches: WeakHunts {
    /// What these are.
    ghost fences: { FenceRelations };

    /// Searches, and writes the table of what was found. The finds are told how far that is, as those of a weak hunt are.
    ///
    /// # Errors
    ///
    /// As `find_fences` of fence_finder.
    fn search_fences<S: Sink, R: Threads + Wait + Sync>(
        &self,
        rt: &R,
        alloc: Global,
        files: &ProgramFiles,
        settings: FenceSettings,
        finds: &FenceFinds<'_, Self::Progress, Self>,
        out: &mut S,
    ) -> Result<FoundFences, WeakHuntError>
        requires sync { IsSync R.row }
        ensures finds { IfOk result (λ f. IsSearched settings.hunt files.now.image.items
            files.now.input.items f.table ×
            IsSearchedBy fences.comes_to settings files.now.image.items files.now.input.items
            f.table ×
            fences.finds settings files.now.image.items files.now.input.items f.table
            f.executions.items ×
            (S.took out.new ≡ S.took out.old ++ fences_text f.table)) }
        ensures begun { OnErr result ((S.took out.new ≡ S.took out.old) ⊎
            ((t : Table) × (es : List Saved) × IsSearched settings.hunt files.now.image.items
            files.now.input.items t ×
            IsSearchedBy fences.comes_to settings files.now.image.items files.now.input.items t ×
            fences.finds settings files.now.image.items files.now.input.items t es ×
            BeganText (S.took out.old) (S.took out.new) (fences_text t))) }
        ensures settings { (e : Refusal) → hunt_fault settings.hunt ≡ Some e →
            result ≡ Err (Hunt e) }
        ensures errors { hunt_fault settings.hunt ≡ None → IfErr result (λ e.
            IsWeakReason settings.hunt files.now.image.items e ⊎
            ((e ≡ Hunt (hunting.Run refusals.SinkFailed)) ×
            (S.failures out.old < S.failures out.new))) }
        ensures image { (cause : ImageCause) → hunt_fault settings.hunt ≡ None →
            IsImageCause settings.hunt files.now.image.items cause →
            (result ≡ Err (Hunt (hunting.Run (refusals.Image cause)))) ⊎
            (result ≡ Err (Hunt (hunting.Run refusals.OutOfMemory))) }
        ensures ranges { IfOk result (λ _. has_bad_range settings.hunt ≡ false) };
}
