ghost use denote.Param.Send.{IsSync};
ghost use Rattle.std.specs.Prelude.{◌≡◌, ◌⊎◌, ◌<◌, ◌++◌, ℕ, Err, IfErr, IfOk, List, None, OnErr, Some, false, true};
ghost use Rattle.host_io.specs.Taken.{BeganText};
ghost use Rattle.host_io.specs.declared.load_error.LoadError.{LoadError as ImageCause};
ghost use Rattle.host_io.specs.declared.error.RunError.TheVariants as refusals;
ghost use Rattle.hunt_commands.specs.Relations.{HuntRelation};
ghost use Rattle.hunt_table.specs.Text.{table_text, with_count};
ghost use Rattle.hunter.specs.Hunts.{IsImageCause, has_bad_range, hunt_fault};
ghost use Rattle.hunter.specs.declared.error.HuntError.{HuntError as Refusal};
ghost use Rattle.hunter.specs.declared.error.HuntError.TheVariants as hunting;
ghost use Rattle.plan_hunt.specs.declared.row.Row.{Row as TableRow};
ghost use Rattle.program_files.specs.Failures.{IsUnprinted};
ghost use Rattle.weak_hunter.specs.Refusals.{weak_hunt_number};
ghost use Rattle.weak_hunter.specs.WeakHunts.{IsWeakReason, IsWeaklyHunted};
ghost use Rattle.weak_hunter.specs.declared.error.WeakHuntError.TheVariants.{Hunt};

use crate::finds::Finds;
use host_io::Sink;
use plan_hunt::Tally;
use program_files::{ProgramFiles, World};
use std::alloc::Global;
use std::sync::Wait;
use std::thread::Threads;
use weak_hunter::{WeakHunt, WeakHuntError};

/// A world that makes weak hunts. No definition says what so many steps of an execution lead to: so that is a relation, which a command can
/// only get by a call with these steps.
pub trait WeakHunts: World + Sized {
    /// The rows are the table that a hunt by these settings makes of an image and an input, in executions of so many steps, where it is over
    /// after so many of them.
    ghost hunts: { HuntRelation };

    /// Hunts, writes the table of the endings, and answers it. The finds are told how far that is: threads are lent none of a type that a method
    /// is given.
    ///
    /// # Errors
    ///
    /// As `hunt_weakly` of weak_hunter.
    fn hunt_weakly<S: Sink, R: Threads + Wait + Sync>(
        &self,
        rt: &R,
        alloc: Global,
        files: &ProgramFiles,
        asked: &WeakHunt<'_>,
        finds: &Finds<'_, Self::Progress, Self>,
        out: &mut S,
    ) -> Result<Tally, WeakHuntError>
        requires sync { IsSync R.row }
        requires weak { asked.now.settings.now.header.is_weak ≡ true }
        ensures hunts { IfOk result (λ t.
            IsWeaklyHunted asked.now.settings.now files.now.image.items files.now.input.items
            t.done t.rows.items ×
            hunts asked.now.settings.now files.now.image.items files.now.input.items
            asked.now.steps t.done t.rows.items ×
            (S.took out.new ≡ S.took out.old
            ++ table_text (with_count asked.now.settings.now.header t.done) t.rows.items)) }
        ensures begun { OnErr result ((S.took out.new ≡ S.took out.old) ⊎
            ((n : ℕ) × (rows : List TableRow) ×
            IsWeaklyHunted asked.now.settings.now files.now.image.items files.now.input.items n
            rows ×
            hunts asked.now.settings.now files.now.image.items files.now.input.items
            asked.now.steps n rows ×
            BeganText (S.took out.old) (S.took out.new)
            (table_text (with_count asked.now.settings.now.header n) rows))) }
        ensures unprinted { IfErr result (λ e.
            IsUnprinted (weak_hunt_number e) (S.took out.old) (S.took out.new)) }
        ensures settings { (e : Refusal) → hunt_fault asked.now.settings.now ≡ Some e →
            result ≡ Err (Hunt e) }
        ensures errors { hunt_fault asked.now.settings.now ≡ None → IfErr result (λ e.
            IsWeakReason asked.now.settings.now files.now.image.items e ⊎
            ((e ≡ Hunt (hunting.Run refusals.SinkFailed)) ×
            (S.failures out.old < S.failures out.new))) }
        ensures image { (cause : ImageCause) → hunt_fault asked.now.settings.now ≡ None →
            IsImageCause asked.now.settings.now files.now.image.items cause →
            (result ≡ Err (Hunt (hunting.Run (refusals.Image cause)))) ⊎
            (result ≡ Err (Hunt (hunting.Run refusals.OutOfMemory))) }
        ensures ranges { IfOk result (λ _. has_bad_range asked.now.settings.now ≡ false) };
}
