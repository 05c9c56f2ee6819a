ghost use Rattle.std.specs.Prelude.{◌≡◌, ◌⊎◌, ◌<◌, ◌++◌, Err, IfErr, IfOk, List, None, OnErr, Some, false, ℕ};
ghost use Rattle.host_io.specs.Taken.{BeganText};
ghost use Rattle.host_io.specs.declared.load_error.LoadError.{LoadError as ImageCause};
ghost use Rattle.host_io.specs.declared.error.RunError.TheVariants as refusals;
ghost use Rattle.hunt_commands.specs.Asked.{IsHuntRefusal, IsTableBy};
ghost use Rattle.hunt_table.specs.Text.{table_text, with_count};
ghost use Rattle.hunter.specs.Hunts.{IsImageCause, has_bad_range, hunt_fault};
ghost use Rattle.hunter.specs.declared.error.HuntError.{HuntError as Refusal};
ghost use Rattle.hunter.specs.declared.error.HuntError.TheVariants as hunting;
ghost use Rattle.plan_hunt.specs.declared.row.Row.{Row as TableRow};
ghost use Rattle.program_files.specs.Failures.{IsUnprinted};
ghost use Rattle.weak_hunter.specs.Refusals.{weak_hunt_number};
ghost use Rattle.weak_hunter.specs.declared.error.WeakHuntError.TheVariants.{Hunt};

use crate::finds::Finds;
use crate::weak_hunts::WeakHunts;
use host_io::Sink;
use hunter::{HuntSettings, hunt};
use plan_hunt::Tally;
use program_files::ProgramFiles;
use std::alloc::Global;
use std::sync::Wait;
use std::thread::Threads;
use weak_hunter::{WeakHunt, WeakHuntError};

/// Hunts by plans or, where the table is to be a weak one, by executions of so many steps, and writes the table of endings. Answers it.
pub(crate) fn write_rows<S: Sink, W: WeakHunts + Sync, R: Threads + Wait + Sync>(
    threads: &R,
    alloc: Global,
    files: &ProgramFiles,
    settings: &HuntSettings,
    steps: u32,
    finds: &Finds<'_, W::Progress, W>,
    out: &mut S,
) -> Result<Tally, WeakHuntError>
where
    W::Progress: Sync,
    ensures hunts { IfOk result (λ t.
        IsTableBy W.hunts steps settings.now.header.is_weak settings.now
        files.now.image.items files.now.input.items t.done t.rows.items ×
        (S.took out.new ≡ S.took out.old ++ table_text (with_count settings.now.header t.done)
        t.rows.items)) }
    ensures begun { OnErr result ((S.took out.new ≡ S.took out.old) ⊎
        ((n : ℕ) × (rows : List TableRow) ×
        IsTableBy W.hunts steps settings.now.header.is_weak settings.now
        files.now.image.items files.now.input.items n rows ×
        BeganText (S.took out.old) (S.took out.new)
        (table_text (with_count settings.now.header n) rows))) }
    ensures unprinted { IfErr result (λ e.
        IsUnprinted (weak_hunt_number e) (S.took out.old) (S.took out.new)) }
    ensures settings { (e : Refusal) → hunt_fault settings.now ≡ Some e → result ≡ Err (Hunt e) }
    ensures errors { hunt_fault settings.now ≡ None → IfErr result
        (IsHuntRefusal settings.now.header.is_weak settings.now files.now.image.items
        (S.failures out.old < S.failures out.new)) }
    ensures image { (cause : ImageCause) → hunt_fault settings.now ≡ None →
        IsImageCause settings.now files.now.image.items cause →
        (result ≡ Err (Hunt (hunting.Run (refusals.Image cause)))) ⊎
        (result ≡ Err (Hunt (hunting.Run refusals.OutOfMemory))) }
    ensures ranges { IfOk result (λ _. has_bad_range settings.now ≡ false) }
{
    if settings.header.is_weak {
        let asked = WeakHunt { settings, steps };
        return finds
            .world
            .hunt_weakly(threads, alloc, files, &asked, finds, out);
    }
    let (image, input) = (files.image.as_slice(), files.input.as_slice());
    match hunt(threads, alloc, image, input, settings, finds, out) {
        Ok(tally) => Ok(tally),
        Err(error) => Err(WeakHuntError::Hunt(error)),
    }
}
