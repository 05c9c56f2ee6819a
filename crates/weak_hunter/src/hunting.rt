ghost use Rattle.std.specs.Prelude.{◌≡◌, ◌⊎◌, ◌≤◌, Err, IfErr, IfOk, ℕ, List, None, Some, false, length, option_map, true};
ghost use Rattle.elf_loader.specs.Image.{Loaded};
ghost use Rattle.host_io.specs.declared.load_error.LoadError.{LoadError as ImageCause};
ghost use Rattle.host_io.specs.declared.error.RunError.TheVariants as refusals;
ghost use Rattle.hunter.specs.Hunts.{IsHunt, IsImageCause, extent_of, has_bad_range, hunt_fault};
ghost use Rattle.hunter.specs.declared.error.HuntError.{HuntError as Refusal};
ghost use Rattle.hunter.specs.declared.settings.HuntSettings.{HuntSettings as AskedFor};
ghost use Rattle.hunter.specs.declared.error.HuntError.TheVariants as hunting;
ghost use Rattle.host_io.specs.Writes.{IsFaultOr, WritesAnswer};
ghost use Rattle.weak_hunter.specs.WeakHunts.{IsTabled, IsWeakHuntText, IsWeakReason, IsWeaklyHunted};
ghost use Rattle.weak_hunter.specs.declared.error.WeakHuntError.TheVariants.{Hunt};

use crate::bounds::bounds_of;
use crate::confirming::confirm;
use crate::error::WeakHuntError;
use crate::guest::Guest;
use crate::settings::WeakHunt;
use crate::tabulating::tabulate;
use guest_rounds::opening_harts;
use host_io::Sink;
use hunt_table::write_table;
use hunter::{check_hunt, check_ranges};
use laid_image::LaidImage;
use machine::load;
use plan_hunt::{HuntObserver, Tally};
use std::alloc::Global;
use std::sync::Wait;
use std::thread::Threads;
use weak_executions::{Opening, WeakGuest};

/// Makes a guest's executions of the numbers that a hunt names until the hunt is over, writes the table of the endings that they lead to, and
/// answers it. The first execution of each ending was put to the checker of executions.
///
/// # Errors
///
/// The refusals of the settings, then of the image, then of the ranges; `OutOfMemory`; `Unconfirmed` where the checker doesn't find
/// the ending of an execution as it was made, or RVWMO doesn't allow that execution; `SinkFailed`. Nothing is written before all
/// executions are made and checked.
pub fn hunt_weakly<S: Sink, O: HuntObserver + Sync, R: Threads + Wait + Sync>(
    rt: &R,
    alloc: Global,
    image: &[u8],
    input: &[u8],
    asked: &WeakHunt<'_>,
    observer: &O,
    out: &mut S,
) -> Result<Tally, WeakHuntError>
    requires weak { asked.now.settings.now.header.is_weak ≡ true }
    // It is the table of endings each of which RVWMO allows, and the sink takes its text.
    ensures writes { WritesAnswer S.took S.failures
        (IsWeakHuntText asked.now.settings.now image.now input.now)
        (IsFaultOr (option_map Hunt (hunt_fault asked.now.settings.now))
        (IsWeakReason asked.now.settings.now image.now))
        (Hunt (hunting.Run refusals.OutOfMemory)) (Hunt (hunting.Run refusals.SinkFailed)) out.old
        out.new result }
    // Where memory is refused, it took nothing.
    ensures memory { result ≡ Err (Hunt (hunting.Run refusals.OutOfMemory)) →
        S.took out.new ≡ S.took out.old }
    // Settings out of range are refused first, and then an image.
    ensures settings { (e : Refusal) → hunt_fault asked.now.settings.now ≡ Some e →
        result ≡ Err (Hunt e) }
    ensures image { (cause : ImageCause) → hunt_fault asked.now.settings.now ≡ None →
        IsImageCause asked.now.settings.now image.now cause →
        (result ≡ Err (Hunt (hunting.Run (refusals.Image cause)))) ⊎
        (result ≡ Err (Hunt (hunting.Run refusals.OutOfMemory))) }
    // No hunt looks at a range that is empty, or not all in memory.
    ensures ranges { IfOk result (λ _. has_bad_range asked.now.settings.now ≡ false) }
{
    let tally = tabulate_weakly(rt, alloc, image, input, asked, observer)?;
    write_table(alloc, &asked.settings.header, tally.done, &tally.rows, out)?;
    Ok(tally)
}

/// The table of a weak hunt. The image is loaded and laid into memory once.
fn tabulate_weakly<O: HuntObserver + Sync, R: Threads + Wait + Sync>(
    rt: &R,
    alloc: Global,
    image: &[u8],
    input: &[u8],
    asked: &WeakHunt<'_>,
    observer: &O,
) -> Result<Tally, WeakHuntError>
    ensures table { IfOk result (λ t.
        IsWeaklyHunted asked.now.settings.now image.now input.now t.done t.rows.items) }
    ensures settings { (e : Refusal) → hunt_fault asked.now.settings.now ≡ Some e →
        result ≡ Err (Hunt e) }
    ensures errors { hunt_fault asked.now.settings.now ≡ None →
        IfErr result (λ e. IsWeakReason asked.now.settings.now image.now e) }
    ensures image { (cause : ImageCause) → hunt_fault asked.now.settings.now ≡ None →
        IsImageCause asked.now.settings.now image.now cause →
        (result ≡ Err (Hunt (hunting.Run (refusals.Image cause)))) ⊎
        (result ≡ Err (Hunt (hunting.Run refusals.OutOfMemory))) }
    ensures ranges { IfOk result (λ _. has_bad_range asked.now.settings.now ≡ false) }
{
    let settings = asked.settings;
    check_hunt(settings)?;
    let image = load(alloc, settings.format, image, settings.pages)?;
    check_ranges(settings)?;
    let harts = opening_harts(alloc, image.entry(), settings.harts)?;
    let laid = LaidImage::new(alloc, image)?;
    let opening = Opening {
        image: &laid,
        input,
        harts: &harts,
    };
    let tally = table_of(rt, alloc, opening, asked, observer)?;
    Ok(tally)
}

/// The table of the executions that begin so, each ending of which was confirmed.
fn table_of<O: HuntObserver + Sync, R: Threads + Wait + Sync>(
    rt: &R,
    alloc: Global,
    opening: Opening<'_>,
    asked: &WeakHunt<'_>,
    observer: &O,
) -> Result<Tally, WeakHuntError>
    requires hunt { IsHunt asked.now.settings.now }
    requires harts { length opening.harts.now ≡ asked.now.settings.now.harts }
    ensures table { IfOk result (λ t. IsTabled opening.entry.image.now opening.entry.input.now
        opening.entry.harts.now (extent_of asked.now.settings.now) t.done t.rows.items) }
    ensures errors { (s : AskedFor) (file : List ℕ) → IfErr result (λ e. IsWeakReason s file e) }
{
    let WeakHunt { settings, steps } = *asked;
    let header = &settings.header;
    let guest = Guest {
        alloc,
        opening,
        maker: WeakGuest::new(alloc, opening, header.seed, bounds_of(settings, steps)),
        ranges: &header.ranges,
    };
    let tally = tabulate(rt, &guest, settings.extent(), settings.workers, observer)?;
    confirm(&guest, &tally.rows)?;
    Ok(tally)
}
