ghost use Rattle.std.specs.Prelude.{◌≡◌, ◌⊎◌, Err, IfErr, IfOk, None, Some, false};
ghost use Rattle.std.specs.List.{list_all};
ghost use Rattle.host_io.specs.declared.load_error.LoadError.{LoadError as ImageCause};
ghost use Rattle.host_io.specs.declared.error.RunError.TheVariants as refusals;
ghost use Rattle.host_io.specs.Writes.{IsFaultOr, WritesAnswer};
ghost use Rattle.hunter.specs.Hunts.{IsHuntReason, IsHuntText, IsHunted, IsImageCause, all_end_well, has_bad_range, has_exited, hunt_fault, is_one_exit};
ghost use Rattle.hunter.specs.declared.error.HuntError.{HuntError as Refusal};
ghost use Rattle.hunter.specs.declared.error.HuntError.TheVariants.{Run};

use crate::error::HuntError;
use crate::guest::Guest;
use crate::settings::{HuntSettings, check_hunt, check_ranges};
use host_io::Sink;
use hunt_table::write_table;
use plan_hunt::{HartEnding, HuntObserver, Row, Tally, are_well, tabulate};
use std::alloc::Global;
use std::sync::Wait;
use std::thread::Threads;

/// The table of the endings that a guest's runs under the plans come to, of as many plans as are done when the hunt is over. The image is
/// loaded once.
///
/// # Errors
///
/// The refusals of the settings, then of the image, then of the ranges; `OutOfMemory`. No plan of a family is refused.
pub fn tabulate_hunt<O: HuntObserver + Sync, R: Threads + Wait + Sync>(
    rt: &R,
    alloc: Global,
    image: &[u8],
    input: &[u8],
    settings: &HuntSettings,
    observer: &O,
) -> Result<Tally, HuntError>
    ensures table { IfOk result (λ t.
        IsHunted settings.now image.now input.now t.done t.rows.items) }
    ensures settings { (e : Refusal) → hunt_fault settings.now ≡ Some e → result ≡ Err e }
    ensures errors { hunt_fault settings.now ≡ None →
        IfErr result (λ e. IsHuntReason settings.now image.now e) }
    ensures image { (cause : ImageCause) → hunt_fault settings.now ≡ None →
        IsImageCause settings.now image.now cause →
        (result ≡ Err (Run (refusals.Image cause))) ⊎ (result ≡ Err (Run refusals.OutOfMemory)) }
    ensures ranges { IfOk result (λ _. has_bad_range settings.now ≡ false) }
{
    check_hunt(settings)?;
    let guest = Guest::load(alloc, image, input, settings, observer)?;
    check_ranges(settings)?;
    Ok(tabulate(
        rt,
        alloc,
        &guest,
        settings.extent(),
        settings.workers,
        observer,
    )?)
}

fn has_exited(hart: HartEnding) -> bool
    ensures { result ≡ has_exited hart }
{
    match hart {
        HartEnding::Stopped(stop) => stop.code == 1,
        _ => false,
    }
}

fn have_exited(stops: &[HartEnding]) -> bool
    ensures { result ≡ list_all has_exited stops.now }
{
    stops.iter().all(|stop| has_exited(*stop))
}

fn have_all_exited(rows: &[Row]) -> bool
    ensures { result ≡ list_all (λ r. list_all has_exited r.ending.stops) rows.now }
{
    for row in rows {
        if !have_exited(row.ending.stops()) {
            return false;
        }
    }
    true
}

/// Whether there is one ending in a table, in which all harts exited.
pub fn is_one_exit(rows: &[Row]) -> bool
    ensures { result ≡ is_one_exit rows.now }
{
    rows.len() == 1 && have_all_exited(rows)
}

/// Whether in each ending of a table each hart exited with 0: none runs on, was stopped by a fault, or exited with another
/// value.
pub fn all_end_well(rows: &[Row]) -> bool
    ensures { result ≡ all_end_well rows.now }
{
    for row in rows {
        if !are_well(row.ending.stops()) {
            return false;
        }
    }
    true
}

/// Runs a guest under the plans of a hunt until that is over, writes the table of the endings that they lead to, and answers it.
///
/// # Errors
///
/// The refusals of the settings, then of the image, then of the ranges; `OutOfMemory`; `SinkFailed`. Nothing is written before
/// all runs are done.
pub fn hunt<S: Sink, O: HuntObserver + Sync, R: Threads + Wait + Sync>(
    rt: &R,
    alloc: Global,
    image: &[u8],
    input: &[u8],
    settings: &HuntSettings,
    observer: &O,
    out: &mut S,
) -> Result<Tally, HuntError>
    // The text says of no ending that it was checked.
    requires { settings.now.header.is_weak ≡ false }
    // It is the table of the runs that the definitions name, and the sink takes its text.
    ensures writes { WritesAnswer S.took S.failures (IsHuntText settings.now image.now input.now)
        (IsFaultOr (hunt_fault settings.now) (IsHuntReason settings.now image.now))
        (Run refusals.OutOfMemory) (Run refusals.SinkFailed) out.old out.new result }
    // Where memory is refused, it took nothing.
    ensures memory { result ≡ Err (Run refusals.OutOfMemory) → S.took out.new ≡ S.took out.old }
    // Settings out of range are refused first, and then an image.
    ensures settings { (e : Refusal) → hunt_fault settings.now ≡ Some e → result ≡ Err e }
    ensures image { (cause : ImageCause) → hunt_fault settings.now ≡ None →
        IsImageCause settings.now image.now cause →
        (result ≡ Err (Run (refusals.Image cause))) ⊎ (result ≡ Err (Run refusals.OutOfMemory)) }
    // No hunt looks at a range that is empty, or not all in memory.
    ensures ranges { IfOk result (λ _. has_bad_range settings.now ≡ false) }
{
    let tally = tabulate_hunt(rt, alloc, image, input, settings, observer)?;
    write_table(alloc, &settings.header, tally.done, &tally.rows, out)?;
    Ok(tally)
}
