ghost use Rattle.std.specs.Prelude.{◌≡◌, ◌⊎◌, ◌≤◌, Err, IfErr, IfOk, IfSome, None, Some};
ghost use Rattle.std.specs.Bool.{OnTrue};
ghost use Rattle.execution_checker.specs.declared.verdict.Verdict.TheVariants.{Allowed};
ghost use Rattle.execution_file.specs.Views.{as_recorded};
ghost use Rattle.execution_scripts.specs.Findings.{IsAllowedFile};
ghost use Rattle.execution_makers.specs.RunFiles.{IsFileFor};
ghost use Rattle.execution_scripts.specs.declared.checking.Finding.TheVariants.{Judged};
ghost use Rattle.host_io.specs.declared.load_error.LoadError.{LoadError as ImageCause};
ghost use Rattle.host_io.specs.declared.error.RunError.TheVariants as refusals;
ghost use Rattle.hunter.specs.Hunts.{IsImageCause, shrink_fault};
ghost use Rattle.hunter.specs.declared.error.HuntError.{HuntError as Refusal};
ghost use Rattle.hunter.specs.declared.error.HuntError.TheVariants as hunting;
ghost use Rattle.weak_hunter.specs.WeakExecutions.{IsAllowedExecution, IsUnmade};
ghost use Rattle.weak_hunter.specs.declared.error.WeakHuntError.TheVariants.{Hunt};

use crate::bounds::bounds_of;
use crate::error::WeakHuntError;
use departures::Record;
use elf_loader::Image;
use execution_makers::{ScriptedGuest, execution_of_script};
use execution_scripts::{ExecutionFile, Finding, Verdict, check_file};
use guest_rounds::opening_harts;
use hunter::{HuntSettings, check_guest};
use laid_image::LaidImage;
use machine::load;
use pages::OutOfMemory;
use round_schedule::MOST_HARTS;
use std::alloc::Global;
use timed_machine::TimedMachine;
use weak_executions::{Opening, WeakGuest};

/// The execution of a number, of so many steps at most, as a file, which the checker of executions allows. Of the settings, the header's
/// `first`, `count` and `ranges` are not looked at.
///
/// Which of the executions that RVWMO allows a number stands for is no part of the contract.
///
/// # Errors
///
/// The refusals of the settings, then of the image; `OutOfMemory`; `Unconfirmed` where the checker doesn't allow it.
pub fn weak_execution(
    alloc: Global,
    image: &[u8],
    input: &[u8],
    settings: &HuntSettings,
    steps: u32,
    number: u32,
) -> Result<ExecutionFile, WeakHuntError>
    // RVWMO allows the execution that the file says, which is one of this image and this input.
    ensures allowed { IfOk result (λ f.
        IsAllowedExecution settings.now image.now input.now (as_recorded f)) }
    // Settings out of range are refused first, and then an image.
    ensures settings { (e : Refusal) → shrink_fault settings.now ≡ Some e → result ≡ Err (Hunt e) }
    ensures image { (cause : ImageCause) → shrink_fault settings.now ≡ None →
        IsImageCause settings.now image.now cause →
        (result ≡ Err (Hunt (hunting.Run (refusals.Image cause)))) ⊎
        (result ≡ Err (Hunt (hunting.Run refusals.OutOfMemory))) }
    // What is refused then is for a reason that stands, or since the execution isn't confirmed.
    ensures errors { shrink_fault settings.now ≡ None →
        IfErr result (IsUnmade settings.now image.now number) }
{
    check_guest(settings)?;
    let loaded = load(alloc, settings.format, image, settings.pages)?;
    let made = executed(alloc, loaded, input, settings, steps, number);
    let guest = ScriptedGuest {
        format: settings.format,
        pages: settings.pages,
        harts: settings.harts,
        image,
        input,
    };
    match confirmed_execution(alloc, &guest, made?)? {
        Some(file) => Ok(file),
        None => Err(WeakHuntError::Unconfirmed(number)),
    }
}

/// The execution of a machine as a file, if the checker of executions allows it. The machine is let go.
fn confirmed_execution(
    alloc: Global,
    guest: &ScriptedGuest<'_>,
    machine: TimedMachine,
) -> Result<Option<ExecutionFile>, OutOfMemory>
    ensures { IfOk result (λ found. IfSome found (λ f. IsFileFor guest.now (as_recorded f) ×
        IsAllowedFile (as_recorded f))) }
{
    let file = confirmed_file(alloc, guest, &machine);
    drop(machine);
    file
}

/// The machine that made the execution of a number, with its record.
fn executed(
    alloc: Global,
    image: Image,
    input: &[u8],
    settings: &HuntSettings,
    steps: u32,
    number: u32,
) -> Result<TimedMachine, OutOfMemory>
    requires some_harts { 1 ≤ settings.now.harts }
    requires few_harts { settings.now.harts ≤ MOST_HARTS }
{
    let harts = opening_harts(alloc, image.entry(), settings.harts)?;
    let laid = LaidImage::new(alloc, image)?;
    let opening = Opening {
        image: &laid,
        input,
        harts: &harts,
    };
    let bounds = bounds_of(settings, steps);
    WeakGuest::new(alloc, opening, settings.header.seed, bounds).execute(number, true)
}

/// The execution of a machine as a file, if the checker of executions allows it.
fn confirmed_file(
    alloc: Global,
    guest: &ScriptedGuest<'_>,
    machine: &TimedMachine,
) -> Result<Option<ExecutionFile>, OutOfMemory>
    ensures { IfOk result (λ found. IfSome found (λ f. IsFileFor guest.now (as_recorded f) ×
        IsAllowedFile (as_recorded f))) }
{
    let Some(record) = machine.record() else {
        return Ok(None);
    };
    let file = file_of(alloc, guest, record)?;
    if is_allowed(alloc, &file)? {
        Ok(Some(file))
    } else {
        Ok(None)
    }
}

/// The execution of a record as a file.
fn file_of(
    alloc: Global,
    guest: &ScriptedGuest<'_>,
    record: &Record,
) -> Result<ExecutionFile, OutOfMemory>
    ensures { IfOk result (λ f. IsFileFor guest.now (as_recorded f)) }
{
    let order = record.order(alloc)?;
    match execution_of_script(alloc, guest, record.script(), &order) {
        Ok(file) => Ok(file),
        // The guest was opened before, so nothing but memory is wanting.
        Err(_) => Err(OutOfMemory),
    }
}

/// Whether the checker of executions allows the execution of a file, whose guest was opened before.
fn is_allowed(alloc: Global, file: &ExecutionFile) -> Result<bool, OutOfMemory>
    ensures { IfOk result (λ yes. OnTrue yes (IsAllowedFile (as_recorded file.now))) }
{
    match check_file(alloc, file, None) {
        Ok(checked) => Ok(is_found_allowed(checked.finding)),
        Err(_) => Err(OutOfMemory),
    }
}

/// Whether what was found of an execution is that RVWMO allows it.
fn is_found_allowed(finding: Finding) -> bool
    ensures { OnTrue result (finding ≡ Judged Allowed) }
{
    matches!(finding, Finding::Judged(Verdict::Allowed))
}
