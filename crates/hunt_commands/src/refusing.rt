ghost use Rattle.std.specs.Prelude.{◌≡◌, ◌⊎◌, ◌≤◌, None, Some};
ghost use Rattle.host_io.specs.declared.load_error.LoadError.{LoadError as ImageCause};
ghost use Rattle.host_io.specs.declared.error.RunError.TheVariants as refusals;
ghost use Rattle.hunt_commands.specs.Asked.{IsFaultReason};
ghost use Rattle.program_files.specs.declared.failure.CommandFailure.TheVariants as failures;
ghost use Rattle.hunter.specs.Hunts.{IsImageCause, hunt_fault, shrink_fault};
ghost use Rattle.hunter.specs.declared.error.HuntError.{HuntError as Refusal};
ghost use Rattle.hunter.specs.declared.error.HuntError.TheVariants as hunting;
ghost use Rattle.weak_hunter.specs.declared.error.WeakHuntError.TheVariants.{Hunt};

use hunter::{HuntError, HuntSettings, check_guest, check_hunt};
use machine::load;
use pages::MOST_PAGES;
use program_files::{CommandFailure, NamingFault};
use std::alloc::Global;
use weak_hunter::WeakHuntError;

/// Why a hunt isn't done that would look at bytes of which this is wrong: what refuses its settings or its image comes before.
pub fn refused_for(
    alloc: Global,
    image: &[u8],
    settings: &HuntSettings,
    fault: NamingFault,
) -> CommandFailure
    ensures settings { (e : Refusal) → hunt_fault settings.now ≡ Some e →
        result ≡ failures.Hunt (Hunt e) }
    ensures image { (cause : ImageCause) → hunt_fault settings.now ≡ None →
        IsImageCause settings.now image.now cause →
        (result ≡ failures.Hunt (Hunt (hunting.Run (refusals.Image cause)))) ⊎
        (result ≡ failures.Hunt (Hunt (hunting.Run refusals.OutOfMemory))) }
    ensures reason { hunt_fault settings.now ≡ None →
        IsFaultReason fault settings.now image.now result }
{
    match check_hunt(settings) {
        Ok(()) => refused_for_image(alloc, image, settings, fault),
        Err(error) => CommandFailure::Hunt(WeakHuntError::Hunt(error)),
    }
}

/// The same of a search whose plans are not looked at.
pub(crate) fn refused_for_guest(
    alloc: Global,
    image: &[u8],
    settings: &HuntSettings,
    fault: NamingFault,
) -> CommandFailure
    ensures settings { (e : Refusal) → shrink_fault settings.now ≡ Some e →
        result ≡ failures.Hunt (Hunt e) }
    ensures image { (cause : ImageCause) → shrink_fault settings.now ≡ None →
        IsImageCause settings.now image.now cause →
        (result ≡ failures.Hunt (Hunt (hunting.Run (refusals.Image cause)))) ⊎
        (result ≡ failures.Hunt (Hunt (hunting.Run refusals.OutOfMemory))) }
    ensures reason { shrink_fault settings.now ≡ None →
        IsFaultReason fault settings.now image.now result }
{
    match check_guest(settings) {
        Ok(()) => refused_for_image(alloc, image, settings, fault),
        Err(error) => CommandFailure::Hunt(WeakHuntError::Hunt(error)),
    }
}

/// The same of settings that are in range.
fn refused_for_image(
    alloc: Global,
    image: &[u8],
    settings: &HuntSettings,
    fault: NamingFault,
) -> CommandFailure
    requires some_pages { 1 ≤ settings.now.pages }
    requires few_pages { settings.now.pages ≤ MOST_PAGES }
    ensures image { (cause : ImageCause) → IsImageCause settings.now image.now cause →
        (result ≡ failures.Hunt (Hunt (hunting.Run (refusals.Image cause)))) ⊎
        (result ≡ failures.Hunt (Hunt (hunting.Run refusals.OutOfMemory))) }
    ensures reason { IsFaultReason fault settings.now image.now result }
{
    match load(alloc, settings.format, image, settings.pages) {
        Ok(_) => CommandFailure::Naming(fault),
        Err(error) => CommandFailure::Hunt(WeakHuntError::Hunt(HuntError::Run(error))),
    }
}
