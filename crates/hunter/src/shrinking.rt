ghost use Rattle.std.specs.Prelude.{◌≡◌, ◌⊎◌, Err, IfErr, IfOk, None, Some, false};
ghost use Rattle.host_io.specs.declared.load_error.LoadError.{LoadError as ImageCause};
ghost use Rattle.host_io.specs.declared.error.RunError.TheVariants as refusals;
ghost use Rattle.round_planner.specs.Families.{family_plan};
ghost use Rattle.plan_hunt.specs.Steps.{IsShrunk};
ghost use Rattle.hunter.specs.Hunts.{IsHuntReason, IsImageCause, ends_from, ends_under, family_of, has_bad_range, shrink_fault};
ghost use Rattle.hunter.specs.declared.error.HuntError.{HuntError as Refusal};
ghost use Rattle.hunter.specs.declared.error.HuntError.TheVariants.{Run};

use crate::error::HuntError;
use crate::guest::Guest;
use crate::settings::{HuntSettings, check_ranges, check_shrink};
use pages::OutOfMemory;
use plan_hunt::{ShrinkObserver, UnobservedHunt};
use round_planner::{Plan, serial_budget};
use std::alloc::Global;
use std::sync::Wait;
use std::thread::Threads;

/// A plan that ends as plan `number` of the family does, and from which no single step to a smaller plan ends so.
///
/// Of the settings, the header's `first` and `count` are not looked at. The runs go one after another, and the
/// observer looks on after each of them.
///
/// # Errors
///
/// The refusals of the settings, then of the image, then of the ranges; `OutOfMemory`.
pub fn shrink<O: ShrinkObserver, R: Threads + Wait + Sync>(
    rt: &R,
    alloc: Global,
    image: &[u8],
    input: &[u8],
    settings: &HuntSettings,
    number: u32,
    observer: &mut O,
) -> Result<Plan, HuntError>
    // It has the harts and the budget of plan `number` and its ending, and no single step from it leads to that ending.
    ensures shrunk { IfOk result (λ p. IsShrunk (ends_under settings.now image.now input.now)
        (family_plan (family_of settings.now) number) p) }
    // Settings out of range are refused first, and then an image.
    ensures settings { (e : Refusal) → shrink_fault settings.now ≡ Some e → result ≡ Err e }
    // What is refused then is for a reason that stands.
    ensures errors { shrink_fault settings.now ≡ None →
        IfErr result (λ e. IsHuntReason settings.now image.now e) }
    ensures image { (cause : ImageCause) → shrink_fault settings.now ≡ None →
        IsImageCause settings.now image.now cause →
        (result ≡ Err (Run (refusals.Image cause))) ⊎ (result ≡ Err (Run refusals.OutOfMemory)) }
    ensures ranges { IfOk result (λ _. has_bad_range settings.now ≡ false) }
{
    check_shrink(settings)?;
    let guest = Guest::load(alloc, image, input, settings, &UnobservedHunt)?;
    check_ranges(settings)?;
    Ok(shrunk(rt, &guest, number, observer)?)
}

/// The same of a guest.
fn shrunk<O: ShrinkObserver, R: Threads + Wait + Sync>(
    rt: &R,
    guest: &Guest<'_, UnobservedHunt>,
    number: u32,
    observer: &mut O,
) -> Result<Plan, OutOfMemory>
    ensures { IfOk result (λ p. IsShrunk (ends_from guest.now.settings.now guest.now.image
        guest.now.input.now) (family_plan (family_of guest.now.settings.now) number) p) }
{
    let family = guest.family();
    let rows = family.rows_of(guest.alloc, number)?;
    plan_hunt::shrink(
        rt,
        guest.alloc,
        guest,
        rows,
        family.harts,
        serial_budget(number),
        observer,
    )
}
