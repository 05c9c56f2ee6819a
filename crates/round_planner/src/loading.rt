ghost use Rattle.std.specs.Prelude.{◌≡◌, ◌⊎◌, ◌≤◌, Err, IfOk, IfErr};
ghost use Rattle.elf_loader.specs.Causes.{IsGood, IsLeast as IsLeastOfImage};
ghost use Rattle.host_io.specs.declared.load_error.LoadError.{LoadError as ImageCause};
ghost use Rattle.round_planner.specs.Causes.{IsLeast as IsLeastOfPlan};
ghost use Rattle.host_io.specs.declared.plan_error.PlanError.{PlanError as PlanCause};
ghost use Rattle.host_io.specs.declared.error.RunError.TheVariants as refusals;
ghost use Rattle.round_planner.specs.Settings.{IsPlanOf, StandsIn, image_of};

use crate::plan::Plan;
use crate::settings::Format;
use elf_loader::{Image, LoadError, load_elf, load_flat};
use host_io::{PlanError, RunError};
use round_schedule::MOST_HARTS;
use std::alloc::Global;

/// The image of a file, for memory of so many pages.
///
/// # Errors
///
/// The least cause that speaks against the file, and `OutOfMemory`.
pub fn load(alloc: Global, format: Format, file: &[u8], pages: u32) -> Result<Image, RunError>
    requires some_pages { 1 ≤ pages }
    requires few_pages { pages ≤ 16384 }
    ensures image { IfOk result (λ i. i ≡ image_of format file.now pages) }
    ensures errors { IfErr result (λ e. (e ≡ refusals.OutOfMemory) ⊎ ((cause : ImageCause) ×
        IsLeastOfImage (StandsIn format file.now pages) cause × (e ≡ refusals.Image cause))) }
    ensures refused { (cause : ImageCause) → IsLeastOfImage (StandsIn format file.now pages) cause →
        (result ≡ Err (refusals.Image cause)) ⊎ (result ≡ Err refusals.OutOfMemory) }
    ensures taken { IsGood (StandsIn format file.now pages) →
        IfErr result (λ e. e ≡ refusals.OutOfMemory) }
{
    load_as(alloc, format, file, pages)
}

/// The same, by the format's own loader.
fn load_as(alloc: Global, format: Format, file: &[u8], pages: u32) -> Result<Image, RunError>
    requires some_pages { 1 ≤ pages }
    requires few_pages { pages ≤ 16384 }
    ensures image { IfOk result (λ i. i ≡ image_of format file.now pages) }
    ensures errors { IfErr result (λ e. (e ≡ refusals.OutOfMemory) ⊎ ((cause : ImageCause) ×
        IsLeastOfImage (StandsIn format file.now pages) cause × (e ≡ refusals.Image cause))) }
    ensures refused { (cause : ImageCause) → IsLeastOfImage (StandsIn format file.now pages) cause →
        (result ≡ Err (refusals.Image cause)) ⊎ (result ≡ Err refusals.OutOfMemory) }
{
    let loaded = match format {
        Format::Elf => load_elf(alloc, file, pages),
        Format::Flat => load_flat(alloc, file, pages),
    };
    match loaded {
        Ok(image) => Ok(image),
        Err(LoadError::OutOfMemory) => Err(RunError::OutOfMemory),
        Err(cause) => Err(RunError::Image(cause)),
    }
}

/// The plan of a text.
pub fn read_plan(alloc: Global, text: &[u8], harts: u32, budget: u32) -> Result<Plan, RunError>
    requires some_harts { 1 ≤ harts }
    requires few_harts { harts ≤ MOST_HARTS }
    requires some_budget { 1 ≤ budget }
    requires few_budget { budget ≤ 1000 }
    ensures plan { IfOk result (λ p. IsPlanOf harts text.now budget p) }
    ensures errors { IfErr result (λ e. (e ≡ refusals.OutOfMemory) ⊎
        ((cause : PlanCause) × IsLeastOfPlan harts text.now cause × (e ≡ refusals.Plan cause))) }
    ensures refused { (cause : PlanCause) → IsLeastOfPlan harts text.now cause →
        (result ≡ Err (refusals.Plan cause)) ⊎ (result ≡ Err refusals.OutOfMemory) }
{
    match Plan::parse(alloc, text, harts) {
        Ok(mut plan) => {
            plan.set_budget(budget);
            Ok(plan)
        }
        Err(PlanError::OutOfMemory) => Err(RunError::OutOfMemory),
        Err(cause) => Err(RunError::Plan(cause)),
    }
}
