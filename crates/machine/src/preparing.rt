ghost use Rattle.std.specs.Prelude.{◌≡◌, ◌≤◌, None, IfOk, IfErr};
ghost use Rattle.round_planner.specs.Quotas.{Planned};
ghost use Rattle.host_io.specs.declared.error.RunError.TheVariants as refusals;
ghost use Rattle.round_planner.specs.Settings.{IsInRange, IsPlan, IsReason, RefusedInOrder, image_for, settings_fault};
ghost use Rattle.machine.specs.Machine.{opening};
ghost use Rattle.round_schedule.specs.Bounds.{AreWorkers};

use crate::machine::Machine;
use host_io::RunError;
use round_planner::{Settings, check_settings, load, read_plan};
use std::alloc::Global;

/// The machine that the settings ask for, before the first round.
///
/// # Errors
///
/// The refusals of the settings, then of the image, then of the plan; `OutOfMemory`.
pub fn prepare(
    alloc: Global,
    image: &[u8],
    input: &[u8],
    settings: &Settings<'_>,
) -> Result<Machine, RunError>
    ensures machine { IfOk result (λ m. (plan : Planned) × IsPlan settings.now plan ×
        (m ≡ opening (image_for settings.now image.now) input.now plan)) }
    ensures in_order { RefusedInOrder settings.now image.now result }
    ensures workers { IfOk result (λ _. AreWorkers settings.now.workers) }
    ensures range { IfOk result (λ _. IsInRange settings.now) }
    ensures errors { settings_fault settings.now ≡ None →
        IfErr result (λ e. IsReason settings.now image.now e) }
{
    check_settings(settings)?;
    let image = load(alloc, settings.format, image, settings.pages)?;
    let plan = read_plan(alloc, settings.plan, settings.harts, settings.budget)?;
    Machine::new(alloc, image, copied(alloc, input)?, plan)
}

/// The bytes of the input.
pub(crate) fn copied(alloc: Global, input: &[u8]) -> Result<Vec<u8>, RunError>
    ensures ok { IfOk result (λ v. v.items ≡ input.now) }
    ensures err { IfErr result (λ e. e ≡ refusals.OutOfMemory) }
{
    match Vec::from_slice(alloc, input) {
        Ok(bytes) => Ok(bytes),
        Err(_) => Err(RunError::OutOfMemory),
    }
}
