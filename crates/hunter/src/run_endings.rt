ghost use Rattle.std.specs.Prelude.{◌≡◌, None, IfErr, IfOk};
ghost use Rattle.round_planner.specs.Quotas.{Planned};
ghost use Rattle.machine.specs.Machine.{opening};
ghost use Rattle.round_planner.specs.Settings.{IsPlan, IsReason, RefusedInOrder, image_for, settings_fault};
ghost use Rattle.hunter.specs.Hunts.{run_endings};

use crate::finding::run_or_loop;
use crate::guest::stops_by;
use host_io::RunError;
use machine::{GuestFiles, Settings, prepare_untraced};
use plan_hunt::{HartEnding, UnobservedHunt};
use std::alloc::Global;
use std::sync::Wait;
use std::thread::Threads;

/// Runs a guest program for a number of rounds, and tells how each hart ended: why it stopped, that it runs when the rounds are
/// over, or that it runs for ever under this plan, since the run goes round. A run that is found to is cut short. It may wait.
///
/// # Errors
///
/// The refusals of the settings, then of the image, then of the plan; `OutOfMemory`.
pub fn find_run_endings<R: Threads + Wait + Sync>(
    rt: &R,
    alloc: Global,
    files: &GuestFiles<'_>,
    settings: &Settings<'_>,
) -> Result<Vec<HartEnding>, RunError>
    // They are those of the run that the definitions name.
    ensures endings { IfOk result (λ v. (plan : Planned) × IsPlan settings.now plan ×
        (v.items ≡ run_endings settings.now.rounds (opening (image_for settings.now
        files.now.image.now) files.now.input.now plan))) }
    // Numbers out of range are refused first, then an image, and then a plan.
    ensures in_order { RefusedInOrder settings.now files.now.image.now result }
    // What is refused then is for a reason that stands.
    ensures errors { settings_fault settings.now ≡ None →
        IfErr result (λ e. IsReason settings.now files.now.image.now e) }
{
    let mut machine = prepare_untraced(alloc, files.image, files.input, settings)?;
    let loops = run_or_loop(rt, &UnobservedHunt, alloc, &mut machine, settings.rounds)?;
    let endings = stops_by(alloc, loops, machine.harts())?;
    Ok(endings)
}
