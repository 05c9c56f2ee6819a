ghost use Rattle.host_io.specs.declared.error.RunError.TheVariants as refusals;
ghost use Rattle.round_planner.specs.Settings.{IsReason, RefusedInOrder, settings_fault};
ghost use Rattle.emulation.specs.Reports.{IsReportAlone};
ghost use Rattle.host_io.specs.Writes.{IsFaultOr, WritesAnswer};

use crate::showing::report_run;
use host_io::{RunError, Sink};
use machine::{GuestFiles, Observed, Settings, Unobserved};
use std::alloc::Global;
use std::sync::Wait;
use std::thread::Threads;

/// Runs a guest program for a number of rounds, and writes the report of the state after them. Nobody is shown the rounds.
///
/// # Errors
///
/// The refusals of the settings, then of the image, then of the plan; `OutOfMemory`; `SinkFailed`. Nothing is written
/// before all rounds are done.
pub fn emulate<S: Sink, R: Threads + Wait + Sync>(
    rt: &R,
    alloc: Global,
    image: &[u8],
    input: &[u8],
    settings: &Settings<'_>,
    out: &mut S,
) -> Result<(), RunError>
    // The sink takes the report of the run that the definitions name.
    ensures writes { WritesAnswer S.took S.failures
        (λ _. IsReportAlone settings.now image.now input.now)
        (IsFaultOr (settings_fault settings.now) (IsReason settings.now image.now))
        refusals.OutOfMemory refusals.SinkFailed out.old out.new result }
    // Numbers out of range are refused first, then an image, and then a plan.
    ensures in_order { RefusedInOrder settings.now image.now result }
{
    let files = GuestFiles { image, input };
    let mut nobody = Observed {
        observer: &mut Unobserved,
    };
    report_run(rt, alloc, &files, settings, &mut nobody, out)?;
    Ok(())
}
