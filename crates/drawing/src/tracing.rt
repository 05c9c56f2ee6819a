ghost use Rattle.std.specs.Prelude.{◌≡◌, ◌⊎◌};
ghost use Rattle.host_io.specs.declared.error.RunError.TheVariants as refusals;
ghost use Rattle.emulation.specs.Visited.{HasSeenRun};
ghost use Rattle.machine.specs.Untraced.{Untraced};
ghost use Rattle.round_planner.specs.Settings.{IsReason, RefusedInOrder, settings_fault};
ghost use Rattle.drawing.specs.Drawn.{IsTraceOfRun};
ghost use Rattle.host_io.specs.Writes.{IsFaultOr, WritesAnswer};

use host_io::{RunError, Sink};
use machine::{GuestFiles, Settings, Visitor};
use std::alloc::Global;
use std::sync::Wait;
use std::thread::Threads;
use trace_events::write_trace_events;

/// Runs a guest program for a number of rounds, and writes its trace as JSON in the format of Chrome's trace events. The visitor
/// is shown the machine after each round in which a hart runs. That it has enough ends no run.
///
/// # Errors
///
/// The refusals of the settings, then of the image, then of the plan; `OutOfMemory`; `SinkFailed`. Nothing is written
/// before all rounds are done.
pub fn trace_run<S: Sink, V: Visitor, R: Threads + Wait + Sync>(
    rt: &R,
    alloc: Global,
    files: &GuestFiles<'_>,
    settings: &Settings<'_>,
    visitor: &mut V,
    out: &mut S,
) -> Result<(), RunError>
    requires known { (start : Untraced) →
        V.knows visitor.old visitor.old start settings.now.rounds 0 }
    // The sink takes the text of the trace of the run that the definitions name.
    ensures writes { WritesAnswer S.took S.failures
        (λ _. IsTraceOfRun settings.now files.now.image.now files.now.input.now)
        (IsFaultOr (settings_fault settings.now) (IsReason settings.now files.now.image.now))
        refusals.OutOfMemory refusals.SinkFailed out.old out.new result }
    // Unless the visitor knows all rounds of that run, the sink is as it was.
    ensures waits { (out.new ≡ out.old) ⊎ HasSeenRun V.knows visitor.old visitor.new settings.now
        files.now.image.now files.now.input.now }
    // Numbers out of range are refused first, then an image, and then a plan.
    ensures in_order { RefusedInOrder settings.now files.now.image.now result }
{
    let trace = emulation::trace_run(rt, alloc, files.image, files.input, settings, visitor)?;
    write_trace_events(alloc, &trace, settings.harts, settings.pages, out)
}
