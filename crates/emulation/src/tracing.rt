ghost use Rattle.std.specs.Prelude.{◌≡◌, ℕ, List, None, IfOk, IfErr, OnOk, slice_index};
ghost use Rattle.round_planner.specs.Quotas.{Planned};
ghost use Rattle.host_io.specs.declared.error.RunError.TheVariants as refusals;
ghost use Rattle.round_schedule.specs.RoundTrace.{IsRoundTrace};
ghost use Rattle.memory_order.specs.RoundOrder.{IsRoundOrder};
ghost use Rattle.memory_order.specs.Rvwmo.{MeetsRvwmo};
ghost use Rattle.trace.specs.Traced.{opening_at};
ghost use Rattle.round_planner.specs.Settings.{IsPlan, IsReason, RefusedInOrder, image_for, settings_fault};
ghost use Rattle.emulation.specs.Visited.{HasSeenRun};
ghost use Rattle.machine.specs.Untraced.{Untraced};
ghost use Rattle.machine.specs.Runs.{trace_after};

use host_io::RunError;
use machine::{Settings, Visitor, prepare};
use std::alloc::Global;
use std::sync::Wait;
use std::thread::Threads;
use trace::Trace;

/// Runs a guest program for a number of rounds, and hands its trace over.
///
/// It is the trace of a run in rounds over the bytes of the image, so that its memory order meets RVWMO. The visitor is shown
/// the machine after each round in which a hart runs. That it has enough ends no run.
///
/// # Errors
///
/// The refusals of the settings, then of the image, then of the plan; `OutOfMemory`.
pub fn trace_run<V: Visitor, R: Threads + Wait + Sync>(
    rt: &R,
    alloc: Global,
    image: &[u8],
    input: &[u8],
    settings: &Settings<'_>,
    visitor: &mut V,
) -> Result<Trace, RunError>
    requires known { (start : Untraced) →
        V.knows visitor.old visitor.old start settings.now.rounds 0 }
    // It has the events of the run that the definitions name.
    ensures events { IfOk result (λ t. (plan : Planned) × IsPlan settings.now plan ×
        (t.events ≡ trace_after settings.now image.now input.now plan)) }
    ensures opening { IfOk result (λ t. (x : ℕ) → opening_at t.opening x ≡
        slice_index (image_for settings.now image.now).bytes x) }
    ensures rounds { IfOk result (λ t.
        IsRoundTrace t.events (opening_at t.opening) settings.now.budget) }
    // The order by rounds, which `memory_order` gives, meets RVWMO.
    ensures rvwmo { IfOk result (λ t. (g : List ℕ) → IsRoundOrder t.events g →
        MeetsRvwmo t.events (opening_at t.opening) g) }
    // The visitor knows all rounds of it.
    ensures known { OnOk result (HasSeenRun V.knows visitor.old visitor.new settings.now image.now
        input.now) }
    ensures in_order { RefusedInOrder settings.now image.now result }
    ensures errors { settings_fault settings.now ≡ None →
        IfErr result (λ e. IsReason settings.now image.now e) }
{
    let mut machine = prepare(alloc, image, input, settings)?;
    match machine.run_visited(rt, settings.rounds, settings.workers, visitor) {
        Ok(()) => Ok(machine.into_trace()),
        Err(refused) => {
            drop(machine);
            Err(RunError::from(refused))
        }
    }
}
