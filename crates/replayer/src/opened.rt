ghost use Rattle.std.specs.Prelude.{◌≡◌, ◌<◌, Some, None, IfOk};
ghost use Rattle.round_planner.specs.Quotas.{Planned};
ghost use Rattle.host_io.specs.declared.error.RunError.TheVariants as refusals;
ghost use Rattle.round_planner.specs.Settings.{settings_fault};
ghost use Rattle.machine.specs.Untraced.{IsUntraced};
ghost use Rattle.round_schedule.specs.Bounds.{AreNoWorkers, AreWorkers};
ghost use Rattle.replayer.specs.Refusals.{RefusedInOrder};
ghost use Rattle.replayer.specs.Replayed.{IsPlanFor, format_of, start_of};

use host_io::RunError;
use machine::{Format, Machine, Settings, UntracedMachine, prepare, prepare_untraced};
use recording::Recording;
use std::alloc::Global;

/// The machine of a recording's inputs, before the first round.
#[tactic(auto, using(crate::proofs::Faults::no_workers, crate::proofs::Faults::no_fault))]
pub(crate) fn opened(
    alloc: Global,
    recording: &Recording,
    workers: u32,
) -> Result<Machine, RunError>
    ensures machine { IfOk result (λ m. (plan : Planned) × IsPlanFor recording.now plan ×
        (m ≡ start_of recording.now plan)) }
    ensures in_range { IfOk result (λ _. AreWorkers workers) }
    ensures in_order { RefusedInOrder workers recording.now result }
{
    let settings = settings_of(recording, workers);
    prepare(alloc, recording.image(), recording.input(), &settings)
}

/// The same without a trace.
#[tactic(auto, using(crate::proofs::Faults::no_workers, crate::proofs::Faults::no_fault))]
pub(crate) fn opened_untraced(
    alloc: Global,
    recording: &Recording,
    workers: u32,
) -> Result<UntracedMachine, RunError>
    ensures machine { IfOk result (λ u. (plan : Planned) × IsPlanFor recording.now plan ×
        IsUntraced (start_of recording.now plan) u) }
    ensures in_range { IfOk result (λ _. AreWorkers workers) }
    ensures in_order { RefusedInOrder workers recording.now result }
{
    let settings = settings_of(recording, workers);
    prepare_untraced(alloc, recording.image(), recording.input(), &settings)
}

/// What a recording says of its run, with so many workers: they alone may be out of range.
pub fn settings_of(recording: &Recording, workers: u32) -> Settings<'_>
    ensures format { result.format ≡ format_of recording.now.format }
    ensures machine { (result.harts ≡ recording.now.harts) × (result.pages ≡ recording.now.pages) }
    ensures rounds { (result.rounds ≡ recording.now.rounds) ×
        (result.budget ≡ recording.now.budget) × (result.workers ≡ workers) }
    ensures plan { result.plan.now ≡ recording.now.plan }
    ensures bad { AreNoWorkers workers → settings_fault result ≡ Some refusals.WorkersOutOfRange }
    ensures good { AreWorkers workers → settings_fault result ≡ None }
{
    Settings {
        format: format_of(recording),
        harts: recording.harts(),
        pages: recording.pages(),
        rounds: recording.rounds(),
        workers,
        budget: recording.budget(),
        plan: recording.plan(),
    }
}

/// How a recording's image is read.
fn format_of(recording: &Recording) -> Format
    ensures { result ≡ format_of recording.now.format }
{
    if recording.is_flat() {
        Format::Flat
    } else {
        Format::Elf
    }
}
