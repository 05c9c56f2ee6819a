ghost use Rattle.std.specs.Prelude.{◌≡◌, ◌≤◌, ◌<◌, ◌^◌, map, length, None, Err, IfOk, IfErr};
ghost use Rattle.round_planner.specs.Quotas.{Planned};
ghost use Rattle.host_io.specs.declared.error.RunError.TheVariants as refusals;
ghost use Rattle.machine.specs.Machine.{Running};
ghost use Rattle.round_planner.specs.Settings.{IsInRange, IsPlan, IsReason, RefusedInOrder, settings_fault};
ghost use Rattle.machine.specs.Untraced.{IsUntraced};
ghost use Rattle.recording.specs.Fields.{HaveEach};
ghost use Rattle.recording.specs.Grammar.{checkpoint_after};
ghost use Rattle.recording.specs.Views.{checkpoint_view};
ghost use Rattle.replayer.specs.Replayed.{number_of, recorded_of, recorded_with};
ghost use Rattle.kept_states.specs.Summaries.{checkpoints_of_rounds};
ghost use Rattle.replayer.specs.Visits.{HasRecorded};
ghost use Rattle.round_schedule.specs.Bounds.{AreWorkers};

use host_io::RunError;
use kept_states::{keep, seen_of};
use machine::{
    Format, Next, Observer, Settings, Unobserved, UntracedMachine, Visitor, prepare_untraced,
};
use pages::OutOfMemory;
use recording::{Checkpoint, Recording, RecordingFields};
use std::alloc::Global;
use std::sync::Wait;
use std::thread::Threads;

/// Runs a guest program for a number of rounds, and records it: what it was asked for, and a summary of the state after each
/// round. It may wait.
///
/// # Errors
///
/// The refusals of the settings, then of the image, then of the plan; `OutOfMemory`.
pub fn record<R: Threads + Wait + Sync>(
    rt: &R,
    alloc: Global,
    image: &[u8],
    input: &[u8],
    settings: &Settings<'_>,
) -> Result<Recording, RunError>
    ensures recording { IfOk result (λ r. (plan : Planned) × IsPlan settings.now plan ×
        (r ≡ recorded_of settings.now 0 image.now input.now plan)) }
    ensures in_order { RefusedInOrder settings.now image.now result }
    ensures errors { settings_fault settings.now ≡ None →
        IfErr result (λ e. IsReason settings.now image.now e) }
{
    record_with(rt, alloc, image, input, settings, 0)
}

/// The same with registers after each round whose number is a multiple of `every`, and after none where it is 0.
///
/// # Errors
///
/// As `record`.
pub fn record_with<R: Threads + Wait + Sync>(
    rt: &R,
    alloc: Global,
    image: &[u8],
    input: &[u8],
    settings: &Settings<'_>,
    every: u32,
) -> Result<Recording, RunError>
    ensures recording { IfOk result (λ r. (plan : Planned) × IsPlan settings.now plan ×
        (r ≡ recorded_of settings.now every image.now input.now plan)) }
    ensures in_order { RefusedInOrder settings.now image.now result }
    ensures errors { settings_fault settings.now ≡ None →
        IfErr result (λ e. IsReason settings.now image.now e) }
{
    record_observed(rt, alloc, image, input, settings, every, &mut Unobserved)
}

/// The same with an observer, which looks at the machine after each round.
///
/// # Errors
///
/// As `record`.
pub fn record_observed<O: Observer, R: Threads + Wait + Sync>(
    rt: &R,
    alloc: Global,
    image: &[u8],
    input: &[u8],
    settings: &Settings<'_>,
    every: u32,
    observer: &mut O,
) -> Result<Recording, RunError>
    ensures recording { IfOk result (λ r. (plan : Planned) × IsPlan settings.now plan ×
        (r ≡ recorded_of settings.now every image.now input.now plan)) }
    ensures in_order { RefusedInOrder settings.now image.now result }
    ensures errors { settings_fault settings.now ≡ None →
        IfErr result (λ e. IsReason settings.now image.now e) }
{
    let mut machine = prepare_untraced(alloc, image, input, settings)?;
    let checkpoints = keep_rounds(
        rt,
        alloc,
        &mut machine,
        settings.rounds,
        every,
        settings.workers,
        observer,
    );
    drop(machine);
    recording_of(alloc, image, input, settings, every, checkpoints?)
}

/// What is kept of the next rounds of a machine that was just opened, which does them. It may wait.
fn keep_rounds<O: Observer, R: Threads + Wait + Sync>(
    rt: &R,
    alloc: Global,
    machine: &mut UntracedMachine,
    rounds: u32,
    every: u32,
    workers: u32,
    observer: &mut O,
) -> Result<Vec<Checkpoint>, RunError>
    requires workers { AreWorkers workers }
    requires opened { machine.old.rounds ≡ 0 }
    // The harts of a run have good stops.
    requires run { (m : Running) × IsUntraced m machine.old }
    ensures checkpoints { (m : Running) → IsUntraced m machine.old →
        IfOk result (λ v. map checkpoint_view v.items ≡ checkpoints_of_rounds every rounds m) }
    ensures ranges { IfOk result (λ v.
        HaveEach rounds 1 (checkpoint_after machine.old.plan.harts every)
        (map checkpoint_view v.items)) }
    ensures refused { IfErr result (λ e. e ≡ refusals.OutOfMemory) }
{
    let mut recorder = Recorder {
        alloc,
        every,
        checkpoints: Vec::new(alloc),
        observer,
    };
    machine.walk(rt, rounds, workers, &mut recorder)?;
    Ok(recorder.checkpoints)
}

/// Keeps something of each round.
#[derive(Drop)]
struct Recorder<'a, O> {
    alloc: Global,
    /// Registers are kept after each round whose number is a multiple of it, and after none where it is 0.
    every: u32,
    /// What is kept of the rounds that are done.
    checkpoints: Vec<Checkpoint>,
    /// It is shown each round.
    observer: &'a mut O,
}

impl<'a, O: Observer> Visitor for Recorder<'a, O> {
    ghost knows = { λ first v start rounds done. (v.every ≡ first.every) ×
        HasRecorded (map checkpoint_view v.checkpoints.items) first.every start rounds done };

    ghost has_enough = { λ v u. ⊥ };

    ghost may_fail = { Unit {0} };

    fn after_round(&mut self, machine: &UntracedMachine) -> Result<Next, OutOfMemory> {
        let seen = seen_of(machine);
        let of_round = keep(self.alloc, &seen, self.every)?;
        self.checkpoints.push(of_round)?;
        self.observer.after_round(machine);
        Ok(Next::Round)
    }
}

/// The recording of what a run was asked for, and of what is kept of it.
fn recording_of(
    alloc: Global,
    image: &[u8],
    input: &[u8],
    settings: &Settings<'_>,
    every: u32,
    checkpoints: Vec<Checkpoint>,
) -> Result<Recording, RunError>
    requires settings { IsInRange settings.now }
    requires checkpoints { HaveEach settings.now.rounds 1
        (checkpoint_after settings.now.harts every)
        (map checkpoint_view checkpoints.items) }
    ensures ok { IfOk result (λ r. r ≡
        recorded_with settings.now every image.now input.now
        (map checkpoint_view checkpoints.items)) }
    ensures err { IfErr result (λ e. e ≡ refusals.OutOfMemory) }
{
    Ok(Recording::of(RecordingFields {
        version: 2,
        format: number_of(settings.format),
        harts: settings.harts,
        pages: settings.pages,
        rounds: settings.rounds,
        budget: settings.budget,
        every,
        image: copied(alloc, image)?,
        input: copied(alloc, input)?,
        plan: copied(alloc, settings.plan)?,
        checkpoints,
    }))
}

/// The number of a format in a recording.
fn number_of(format: Format) -> u8
    ensures number { result ≡ number_of format }
    ensures range { result ≤ 1 }
{
    match format {
        Format::Elf => 0,
        Format::Flat => 1,
    }
}

/// The same bytes.
fn copied(alloc: Global, bytes: &[u8]) -> Result<Vec<u8>, RunError>
    ensures ok { IfOk result (λ v. v.items ≡ bytes.now) }
    ensures size { IfOk result (λ v. length v.items < 2 ^ 64) }
    ensures err { IfErr result (λ e. e ≡ refusals.OutOfMemory) }
{
    let _size = bytes.len();
    match Vec::from_slice(alloc, bytes) {
        Ok(copy) => Ok(copy),
        Err(_) => Err(RunError::OutOfMemory),
    }
}
