//! How many rounds a run needs.
ghost use Rattle.std.specs.Prelude.{◌≡◌, ◌+◌, ◌<◌, ◌^◌, None, IfErr, IfOk, OnOk};
ghost use Rattle.machine.specs.Machine.{Running};
ghost use Rattle.machine.specs.Untraced.{IsAfter, IsUntraced};
ghost use Rattle.program_files.specs.Needed.{IsNeeded, Needs, have_stopped};
ghost use Rattle.round_planner.specs.Settings.{IsReason, RefusedInOrder, settings_fault};
ghost use Rattle.host_io.specs.declared.error.RunError.TheVariants as refusals;

use host_io::RunError;
use machine::{GuestFiles, Observer, Settings, UntracedMachine, prepare_untraced};
use std::alloc::Global;
use std::sync::Wait;
use std::thread::Threads;

/// How many of the rounds of a run have a hart that runs as they begin: as many as it takes until all harts have stopped, or all of them
/// where one runs on. They are done on the calling thread, and shown to an observer. It may wait.
///
/// # Errors
///
/// The refusals of the settings, then of the image, then of the plan; `OutOfMemory`.
pub fn needed_rounds<P: Observer, R: Threads + Wait + Sync>(
    threads: &R,
    alloc: Global,
    files: &GuestFiles<'_>,
    settings: &Settings<'_>,
    observer: &mut P,
) -> Result<u32, RunError>
    ensures needed { IfOk result (Needs settings.now files.now.image.now files.now.input.now) }
    ensures in_order { RefusedInOrder settings.now files.now.image.now result }
    ensures errors { settings_fault settings.now ≡ None →
        IfErr result (λ e. IsReason settings.now files.now.image.now e) }
{
    let mut machine = prepare_untraced(alloc, files.image, files.input, settings)?;
    let needed = count_needed(threads, &mut machine, settings.rounds, observer);
    drop(machine);
    needed
}

/// The same of a machine before its first round, which does them.
fn count_needed<P: Observer, R: Threads + Wait + Sync>(
    threads: &R,
    machine: &mut UntracedMachine,
    rounds: u32,
    observer: &mut P,
) -> Result<u32, RunError>
    requires { machine.old.rounds + rounds < 2 ^ 32 }
    ensures needed { (m : Running) → IsUntraced m machine.old → IfOk result (IsNeeded rounds m) }
    ensures refused { IfErr result (λ e. e ≡ refusals.OutOfMemory) }
{
    for done in 0..rounds {
        if have_stopped(machine) {
            return Ok(done);
        }
        do_round(threads, machine, observer)?;
    }
    Ok(rounds)
}

/// Whether all harts have stopped.
fn have_stopped(machine: &UntracedMachine) -> bool
    ensures { result ≡ have_stopped machine.now.harts }
{
    machine.harts().iter().all(|hart| hart.stop.is_some())
}

/// Does a round.
fn do_round<P: Observer, R: Threads + Wait + Sync>(
    threads: &R,
    machine: &mut UntracedMachine,
    observer: &mut P,
) -> Result<(), RunError>
    requires { machine.old.rounds + 1 < 2 ^ 32 }
    ensures run { OnOk result (IsAfter 1 machine.old machine.new) }
    ensures counted { OnOk result (machine.new.rounds ≡ machine.old.rounds + 1) }
    ensures refused { IfErr result (λ e. e ≡ refusals.OutOfMemory) }
{
    // No other refusal is left.
    match machine.run_observed(threads, 1, 1, observer) {
        Ok(()) => Ok(()),
        Err(_) => Err(RunError::OutOfMemory),
    }
}
