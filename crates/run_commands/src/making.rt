ghost use Rattle.std.specs.Prelude.{◌≡◌, ◌⊎◌, ℕ, None, IfErr, IfOk, OnErr};
ghost use Rattle.program_files.specs.Asked.{AskedRun, RefusedSetRun, SetRun};
ghost use Rattle.program_files.specs.declared.exit_status.ExitStatus.TheVariants as statuses;
ghost use Rattle.program_files.specs.Failures.{IsUnwritten};
ghost use Rattle.run_commands.specs.Made.{AreRecorded, EndsRecord, for_rounds, recorded_text};
ghost use Rattle.replayer.specs.Replayed.{recorded_of};
ghost use Rattle.round_planner.specs.Quotas.{Planned};
ghost use Rattle.round_planner.specs.Settings.{IsPlan, IsReason, RefusedInOrder, settings_fault};

use crate::saving::save;
use command_line::Record;
use host_io::RunError;
use machine::{GuestFiles, Observer, Settings};
use program_files::{
    CommandFailure, ExitStatus, ProgressLine, RunFiles, World, guest_files, needed_rounds,
    read_run, settings_of,
};
use recording::{Checkpoint, Recording};
use replayer::record_observed;
use std::alloc::Global;
use std::sync::Wait;
use std::thread::Threads;

/// Runs a guest program, and writes its recording to a file. Standard error says where all harts had stopped before a half of its rounds
/// was done.
///
/// # Errors
///
/// `File` where one can't be read, the refusals of the run, and that of memory: no file is written then. `Unwritten` where the recording
/// can't be written: its file holds what it held before.
#[inline(never)]
pub fn record_command<W: World, R: Threads + Wait + Sync>(
    threads: &R,
    alloc: Global,
    world: &mut W,
    asked: &Record<'_>,
) -> Result<ExitStatus, CommandFailure>
    // The file that the line names was given the recording of the run that the line asks for, of all its rounds or of those that it needs.
    ensures records { IfOk result (λ status.
        (a : AskedRun (W.files world.old) asked.now.run) × (n : ℕ) ×
        AreRecorded asked.now.until_stopped a.made.settings a.image a.input n ×
        W.was_given world.old world.new asked.now.out.now
        (recorded_text (for_rounds n a.made.settings) asked.now.every a.image a.input a.made.plan) ×
        (status ≡ statuses.Done)) }
    // Else no file was written, or this one couldn't be.
    ensures unwritten { IfErr result (λ f. (world.new ≡ world.old) ⊎
        IsUnwritten (W.wasnt_given world.new) asked.now.out.now f) }
    ensures errors { IfErr result (EndsRecord (W.files world.old)
        (W.wasnt_given world.new) asked.now) }
{
    let program = &asked.run.program;
    let mut progress = world.progress(program.progress, program.rounds, 1, None);
    let given = read_run(world, alloc, &asked.run)?;
    let recorded = record_given(threads, alloc, &given, asked, &mut progress)?;
    save(world, alloc, &recorded, asked.out)?;
    tell_of_rounds(&recorded, world);
    Ok(ExitStatus::Done)
}

/// Records the run of what the files gave.
fn record_given<P: ProgressLine, R: Threads + Wait + Sync>(
    threads: &R,
    alloc: Global,
    given: &RunFiles,
    asked: &Record<'_>,
    progress: &mut P,
) -> Result<Recording, CommandFailure>
    ensures records { IfOk result (λ recorded.
        (r : SetRun asked.now.run.program given.now.plan.text.items given.now.plan.budget) ×
        (n : ℕ) ×
        AreRecorded asked.now.until_stopped r.settings given.now.program.image.items
        given.now.program.input.items n ×
        (recorded ≡ recorded_of (for_rounds n r.settings) asked.now.every
        given.now.program.image.items
        given.now.program.input.items r.plan)) }
    ensures errors { IfErr result (RefusedSetRun asked.now.run.program given.now.plan.text.items
        given.now.plan.budget given.now.program.image.items ⊥) }
{
    let settings = settings_of(&asked.run.program, &given.plan);
    let guest = guest_files(&given.program);
    let answer = record_guest(threads, alloc, &guest, &settings, asked, progress);
    progress.end();
    given.plan.explain(alloc, settings.harts, answer)
}

/// Records the run of a guest by these settings.
fn record_guest<P: Observer, R: Threads + Wait + Sync>(
    threads: &R,
    alloc: Global,
    guest: &GuestFiles<'_>,
    settings: &Settings<'_>,
    asked: &Record<'_>,
    progress: &mut P,
) -> Result<Recording, RunError>
    ensures records { IfOk result (λ recorded. (plan : Planned) × IsPlan settings.now plan ×
        (n : ℕ) ×
        AreRecorded asked.now.until_stopped settings.now guest.now.image.now guest.now.input.now n ×
        (recorded ≡ recorded_of (for_rounds n settings.now) asked.now.every guest.now.image.now
        guest.now.input.now plan)) }
    ensures in_order { RefusedInOrder settings.now guest.now.image.now result }
    ensures errors { settings_fault settings.now ≡ None →
        IfErr result (IsReason settings.now guest.now.image.now) }
{
    match rounds_recorded(threads, alloc, guest, settings, asked, progress) {
        Ok(rounds) => {
            let settings = Settings {
                rounds,
                ..*settings
            };
            let (image, input) = (guest.image, guest.input);
            record_observed(
                threads,
                alloc,
                image,
                input,
                &settings,
                asked.every,
                progress,
            )
        }
        Err(error) => Err(error),
    }
}

/// How many rounds of the run are recorded.
fn rounds_recorded<P: Observer, R: Threads + Wait + Sync>(
    threads: &R,
    alloc: Global,
    guest: &GuestFiles<'_>,
    settings: &Settings<'_>,
    asked: &Record<'_>,
    progress: &mut P,
) -> Result<u32, RunError>
    ensures rounds { IfOk result (AreRecorded asked.now.until_stopped settings.now
        guest.now.image.now guest.now.input.now) }
    ensures in_order { OnErr result (RefusedInOrder settings.now guest.now.image.now result) }
    ensures errors { settings_fault settings.now ≡ None →
        IfErr result (IsReason settings.now guest.now.image.now) }
{
    if asked.until_stopped {
        needed_rounds(threads, alloc, guest, settings, progress)
    } else {
        Ok(settings.rounds)
    }
}

/// Says on standard error where all harts had stopped before a half of the rounds of a recording was done.
fn tell_of_rounds<W: World>(recorded: &Recording, world: &W) {
    let (rounds, checkpoints) = (recorded.rounds(), recorded.checkpoints());
    if let Some(index) = checkpoints.iter().position(have_stopped) {
        let done = index.saturating_add(1);
        if done.saturating_mul(2) < rounds as usize {
            world.tell(format_args!(
                "all harts had stopped after round {done} of {rounds}: --until-stopped records no more than these"
            ));
        }
    }
}

/// Whether no hart runs after the round of a checkpoint.
fn have_stopped(checkpoint: &Checkpoint) -> bool {
    checkpoint.summary.harts.iter().all(|hart| hart.code != 0)
}
