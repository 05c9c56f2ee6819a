//! The command `watch`.
ghost use Rattle.std.specs.Prelude.{◌≡◌, ◌⊎◌, ◌++◌, IfErr, IfOk, OnErr};
ghost use Rattle.host_io.specs.Taken.{BeganText};
ghost use Rattle.program_files.specs.Failures.{HasFailed, IsOutput, IsUnprinted, failure_number, out_of_memory};
ghost use Rattle.past_commands.specs.Refused.{EndsWatch, EndsWatchOf, EndsWatching, IsRefusal, IsRefusedRun};
ghost use Rattle.past_commands.specs.Watched.{watched_status, watched_text};
ghost use Rattle.past_commands.specs.Watches.{AreRunHits, AskedWatch, IsRecordingWatch, IsWatch, pcs_told};
ghost use Rattle.round_planner.specs.Quotas.{Planned};
ghost use Rattle.round_schedule.specs.Bounds.{AreWorkers};
ghost use Rattle.replayer.specs.Replayed.{IsPlanFor, start_of};

use crate::naming::{access_ranges, watched_bytes};
use crate::noting::tell_of_watched;
use crate::past::{Past, read_past};
use crate::positions::watch_execution;
use crate::refusing::refused_for;
use crate::watched::{Hits, Watched, print_watched};
use command_line::{Bytes, Watch};
use host_io::RunError;
use program_files::{CommandFailure, ExitStatus, Output, ProgressLine, World};
use recording::Recording;
use replayer::{Hit, Rounds, choose, pcs_before, watch_rounds};
use std::alloc::Global;
use std::sync::Wait;
use std::thread::Threads;

/// Runs the recording of a file anew, and prints `hits N` and the event lines of the accesses to some bytes; of an execution the same of
/// its operations, in the order of memory. Standard error says which of the bytes aren't in guest memory.
///
/// # Errors
///
/// `File` where it can't be read; the refusals of the run; `Unread` and `NoExecution` where the file is no recording, or no execution;
/// `NoRounds` where an execution is asked about rounds; then `Naming` for a name of no object; `SinkFailed`; the refusal of memory at any time.
#[inline(never)]
pub fn watch_command<W: World, O: Output, R: Threads + Wait + Sync>(
    threads: &R,
    alloc: Global,
    world: &W,
    asked: &Watch<'_>,
    out: &mut O,
) -> Result<ExitStatus, CommandFailure>
    // All that was printed are the hits that the line asks for, or why RVWMO doesn't allow the execution, and the status is that of this.
    ensures watches { IfOk result (λ status. (a : AskedWatch (W.files world.now) asked.now) ×
        (O.took out.new ≡ O.took out.old ++ watched_text a.watched) × O.is_out out.new ×
        (status ≡ watched_status a.watched)) }
    // Else nothing was printed, or a beginning of that.
    ensures begun { OnErr result ((O.took out.new ≡ O.took out.old) ⊎
        ((a : AskedWatch (W.files world.now) asked.now) ×
        BeganText (O.took out.old) (O.took out.new) (watched_text a.watched))) }
    // After a refusal for another cause than memory and the output nothing was printed.
    ensures unprinted { IfErr result (λ f.
        IsUnprinted (failure_number f) (O.took out.old) (O.took out.new)) }
    ensures errors { IfErr result (EndsWatch (W.files world.now) asked.now
        (HasFailed O.failures O.is_stuck out.old out.new)) }
{
    let mut progress = world.progress(asked.progress, 0, 1, None);
    let past = read_past(world, alloc, asked.recording)?;
    let watched = watch_past(threads, alloc, &past, asked, &mut progress)?;
    let status = hand_on_watched(alloc, &watched, out);
    drop(watched);
    if status.is_ok() {
        // What was asked for is out.
        let _untold = tell_of_watched(alloc, &past, asked, world);
    }
    drop(past);
    status
}

/// Prints what came of watching and hands it on, and gives the exit status.
fn hand_on_watched<O: Output>(
    alloc: Global,
    watched: &Watched,
    out: &mut O,
) -> Result<ExitStatus, CommandFailure>
    ensures printed { IfOk result (λ status.
        (O.took out.new ≡ O.took out.old ++ watched_text watched.now) ×
        O.is_out out.new × (status ≡ watched_status watched.now)) }
    ensures begun { OnErr result (BeganText (O.took out.old) (O.took out.new)
        (watched_text watched.now)) }
    ensures errors { IfErr result (λ f.
        IsOutput (HasFailed O.failures O.is_stuck out.old out.new) f ⊎ (f ≡ out_of_memory)) }
{
    let status = print_watched(alloc, watched, out)?;
    out.hand_on()?;
    Ok(status)
}

/// What came of watching a recording or an execution.
fn watch_past<P: ProgressLine, R: Threads + Wait + Sync>(
    threads: &R,
    alloc: Global,
    past: &Past,
    asked: &Watch<'_>,
    progress: &mut P,
) -> Result<Watched, CommandFailure>
    ensures watches { IfOk result (IsWatch past.now asked.now) }
    ensures errors { IfErr result (EndsWatchOf past.now asked.now) }
{
    match past {
        Past::Recording(recorded) => watch_recording(threads, alloc, recorded, asked, progress),
        Past::Execution(text) => watch_execution(alloc, text, asked),
    }
}

/// What came of watching a recording.
fn watch_recording<P: ProgressLine, R: Threads + Wait + Sync>(
    threads: &R,
    alloc: Global,
    recorded: &Recording,
    asked: &Watch<'_>,
    progress: &mut P,
) -> Result<Watched, CommandFailure>
    ensures watches { IfOk result (IsRecordingWatch recorded.now asked.now) }
    ensures errors { IfErr result (EndsWatching recorded.now asked.now) }
{
    let named = match watched_bytes(alloc, recorded.image(), asked) {
        Ok(named) => named,
        Err(CommandFailure::Naming(fault)) => {
            return Err(refused_for(threads, alloc, recorded, asked.workers, fault));
        }
        Err(failure) => return Err(failure),
    };
    let hits = watch_bytes(threads, alloc, recorded, &named, asked, progress)?;
    Ok(Watched::Hits(hits))
}

/// The accesses to these bytes that a line asks for, with their pcs where it does.
fn watch_bytes<P: ProgressLine, R: Threads + Wait + Sync>(
    threads: &R,
    alloc: Global,
    recorded: &Recording,
    named: &[Bytes],
    asked: &Watch<'_>,
    progress: &mut P,
) -> Result<Hits, CommandFailure>
    ensures hits { IfOk result (λ hits. (plan : Planned) × IsPlanFor recorded.now plan ×
        AreRunHits asked.now named.now recorded.now (start_of recorded.now plan) hits) }
    ensures workers { IfOk result (λ _. AreWorkers asked.now.workers) }
    ensures errors { IfErr result (IsRefusedRun asked.now.workers recorded.now) }
{
    let ranges = access_ranges(alloc, named)?;
    let rounds = Rounds {
        first: asked.from.unwrap_or(0),
        last: asked.to.unwrap_or(u32::MAX),
    };
    progress.expect(recorded.rounds());
    let found = watch_rounds(
        threads,
        alloc,
        recorded,
        &ranges,
        rounds,
        asked.workers,
        progress,
    );
    drop(ranges);
    progress.end();
    let events = choose(alloc, found?, asked.hart, asked.stores)?;
    match pcs_of(threads, alloc, recorded, &events, asked) {
        Ok(pcs) => Ok(Hits { events, pcs }),
        Err(refused) => {
            drop(events);
            Err(CommandFailure::from(refused))
        }
    }
}

/// The pcs of the instructions of these events, if the line asks for them.
fn pcs_of<R: Threads + Wait + Sync>(
    threads: &R,
    alloc: Global,
    recorded: &Recording,
    events: &[Hit],
    asked: &Watch<'_>,
) -> Result<Vec<Option<u64>>, RunError>
    ensures pcs { (plan : Planned) → IsPlanFor recorded.now plan → IfOk result (λ v.
        v.items ≡ pcs_told asked.now.pc recorded.now (start_of recorded.now plan) events.now) }
    ensures errors { IfErr result (IsRefusal asked.now.workers recorded.now) }
{
    if asked.pc {
        pcs_before(threads, alloc, recorded, events, asked.workers)
    } else {
        Ok(Vec::new(alloc))
    }
}
