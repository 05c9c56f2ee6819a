//! The command `replay`.
ghost use Rattle.std.specs.Prelude.{◌≡◌, ◌⊎◌, ◌++◌, IfErr, IfOk, OnErr};
ghost use Rattle.host_io.specs.Taken.{BeganText};
ghost use Rattle.program_files.specs.Failures.{HasFailed, IsOutput, IsUnprinted, failure_number};
ghost use Rattle.past_commands.specs.Questions.{question_of};
ghost use Rattle.past_commands.specs.Refused.{EndsReplay, EndsReplayOf, EndsReplaying, IsRefusedRun};
ghost use Rattle.past_commands.specs.Replays.{AskedReplay, IsHartAnswer, IsRecordingAnswer, IsReplayAnswer, IsVerdictAnswer};

use crate::answer::{Answer, verdict_answer};
use crate::looking::replay_execution;
use crate::noting::tell_of_seen;
use crate::past::{Past, read_past};
use crate::question::{Question, question_of};
use crate::refusing::refused_for;
use crate::telling::{tell, told_line};
use command_line::Replay;
use host_io::put_all;
use program_files::{
    CommandFailure, ExitStatus, NamedBytes, Output, ProgressLine, World, named_bytes, seen_ranges,
};
use recording::Recording;
use replayer::replay_observed;
use std::alloc::Global;
use std::sync::Wait;
use std::thread::Threads;

/// Replays the recording of a file, and prints `same`, or `differs R` with the first round that differs. Where a round or a place is asked
/// for, it prints the answer to that. Of an execution it prints what `check` does, or the hart at a place.
///
/// # Errors
///
/// `File` where it can't be read; the refusals of the run; `Unread` and `NoExecution` where the file is no recording, or no execution;
/// `NoRounds` where an execution is asked about rounds; then `Naming` for bytes that can't be looked at; `SinkFailed`; the refusal of memory at
/// any time.
#[inline(never)]
pub fn replay_command<W: World, O: Output, R: Threads + Wait + Sync>(
    threads: &R,
    alloc: Global,
    world: &W,
    asked: &Replay<'_>,
    out: &mut O,
) -> Result<ExitStatus, CommandFailure>
    // All that was printed is the answer to what the line asks of what the file holds, and the status is that of this answer.
    ensures answers { IfOk result (λ status. (a : AskedReplay (W.files world.now) asked.now) ×
        (O.took out.new ≡ O.took out.old ++ a.answer.text) × O.is_out out.new ×
        (status ≡ a.answer.status)) }
    // Else nothing was printed, or a beginning of such an answer.
    ensures begun { OnErr result ((O.took out.new ≡ O.took out.old) ⊎
        ((a : AskedReplay (W.files world.now) asked.now) ×
        BeganText (O.took out.old) (O.took out.new) a.answer.text)) }
    // After a refusal for another cause than memory and the output nothing was printed.
    ensures unprinted { IfErr result (λ f.
        IsUnprinted (failure_number f) (O.took out.old) (O.took out.new)) }
    ensures errors { IfErr result (EndsReplay (W.files world.now) asked.now
        (HasFailed O.failures O.is_stuck out.old out.new)) }
{
    let mut progress = world.progress(asked.progress, 0, 1, None);
    let past = read_past(world, alloc, asked.recording)?;
    let answer = replay_past(threads, alloc, &past, asked, &mut progress)?;
    let status = print_answer(&answer, out);
    drop(answer);
    if status.is_ok() {
        // What was asked for is out.
        let _untold = tell_of_seen(alloc, &past, asked, world);
    }
    drop(past);
    status
}

/// Prints an answer and hands it on, and gives its status.
fn print_answer<O: Output>(answer: &Answer, out: &mut O) -> Result<ExitStatus, CommandFailure>
    ensures printed { IfOk result (λ status. (O.took out.new ≡ O.took out.old ++ answer.now.text) ×
        O.is_out out.new × (status ≡ answer.now.status)) }
    ensures begun { OnErr result (BeganText (O.took out.old) (O.took out.new) answer.now.text) }
    ensures errors { IfErr result (IsOutput (HasFailed O.failures O.is_stuck out.old out.new)) }
{
    put_all(out, answer.text.as_bytes())?;
    out.hand_on()?;
    Ok(answer.status)
}

/// The answer to what a line asks of a recording or of an execution.
fn replay_past<P: ProgressLine, R: Threads + Wait + Sync>(
    threads: &R,
    alloc: Global,
    past: &Past,
    asked: &Replay<'_>,
    progress: &mut P,
) -> Result<Answer, CommandFailure>
    ensures answers { IfOk result (IsReplayAnswer past.now asked.now) }
    ensures errors { IfErr result (EndsReplayOf past.now asked.now) }
{
    match past {
        Past::Recording(recorded) => replay_recording(threads, alloc, recorded, asked, progress),
        Past::Execution(text) => replay_execution(alloc, text, asked),
    }
}

/// The answer to what a line asks of a recording.
fn replay_recording<P: ProgressLine, R: Threads + Wait + Sync>(
    threads: &R,
    alloc: Global,
    recorded: &Recording,
    asked: &Replay<'_>,
    progress: &mut P,
) -> Result<Answer, CommandFailure>
    ensures answers { IfOk result (IsRecordingAnswer recorded.now asked.now) }
    ensures errors { IfErr result (EndsReplaying recorded.now asked.now) }
{
    match question_of(asked) {
        None => replay_whole(threads, alloc, recorded, asked.workers, progress),
        Some(question) => answer_question(threads, alloc, recorded, question, asked),
    }
}

/// Whether the run is the recorded one.
fn replay_whole<P: ProgressLine, R: Threads + Wait + Sync>(
    threads: &R,
    alloc: Global,
    recorded: &Recording,
    workers: u32,
    progress: &mut P,
) -> Result<Answer, CommandFailure>
    ensures answers { IfOk result (IsVerdictAnswer workers recorded.now) }
    ensures errors { IfErr result (IsRefusedRun workers recorded.now) }
{
    progress.expect(recorded.rounds());
    let verdict = replay_observed(threads, alloc, recorded, workers, progress);
    progress.end();
    let verdict = verdict?;
    Ok(verdict_answer(alloc, verdict)?)
}

/// The answer to a question about a hart's past.
fn answer_question<R: Threads + Wait + Sync>(
    threads: &R,
    alloc: Global,
    recorded: &Recording,
    question: Question,
    asked: &Replay<'_>,
) -> Result<Answer, CommandFailure>
    ensures answers { IfOk result (IsHartAnswer question recorded.now asked.now) }
    ensures errors { IfErr result (EndsReplaying recorded.now asked.now) }
{
    let NamedBytes { bytes, fault } = named_bytes(
        alloc,
        recorded.image(),
        recorded.pages(),
        &asked.seen,
        &asked.objects,
    )?;
    match fault {
        Some(fault) => {
            drop(bytes);
            Err(refused_for(threads, alloc, recorded, asked.workers, fault))
        }
        None => {
            let ranges = seen_ranges(alloc, &bytes, &asked.objects);
            drop(bytes);
            let ranges = ranges?;
            let told = tell(threads, alloc, recorded, question, asked)?;
            let text = told_line(alloc, asked.hart, &told, &ranges);
            drop(told);
            Ok(Answer {
                text: text?,
                status: ExitStatus::Done,
            })
        }
    }
}
