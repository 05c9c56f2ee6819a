ghost use Rattle.std.specs.Prelude.{◌≡◌, IfOk};
ghost use Rattle.debug_commands.specs.Debuggees.{IsGood};
ghost use Rattle.debug_commands.specs.Debugged.{IsDebugged, IsServedBy, IsToldRefusal, error_line};
ghost use Rattle.program_files.specs.Failures.{failure_number};

use crate::debuggee::{Debuggee, opened};
use command_line::Gdb;
use execution_commands::put_verdict;
use gdb_session::serve;
use gdb_talk::refuse_each;
use host_io::{NumberedRefusal, RunError, Sink, Source, put_all};
use pages::OutOfMemory;
use program_files::{CommandFailure, ExitStatus, World};
use report_lines::Line;
use std::alloc::Global;
use std::sync::Wait;
use std::thread::Threads;

/// Serves a debugger that looks at the recording or the execution of a file: reads what it says from a source, and answers it by a sink.
/// Where there is nothing to look at, `errors` takes why, and the debugger is told so too: each of its requests is answered by the number of
/// the refusal, since it shows no more of a program that has ended.
///
/// # Errors
///
/// `SourceFailed` and `SinkFailed`, and `OutOfMemory` where the debugger couldn't be told of a refusal.
pub fn debug_command<W: World, S: Source, K: Sink, E: Sink, R: Threads + Wait + Sync>(
    threads: &R,
    alloc: Global,
    world: &W,
    asked: &Gdb<'_>,
    requests: &mut S,
    replies: &mut K,
    errors: &mut E,
) -> Result<ExitStatus, RunError>
    // What was read was answered, and nothing else: as the run or the execution of the line's file has it, and then the status is 0; or by
    // the number of what refuses it, and then it is 1, or 3 where RVWMO doesn't allow the execution.
    ensures serves { IfOk result (λ status.
        IsDebugged (W.files world.now) asked.now.recording.now status
        (record {
          gave = S.gave requests.old;
          gave_then = S.gave requests.new;
          took = K.took replies.old;
          took_then = K.took replies.new;
          told = E.took errors.old;
          told_then = E.took errors.new;
        })) }
{
    match opened(world, alloc, asked.recording) {
        Ok(mut debuggee) => {
            let served = serve_debuggee(threads, alloc, &mut debuggee, requests, replies, errors);
            drop(debuggee);
            served
        }
        Err(failure) => {
            tell(alloc, &failure, errors);
            refuse_each(alloc, failure.number(), requests, replies)?;
            Ok(ExitStatus::Refused)
        }
    }
}

/// Serves the debugger what it looks at.
fn serve_debuggee<S: Source, K: Sink, E: Sink, R: Threads + Wait + Sync>(
    threads: &R,
    alloc: Global,
    debuggee: &mut Debuggee,
    requests: &mut S,
    replies: &mut K,
    errors: &mut E,
) -> Result<ExitStatus, RunError>
    requires good { IsGood debuggee.old }
    ensures serves { IfOk result (λ status. IsServedBy debuggee.old status
        (record {
          gave = S.gave requests.old;
          gave_then = S.gave requests.new;
          took = K.took replies.old;
          took_then = K.took replies.new;
          told = E.took errors.old;
          told_then = E.took errors.new;
        })) }
{
    match debuggee {
        Debuggee::Run(run) => {
            serve(threads, alloc, run, requests, replies)?;
            Ok(ExitStatus::Done)
        }
        Debuggee::Execution(past) => {
            execution_session::serve(alloc, past, requests, replies)?;
            Ok(ExitStatus::Done)
        }
        Debuggee::Refused(checked) => {
            let status = put_verdict(alloc, checked, errors)?;
            refuse_each(alloc, 0, requests, replies)?;
            Ok(status)
        }
    }
}

/// Tells why there is nothing to look at. It is no failure where that can't be written, or there is no memory for it.
fn tell<E: Sink>(alloc: Global, failure: &CommandFailure, errors: &mut E)
    ensures { IsToldRefusal (failure_number failure.now) (E.took errors.old) (E.took errors.new) }
{
    let _untold = put_why(alloc, failure, errors);
}

/// Writes the line of a refusal, and its words below that.
fn put_why<E: Sink>(alloc: Global, failure: &CommandFailure, errors: &mut E) -> Result<(), RunError>
    ensures { IsToldRefusal (failure_number failure.now) (E.took errors.old) (E.took errors.new) }
{
    let line = error_line(alloc, failure.number())?;
    put_all(errors, line.as_bytes())?;
    let Ok(words) = format!(in alloc; "{failure}\n") else {
        return Err(RunError::OutOfMemory);
    };
    put_all(errors, words.as_bytes())
}

/// The line of a refusal of this number.
fn error_line(alloc: Global, number: u32) -> Result<Line, OutOfMemory>
    ensures { IfOk result (λ line. line ≡ error_line number) }
{
    let mut line = Line::new(alloc);
    line.text("error ")?;
    line.decimal(u64::from(number))?;
    line.text("\n")?;
    Ok(line)
}
