//! What a debugger is answered, and what its session is then.

ghost use Rattle.std.specs.Prelude.{◌≡◌, IfOk, IfSome, OnErr};
ghost use Rattle.gdb_packets.specs.declared.request.Request.TheVariants as requests;
ghost use Rattle.gdb_session.specs.Answers.{Answers, Moves, Resumes};
ghost use Rattle.gdb_runs.specs.Sessions.{IsReady, OfRun, state_of};

use crate::goto::go_to;
use crate::hits::set_hits;
use crate::reading::{is_goto, reply_to, say_stop};
use gdb_packets::{Command, Request};
use gdb_replies::{Reply, reply_text};
use gdb_runs::{Debugged, Session, Standing};
use gdb_steps::{step, step_alone, step_back, step_in};
use gdb_talk::{done_if, hart_of_thread};
use pages::OutOfMemory;
use std::alloc::Global;
use std::sync::Wait;
use std::thread::Threads;

/// The answer to a request about a run, but for one to go on or back until something is told. It may wait.
///
/// # Errors
///
/// `OutOfMemory`: the session stays as it is.
pub fn answer<R: Threads + Wait + Sync>(
    rt: &R,
    alloc: Global,
    run: &mut Debugged,
    session: &mut Session,
    request: Request,
) -> Result<Vec<u8>, OutOfMemory>
    requires ready { IsReady run.old session.old.standing }
    ensures stays { run.new ≡ run.old }
    ensures ready { IsReady run.old session.new.standing }
    ensures answers { OfRun run.old (λ r. IfOk result (λ text.
        Answers r (state_of session.old) request text.items (state_of session.new))) }
    ensures refused { OnErr result (state_of session.new ≡ state_of session.old) }
{
    match request {
        Request::SelectGeneral(thread) => select_general(alloc, run, session, thread),
        Request::SelectMoving(thread) => select_moving(alloc, run, session, thread),
        Request::Step(_) | Request::StepIn(..) | Request::StepAlone(_) | Request::StepBack =>
            resume(rt, alloc, run, session, request),
        Request::Command(command) => answer_command(rt, alloc, run, session, command),
        _ => change_or_reply(rt, alloc, run, session, request),
    }
}

/// Changes breakpoints and watchpoints, or answers a request that changes nothing.
fn change_or_reply<R: Threads + Wait + Sync>(
    rt: &R,
    alloc: Global,
    run: &mut Debugged,
    session: &mut Session,
    request: Request,
) -> Result<Vec<u8>, OutOfMemory>
    requires ready { IsReady run.old session.old.standing }
    ensures stays { run.new ≡ run.old }
    ensures ready { IsReady run.old session.new.standing }
    ensures answers { OfRun run.old (λ r. IfOk result (λ text.
        Answers r (state_of session.old) request text.items (state_of session.new))) }
    ensures refused { OnErr result (state_of session.new ≡ state_of session.old) }
{
    match session.stops.change(alloc, request)? {
        Some(done) => Ok(done),
        None => reply_to(rt, alloc, run, session.standing, request),
    }
}

/// Answers a command of the user's.
fn answer_command<R: Threads + Wait + Sync>(
    rt: &R,
    alloc: Global,
    run: &mut Debugged,
    session: &mut Session,
    command: Command,
) -> Result<Vec<u8>, OutOfMemory>
    requires ready { IsReady run.old session.old.standing }
    ensures stays { run.new ≡ run.old }
    ensures ready { IsReady run.old session.new.standing }
    ensures answers { OfRun run.old (λ r. IfOk result (λ text. Answers r (state_of session.old)
        (requests.Command command) text.items (state_of session.new))) }
    ensures refused { OnErr result (state_of session.new ≡ state_of session.old) }
{
    match command {
        Command::HitsOn => set_hits(alloc, run, session, true),
        Command::HitsOff => set_hits(alloc, run, session, false),
        _ => {
            if is_goto(command) {
                go_to(rt, alloc, run, session, command)
            } else {
                let request = Request::Command(command);
                reply_to(rt, alloc, run, session.standing, request)
            }
        }
    }
}

/// Resumes the run, and says where it stands then. It may wait.
fn resume<R: Threads + Wait + Sync>(
    rt: &R,
    alloc: Global,
    run: &mut Debugged,
    session: &mut Session,
    request: Request,
) -> Result<Vec<u8>, OutOfMemory>
    requires ready { IsReady run.old session.old.standing }
    ensures stays { run.new ≡ run.old }
    ensures ready { IsReady run.old session.new.standing }
    ensures resumes { OfRun run.old (λ r. IfOk result (λ text.
        Resumes r (state_of session.old) request text.items (state_of session.new))) }
    ensures refused { OnErr result (state_of session.new ≡ state_of session.old) }
{
    match standing_after(rt, alloc, run, session, request)? {
        Some(standing) => {
            let text = say_stop(rt, alloc, run, standing)?;
            session.standing = standing;
            Ok(text)
        }
        None => reply_text(alloc, &Reply::Missing),
    }
}

/// Where the run stands after a step; none where there is no such thread.
fn standing_after<R: Threads + Wait + Sync>(
    rt: &R,
    alloc: Global,
    run: &mut Debugged,
    session: &mut Session,
    request: Request,
) -> Result<Option<Standing>, OutOfMemory>
    requires ready { IsReady run.old session.old.standing }
    ensures stays { run.new ≡ run.old }
    ensures session { session.new ≡ session.old }
    ensures standing { OfRun run.old (λ r.
        IfOk result (λ x. Moves r (state_of session.old) request x)) }
    ensures ready { IfOk result (λ x. IfSome x (λ t. IsReady run.old t)) }
{
    let moved = match request {
        Request::Step(thread) => match hart_of_thread(run.harts, thread) {
            Some(hart) => step(rt, alloc, run, session, hart),
            None => return Ok(None),
        },
        Request::StepIn(low, high, thread) => match hart_of_thread(run.harts, thread) {
            Some(hart) => step_in(rt, alloc, run, session, hart, low, high),
            None => return Ok(None),
        },
        Request::StepAlone(thread) => match hart_of_thread(run.harts, thread) {
            Some(hart) => step_alone(rt, alloc, run, session, hart),
            None => return Ok(None),
        },
        Request::StepBack => step_back(rt, alloc, run, session),
        // No other request resumes the run.
        _ => Err(OutOfMemory),
    };
    Ok(Some(moved?))
}

/// Registers and memory are asked of this thread from now on.
fn select_general(
    alloc: Global,
    run: &Debugged,
    session: &mut Session,
    thread: Option<u64>,
) -> Result<Vec<u8>, OutOfMemory>
    requires ready { IsReady run.now session.old.standing }
    ensures ready { IsReady run.now session.new.standing }
    ensures answers { OfRun run.now (λ r. IfOk result (λ text. Answers r (state_of session.old)
        (requests.SelectGeneral thread) text.items (state_of session.new))) }
    ensures refused { OnErr result (state_of session.new ≡ state_of session.old) }
{
    let Some(thread) = thread else {
        return reply_text(alloc, &Reply::Done);
    };
    let hart = hart_of_thread(run.harts, thread);
    let text = reply_text(alloc, &done_if(hart.is_some()))?;
    if let Some(hart) = hart {
        session.standing.general = hart;
    }
    Ok(text)
}

/// Steps back are those of this thread alone from now on, or of any.
fn select_moving(
    alloc: Global,
    run: &Debugged,
    session: &mut Session,
    thread: Option<u64>,
) -> Result<Vec<u8>, OutOfMemory>
    requires ready { IsReady run.now session.old.standing }
    ensures ready { IsReady run.now session.new.standing }
    ensures answers { OfRun run.now (λ r. IfOk result (λ text. Answers r (state_of session.old)
        (requests.SelectMoving thread) text.items (state_of session.new))) }
    ensures refused { OnErr result (state_of session.new ≡ state_of session.old) }
{
    let Some(thread) = thread else {
        let text = reply_text(alloc, &Reply::Done)?;
        session.standing.moving = None;
        return Ok(text);
    };
    let hart = hart_of_thread(run.harts, thread);
    let text = reply_text(alloc, &done_if(hart.is_some()))?;
    if let Some(hart) = hart {
        session.standing.moving = Some(hart);
    }
    Ok(text)
}
