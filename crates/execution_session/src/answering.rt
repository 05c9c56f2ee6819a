//! What a debugger is answered, and where its session stands then.

ghost use Rattle.std.specs.Prelude.{◌≡◌, IfOk, MatchOption, None, OnErr, Some};
ghost use Rattle.gdb_packets.specs.Writing.{packet_text};
ghost use Rattle.gdb_replies.specs.Replies.{part_of, payload_of};
ghost use Rattle.execution_session.specs.Answers.{Answers, IsAnswer, changes_by, fixed_text, memory_at, moment_text, registers_at, registers_of, reply_at, resumed, selects_general, selects_moving, stands_text, standing_after};
ghost use Rattle.execution_moments.specs.Looked.{looked_at};
ghost use Rattle.gdb_talk.specs.Stops.{changed_by};
ghost use Rattle.execution_session.specs.Sessions.{state_of};
ghost use Rattle.execution_session.specs.Threads.{thread_list};

use crate::knowing::{hart_of_thread, position_at};
use crate::moving::{go_back, go_on, step, step_alone, step_back};
use crate::session::{Session, Standing};
use crate::threads::thread_list;
use execution_moments::Past;
use gdb_packets::Request;
use gdb_replies::{Registers, Reply, Window, reply_text, target_description};
use gdb_talk::{done_if, register_of, stop_reply_of};
use hart_step::Hart;
use pages::OutOfMemory;
use std::alloc::Global;

/// The most bytes that are told at once, so that a reply of two digits each is no longer than a packet may be.
const MOST_READ: u64 = 32_000;

/// The answer to a request about an execution.
///
/// # Errors
///
/// `OutOfMemory`: the session stays as it is.
pub fn answer(
    alloc: Global,
    past: &Past,
    session: &mut Session,
    request: Request,
) -> Result<Vec<u8>, OutOfMemory>
    ensures answers { IfOk result (λ text. Answers (looked_at past.now) (state_of session.old)
        request text.items (state_of session.new)) }
    ensures refused { OnErr result (state_of session.new ≡ state_of session.old) }
{
    match request {
        Request::SelectGeneral(thread) => select_general(alloc, past, session, thread),
        Request::SelectMoving(thread) => select_moving(alloc, past, session, thread),
        Request::Continue
        | Request::Step(_)
        | Request::StepIn(_, _, _)
        | Request::StepAlone(_)
        | Request::StepBack
        | Request::ContinueBack => resume(alloc, past, session, request),
        _ => change_or_reply(alloc, past, session, request),
    }
}

/// Changes breakpoints and watchpoints, or answers a request that changes nothing.
fn change_or_reply(
    alloc: Global,
    past: &Past,
    session: &mut Session,
    request: Request,
) -> Result<Vec<u8>, OutOfMemory>
    ensures changes { IfOk result (λ text.
        IsAnswer (changes_by (looked_at past.now) (state_of session.old) request
        (changed_by (state_of session.old).stops request)) text.items (state_of session.new)) }
    ensures refused { OnErr result (state_of session.new ≡ state_of session.old) }
{
    match session.stops.change(alloc, request)? {
        Some(done) => Ok(done),
        None => reply_to(alloc, past, session.standing, request),
    }
}

/// Resumes the execution, and says where it stands then.
fn resume(
    alloc: Global,
    past: &Past,
    session: &mut Session,
    request: Request,
) -> Result<Vec<u8>, OutOfMemory>
    ensures resumes { IfOk result (λ text. IsAnswer
        (resumed (looked_at past.now) (state_of session.old) request) text.items
        (state_of session.new)) }
    ensures refused { OnErr result (state_of session.new ≡ state_of session.old) }
{
    match standing_after(alloc, past, session, request)? {
        Some(standing) => {
            let text = say_where(alloc, past, standing)?;
            session.standing = standing;
            Ok(text)
        }
        None => reply_text(alloc, &Reply::Missing),
    }
}

/// Where the execution stands after it was resumed; none where there is no such thread.
fn standing_after(
    alloc: Global,
    past: &Past,
    session: &Session,
    request: Request,
) -> Result<Option<Standing>, OutOfMemory>
    ensures { IfOk result (λ x.
        x ≡ standing_after (looked_at past.now) (state_of session.now) request) }
{
    let standing = match request {
        // A step in a range ends behind its first step: gdb asks for the next one.
        Request::Step(thread) | Request::StepIn(thread, _, _) => {
            match hart_of_thread(past, thread) {
                Some(hart) => step(alloc, past, session, hart)?,
                None => return Ok(None),
            }
        }
        Request::StepAlone(thread) => match hart_of_thread(past, thread) {
            Some(hart) => step_alone(alloc, past, session, hart)?,
            None => return Ok(None),
        },
        Request::StepBack => step_back(alloc, past, session)?,
        Request::ContinueBack => go_back(alloc, past, session)?,
        _ => go_on(alloc, past, session)?,
    };
    Ok(Some(standing))
}

/// Registers and memory are asked of this thread from now on.
fn select_general(
    alloc: Global,
    past: &Past,
    session: &mut Session,
    thread: Option<u64>,
) -> Result<Vec<u8>, OutOfMemory>
    ensures selects { IfOk result (λ text. IsAnswer
        (selects_general (looked_at past.now) (state_of session.old) thread) text.items
        (state_of session.new)) }
    ensures refused { OnErr result (state_of session.new ≡ state_of session.old) }
{
    let Some(thread) = thread else {
        return reply_text(alloc, &Reply::Done);
    };
    let hart = hart_of_thread(past, thread);
    let text = reply_text(alloc, &done_if(hart.is_some()))?;
    if let Some(hart) = hart {
        session.standing.general = hart;
    }
    Ok(text)
}

/// Steps back are those of this thread alone from now on, or of any.
fn select_moving(
    alloc: Global,
    past: &Past,
    session: &mut Session,
    thread: Option<u64>,
) -> Result<Vec<u8>, OutOfMemory>
    ensures selects { IfOk result (λ text. IsAnswer
        (selects_moving (looked_at past.now) (state_of session.old) thread) text.items
        (state_of session.new)) }
    ensures refused { OnErr result (state_of session.new ≡ state_of session.old) }
{
    let Some(thread) = thread else {
        let text = reply_text(alloc, &Reply::Done)?;
        session.standing.moving = None;
        return Ok(text);
    };
    let hart = hart_of_thread(past, thread);
    let text = reply_text(alloc, &done_if(hart.is_some()))?;
    if let Some(hart) = hart {
        session.standing.moving = Some(hart);
    }
    Ok(text)
}

/// The reply to a request that isn't about a time; none for another one.
fn fixed_reply(past: &Past, standing: Standing, request: Request) -> Option<Reply<'static>>
    ensures { MatchOption result (fixed_text (looked_at past.now) standing request ≡ None)
        (λ reply. fixed_text (looked_at past.now) standing request ≡ Some (payload_of reply)) }
{
    match request {
        Request::Features => Some(Reply::Features(false)),
        Request::Description(offset, count) => Some(Reply::Part(Window {
            text: target_description(),
            offset,
            count,
        })),
        Request::FirstThreads => Some(Reply::Threads(u32::from(past.harts))),
        Request::MoreThreads => Some(Reply::NoMoreThreads),
        Request::PresentThread => Some(Reply::Thread(u32::from(standing.general) + 1)),
        Request::Attached => Some(Reply::Attached),
        Request::Change => Some(Reply::ExecutionStands),
        Request::Actions => Some(Reply::Actions),
        Request::Detach => Some(Reply::Done),
        _ => None,
    }
}

/// Answers a request that changes nothing.
fn reply_to(
    alloc: Global,
    past: &Past,
    standing: Standing,
    request: Request,
) -> Result<Vec<u8>, OutOfMemory>
    ensures { IfOk result (λ text. text.items
        ≡ packet_text (reply_at (looked_at past.now) standing request)) }
{
    match fixed_reply(past, standing, request) {
        Some(reply) => reply_text(alloc, &reply),
        None => reply_at(alloc, past, standing, request),
    }
}

/// Answers a request that is about the time.
fn reply_at(
    alloc: Global,
    past: &Past,
    standing: Standing,
    request: Request,
) -> Result<Vec<u8>, OutOfMemory>
    ensures { IfOk result (λ text. text.items
        ≡ packet_text (moment_text (looked_at past.now) standing request)) }
{
    match request {
        Request::WhyStopped => say_where(alloc, past, standing),
        Request::ThreadList(offset, count) => { say_threads(alloc, past, standing, offset, count) }
        Request::IsAlive(thread) => {
            reply_text(alloc, &done_if(hart_of_thread(past, thread).is_some()))
        }
        Request::ReadRegisters => say_registers(alloc, past, standing, None),
        Request::ReadRegister(number) => say_registers(alloc, past, standing, Some(number)),
        Request::ReadMemory(address, count) => { say_memory(alloc, past, standing, address, count) }
        _ => reply_text(alloc, &Reply::Unknown),
    }
}

/// Says a part of the list of threads.
fn say_threads(
    alloc: Global,
    past: &Past,
    standing: Standing,
    offset: u64,
    count: u64,
) -> Result<Vec<u8>, OutOfMemory>
    ensures { IfOk result (λ text. text.items
        ≡ packet_text (part_of (thread_list (looked_at past.now) standing.point.time) offset
        count)) }
{
    let text = thread_list(alloc, past, standing.point.time)?;
    let part = Window {
        text: text.as_slice(),
        offset,
        count,
    };
    reply_text(alloc, &Reply::Part(part))
}

/// Says bytes of memory, as the hart that is asked of sees them.
fn say_memory(
    alloc: Global,
    past: &Past,
    standing: Standing,
    address: u64,
    count: u64,
) -> Result<Vec<u8>, OutOfMemory>
    ensures { IfOk result (λ text. text.items
        ≡ packet_text (memory_at (looked_at past.now) standing address count)) }
{
    let (time, count) = (standing.point.time, count.min(MOST_READ));
    let bytes = past.bytes_at(alloc, time, standing.general, address, count)?;
    match bytes.as_slice() {
        [] => reply_text(alloc, &Reply::Missing),
        [_, ..] => reply_text(alloc, &Reply::Memory(bytes.as_slice())),
    }
}

/// The numbers that a hart is shown with, where its next memory operation stands at this position of the order.
fn registers_of(hart: &Hart, position: usize) -> Registers
    ensures { result ≡ registers_of hart.now position }
{
    let mut x = hart.x;
    x[0] = 0;
    Registers {
        x,
        pc: hart.pc,
        round: position as u64,
        place: hart.done,
        phase: 0,
    }
}

/// Says all registers of the hart that is asked of, or one.
fn say_registers(
    alloc: Global,
    past: &Past,
    standing: Standing,
    number: Option<u64>,
) -> Result<Vec<u8>, OutOfMemory>
    ensures { IfOk result (λ text. text.items
        ≡ packet_text (registers_at (looked_at past.now) standing number)) }
{
    let Some(hart) = past.course.hart_at(standing.point.time, standing.general) else {
        return reply_text(alloc, &Reply::Missing);
    };
    let position = position_at(past, standing.point.time, standing.general);
    let registers = registers_of(&hart, position);
    let reply = match number {
        None => Reply::Registers(&registers),
        Some(number) => match register_of(&registers, number) {
            Some(value) => Reply::Register(value),
            None => Reply::Missing,
        },
    };
    reply_text(alloc, &reply)
}

/// Says where the execution stands, and why.
fn say_where(alloc: Global, past: &Past, standing: Standing) -> Result<Vec<u8>, OutOfMemory>
    ensures { IfOk result (λ text. text.items
        ≡ packet_text (stands_text (looked_at past.now) standing)) }
{
    match past.course.hart_at(standing.point.time, standing.told) {
        Some(hart) => {
            let stop = stop_reply_of(standing.reason, u32::from(standing.told), &hart);
            reply_text(alloc, &Reply::Stopped(stop))
        }
        None => reply_text(alloc, &Reply::Missing),
    }
}
