//! Requests that change nothing.

ghost use Rattle.std.specs.Prelude.{◌≡◌, ◌<◌, ◌+◌, ◌^◌, IfOk, IfSome, Some};
ghost use Rattle.std.specs.Option.{option_map};
ghost use Rattle.gdb_packets.specs.Writing.{packet_text};
ghost use Rattle.gdb_replies.specs.Replies.{payload_of};
ghost use Rattle.gdb_talk.specs.Told.{hart_of_thread};
ghost use Rattle.gdb_session.specs.Answers.{Replied, command_text, fixed_text, is_goto, is_hit, is_hits, is_setting, name_answer, note_text_of, stands_packets, stands_text};
ghost use Rattle.gdb_runs.specs.Sessions.{IsReady, OfRun};

use gdb_answers::{
    answer_checksum, answer_harts, answer_memory, answer_note, answer_plan, answer_register,
    answer_registers, answer_threads, answer_where, file_reply,
};
use gdb_events::{
    answer_buffer, answer_event, answer_hit, answer_output, answer_reservations, answer_stop,
};
use gdb_packets::{Command, IMAGE_NAME, Request};
use gdb_replies::{Reason, Reply, Window, command_help, reply_text, target_description};
use gdb_runs::{Debugged, Standing};
use gdb_talk::{Look, done_if, hart_of_thread};
use pages::OutOfMemory;
use std::alloc::Global;
use std::sync::Wait;
use std::thread::Threads;

/// Answers a request that changes nothing. It may wait.
pub(crate) fn reply_to<R: Threads + Wait + Sync>(
    rt: &R,
    alloc: Global,
    run: &mut Debugged,
    standing: Standing,
    request: Request,
) -> Result<Vec<u8>, OutOfMemory>
    requires ready { IsReady run.old standing }
    ensures stays { run.new ≡ run.old }
    ensures replies { OfRun run.old (λ r.
        IfOk result (λ text. Replied r standing request text.items)) }
{
    match fixed_reply(run.harts, run.image(), standing, request) {
        Some(reply) => reply_text(alloc, &reply),
        None => reply_at(rt, alloc, run, standing, request),
    }
}

/// Answers a request that is about a moment of the run.
fn reply_at<R: Threads + Wait + Sync>(
    rt: &R,
    alloc: Global,
    run: &mut Debugged,
    standing: Standing,
    request: Request,
) -> Result<Vec<u8>, OutOfMemory>
    requires ready { IsReady run.old standing }
    ensures stays { run.new ≡ run.old }
    ensures replies { OfRun run.old (λ r.
        IfOk result (λ text. Replied r standing request text.items)) }
{
    match request {
        Request::WhyStopped => say_where(rt, alloc, run, standing),
        Request::Note(thread) => say_note(rt, alloc, run, standing, thread),
        Request::ThreadList(offset, count) => {
            let all = Look {
                point: standing.point,
                hart: run.harts,
                workers: run.workers,
            };
            answer_threads(rt, alloc, &mut run.timeline, all, offset, count)
        }
        Request::Command(command) => {
            if is_setting(command) {
                // It changes the session, and isn't asked here.
                return Err(OutOfMemory);
            }
            say_command(rt, alloc, run, standing, command)
        }
        Request::IsAlive(thread) => {
            let hart = hart_of_thread(run.harts, thread);
            reply_text(alloc, &done_if(hart.is_some()))
        }
        _ => read_at(rt, alloc, run, standing, request),
    }
}

/// Answers a request to read registers or memory where the run stands.
fn read_at<R: Threads + Wait + Sync>(
    rt: &R,
    alloc: Global,
    run: &mut Debugged,
    standing: Standing,
    request: Request,
) -> Result<Vec<u8>, OutOfMemory>
    requires ready { IsReady run.old standing }
    ensures stays { run.new ≡ run.old }
    ensures replies { OfRun run.old (λ r.
        IfOk result (λ text. Replied r standing request text.items)) }
{
    let look = look_of(standing, run.workers);
    let timeline = &mut run.timeline;
    match request {
        Request::ReadRegisters => answer_registers(rt, alloc, timeline, look),
        Request::ReadRegister(number) => answer_register(rt, alloc, timeline, look, number),
        Request::ReadMemory(address, count) => {
            answer_memory(rt, alloc, timeline, look, address, count)
        }
        Request::Checksum(address, count) => {
            answer_checksum(rt, alloc, timeline, look, address, count)
        }
        // No other request reads them.
        _ => Err(OutOfMemory),
    }
}

/// What is looked at where the run stands.
fn look_of(standing: Standing, workers: u32) -> Look
    ensures { result ≡ record {
      point = standing.point;
      hart = standing.general;
      workers = workers;
    } }
{
    Look {
        point: standing.point,
        hart: standing.general,
        workers,
    }
}

/// The reply to a request that isn't about a moment of the run; none for another one.
fn fixed_reply<'a>(
    harts: u32,
    image: Option<&'a [u8]>,
    standing: Standing,
    request: Request,
) -> Option<Reply<'a>>
    requires general { standing.general + 1 < 2 ^ 32 }
    ensures { IfSome result (λ reply.
        fixed_text harts (option_map (λ bytes. bytes.now) image.entry) standing request
        ≡ Some (payload_of reply)) }
{
    let reply = match request {
        Request::Features => Reply::Features(image.is_some()),
        Request::Description(offset, count) => Reply::Part(Window {
            text: target_description(),
            offset,
            count,
        }),
        Request::FirstThreads => Reply::Threads(harts),
        Request::MoreThreads => Reply::NoMoreThreads,
        Request::PresentThread => Reply::Thread(standing.general + 1),
        Request::Attached => Reply::Attached,
        Request::Change => Reply::PastStands,
        Request::Actions => Reply::Actions,
        Request::Detach => Reply::Done,
        Request::Unknown => Reply::Unknown,
        Request::ImageName(offset, count) => name_reply(image, offset, count),
        Request::File(request) => Reply::File(file_reply(image, request)),
        _ => return None,
    };
    Some(reply)
}

/// The reply to a request for the image's name.
fn name_reply<'a>(image: Option<&'a [u8]>, offset: u64, count: u64) -> Reply<'a>
    ensures { payload_of result ≡ name_answer (option_map (λ bytes. bytes.now) image.entry) offset
        count }
{
    match image {
        Some(_) => Reply::Part(Window {
            text: IMAGE_NAME,
            offset,
            count,
        }),
        None => Reply::Unknown,
    }
}

/// Whether a command says where the next run is to stop.
pub(crate) fn is_goto(command: Command) -> bool
    ensures { result ≡ is_goto command }
{
    match command {
        Command::GotoRound(_) | Command::GotoPlace(..) | Command::GotoEnd => true,
        _ => false,
    }
}

/// Whether a command says if stops at watchpoints tell the access.
pub(crate) fn is_hits(command: Command) -> bool
    ensures { result ≡ is_hits command }
{
    matches!(command, Command::HitsOn | Command::HitsOff)
}

/// Whether a command changes the session.
fn is_setting(command: Command) -> bool
    ensures { result ≡ is_setting command }
{
    is_goto(command) || is_hits(command)
}

/// Answers a command of the user's that changes nothing.
fn say_command<R: Threads + Wait + Sync>(
    rt: &R,
    alloc: Global,
    run: &mut Debugged,
    standing: Standing,
    command: Command,
) -> Result<Vec<u8>, OutOfMemory>
    requires ready { IsReady run.old standing }
    ensures stays { run.new ≡ run.old }
    ensures text { OfRun run.old (λ r.
        IfOk result (λ text. text.items ≡ packet_text (command_text r standing command))) }
{
    let point = standing.point;
    let rounds = point.moment.rounds;
    let workers = run.workers;
    match command {
        Command::Where => answer_where(rt, alloc, &mut run.timeline, point, workers),
        Command::Harts => {
            let all = Look {
                point,
                hart: run.harts,
                workers,
            };
            answer_harts(rt, alloc, &mut run.timeline, all)
        }
        Command::Buffer => {
            let look = look_of(standing, workers);
            answer_buffer(rt, alloc, &mut run.timeline, look)
        }
        Command::Event => answer_event(rt, alloc, &mut run.timeline, point, workers),
        Command::Reservations => answer_reservations(
            rt,
            alloc,
            &mut run.timeline,
            &mut run.start,
            point,
            run.harts,
            workers,
        ),
        Command::Plan => answer_plan(alloc, run.start.plan(), rounds + 1),
        Command::Output => answer_output(rt, alloc, &mut run.start, rounds, workers),
        Command::Help => reply_text(alloc, &Reply::Words(command_help())),
        _ => reply_text(alloc, &Reply::Words(b"no such command: monitor help\n")),
    }
}

/// Says where the run stands, and why. It may wait.
pub(crate) fn say_where<R: Threads + Wait + Sync>(
    rt: &R,
    alloc: Global,
    run: &mut Debugged,
    standing: Standing,
) -> Result<Vec<u8>, OutOfMemory>
    requires ready { IsReady run.old standing }
    ensures stays { run.new ≡ run.old }
    ensures text { OfRun run.old (λ r.
        IfOk result (λ text. text.items ≡ packet_text (stands_text r standing))) }
{
    let look = Look {
        hart: standing.told,
        ..look_of(standing, run.workers)
    };
    answer_stop(rt, alloc, &mut run.timeline, look, standing.reason)
}

/// Says where a run that was resumed stands, and why: at a watchpoint behind the access, if that was asked for. It may wait.
pub(crate) fn say_stop<R: Threads + Wait + Sync>(
    rt: &R,
    alloc: Global,
    run: &mut Debugged,
    standing: Standing,
) -> Result<Vec<u8>, OutOfMemory>
    requires ready { IsReady run.old standing }
    ensures stays { run.new ≡ run.old }
    ensures text { OfRun run.old (λ r.
        IfOk result (λ text. text.items ≡ stands_packets r standing)) }
{
    if !(standing.hits && is_hit(standing.reason)) {
        return say_where(rt, alloc, run, standing);
    }
    let look = Look {
        hart: standing.told,
        ..look_of(standing, run.workers)
    };
    answer_hit(rt, alloc, &mut run.timeline, look, standing.reason)
}

/// Whether a watchpoint is why the run stands.
fn is_hit(reason: Reason) -> bool
    ensures { result ≡ is_hit reason }
{
    match reason {
        Reason::Watch(_) | Reason::ReadWatch(_) | Reason::AccessWatch(_) => true,
        _ => false,
    }
}

/// Says where a thread's hart is.
fn say_note<R: Threads + Wait + Sync>(
    rt: &R,
    alloc: Global,
    run: &mut Debugged,
    standing: Standing,
    thread: u64,
) -> Result<Vec<u8>, OutOfMemory>
    requires ready { IsReady run.old standing }
    ensures stays { run.new ≡ run.old }
    ensures text { OfRun run.old (λ r. IfOk result (λ text. text.items
        ≡ packet_text (note_text_of r standing (hart_of_thread run.old.harts thread)))) }
{
    match hart_of_thread(run.harts, thread) {
        Some(hart) => {
            let look = Look {
                hart,
                ..look_of(standing, run.workers)
            };
            answer_note(rt, alloc, &mut run.timeline, look)
        }
        None => reply_text(alloc, &Reply::Missing),
    }
}
