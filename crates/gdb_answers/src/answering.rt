ghost use Rattle.std.specs.Prelude.{◌≡◌, ◌≤◌, ◌+◌, ◌<◌, ◌^◌, IfOk};
ghost use Rattle.machine.specs.Machine.{Running};
ghost use Rattle.machine.specs.Untraced.{IsUntraced};
ghost use Rattle.gdb_packets.specs.Writing.{packet_text};
ghost use Rattle.gdb_answers.specs.Answers.{bytes_answer, memory_answer, note_answer, note_at, register_answer, registers_answer};
ghost use Rattle.timelines.specs.Shown.{seen};
ghost use Rattle.round_schedule.specs.Bounds.{AreWorkers};

use crate::files::MOST_READ;
use crate::noting::note_at;
use gdb_replies::{Reply, reply_text};
use gdb_talk::{Look, register_of, registers_of};
use pages::OutOfMemory;
use std::alloc::Global;
use std::sync::Wait;
use std::thread::Threads;
use timelines::Timeline;

/// Answers with all registers of a hart at a point. It may wait.
pub fn answer_registers<R: Threads + Wait + Sync>(
    rt: &R,
    alloc: Global,
    timeline: &mut Timeline,
    look: Look,
) -> Result<Vec<u8>, OutOfMemory>
    requires within { look.point.moment.rounds ≤ timeline.old.rounds }
    requires workers { AreWorkers look.workers }
    ensures stays { timeline.new ≡ timeline.old }
    ensures text { (m : Running) → IsUntraced m timeline.old.start → IfOk result (λ text. text.items
        ≡ packet_text (registers_answer look.point.moment (seen m look.point look.hart))) }
{
    let Some(sight) = timeline.shown_at(rt, &look.point, look.hart, look.workers)? else {
        return reply_text(alloc, &Reply::Missing);
    };
    let registers = registers_of(&sight.hart(), look.point.moment);
    drop(sight);
    reply_text(alloc, &Reply::Registers(&registers))
}

/// Answers with one register of a hart at a point, by its number. It may wait.
pub fn answer_register<R: Threads + Wait + Sync>(
    rt: &R,
    alloc: Global,
    timeline: &mut Timeline,
    look: Look,
    number: u64,
) -> Result<Vec<u8>, OutOfMemory>
    requires within { look.point.moment.rounds ≤ timeline.old.rounds }
    requires workers { AreWorkers look.workers }
    ensures stays { timeline.new ≡ timeline.old }
    ensures text { (m : Running) → IsUntraced m timeline.old.start → IfOk result (λ text. text.items
        ≡ packet_text (register_answer number look.point.moment (seen m look.point look.hart))) }
{
    let Some(sight) = timeline.shown_at(rt, &look.point, look.hart, look.workers)? else {
        return reply_text(alloc, &Reply::Missing);
    };
    let registers = registers_of(&sight.hart(), look.point.moment);
    drop(sight);
    match register_of(&registers, number) {
        Some(value) => reply_text(alloc, &Reply::Register(value)),
        None => reply_text(alloc, &Reply::Missing),
    }
}

/// Answers with at most `count` bytes of memory from an address on, and 32,000 at most, as a hart sees them at a point. It may wait.
pub fn answer_memory<R: Threads + Wait + Sync>(
    rt: &R,
    alloc: Global,
    timeline: &mut Timeline,
    look: Look,
    address: u64,
    count: u64,
) -> Result<Vec<u8>, OutOfMemory>
    requires within { look.point.moment.rounds ≤ timeline.old.rounds }
    requires workers { AreWorkers look.workers }
    ensures stays { timeline.new ≡ timeline.old }
    ensures text { (m : Running) → IsUntraced m timeline.old.start → IfOk result (λ text. text.items
        ≡ packet_text (memory_answer address count (seen m look.point look.hart))) }
{
    let Some(sight) = timeline.shown_at(rt, &look.point, look.hart, look.workers)? else {
        return reply_text(alloc, &Reply::Missing);
    };
    let seen = sight.bytes(alloc, address, count.min(MOST_READ));
    drop(sight);
    let bytes = seen?;
    answer_bytes(alloc, bytes.as_slice())
}

/// Answers with what is said of a hart at a point. It may wait.
pub fn answer_note<R: Threads + Wait + Sync>(
    rt: &R,
    alloc: Global,
    timeline: &mut Timeline,
    look: Look,
) -> Result<Vec<u8>, OutOfMemory>
    requires within { look.point.moment.rounds ≤ timeline.old.rounds }
    requires workers { AreWorkers look.workers }
    requires rounds { look.point.moment.rounds + 1 < 2 ^ 32 }
    ensures stays { timeline.new ≡ timeline.old }
    ensures text { (m : Running) → IsUntraced m timeline.old.start → IfOk result (λ text. text.items
        ≡ packet_text (note_answer (note_at m look.point look.hart))) }
{
    match note_at(rt, alloc, timeline, look)? {
        Some(note) => reply_text(alloc, &Reply::Note(note)),
        None => reply_text(alloc, &Reply::Missing),
    }
}

/// Answers with some bytes, or that there are none.
fn answer_bytes(alloc: Global, bytes: &[u8]) -> Result<Vec<u8>, OutOfMemory>
    ensures { IfOk result (λ text. text.items ≡ packet_text (bytes_answer bytes.now)) }
{
    match bytes {
        [] => reply_text(alloc, &Reply::Missing),
        [_, ..] => reply_text(alloc, &Reply::Memory(bytes)),
    }
}
