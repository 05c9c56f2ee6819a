//! The stores of a hart that are not committed.

ghost use Rattle.std.specs.Prelude.{◌≡◌, ◌≤◌, ◌++◌, IfOk, OnOk};
ghost use Rattle.hex.specs.Hex.{encode_lower};
ghost use Rattle.machine.specs.Machine.{Running};
ghost use Rattle.machine.specs.Untraced.{IsUntraced};
ghost use Rattle.gdb_packets.specs.Writing.{packet_text};
ghost use Rattle.timelines.specs.Shown.{seen};
ghost use Rattle.gdb_events.specs.Buffers.{buffer_answer, buffer_text, line_of, store_lines};
ghost use Rattle.round_schedule.specs.Bounds.{AreWorkers};

use crate::output::end_of;
use crate::saying::say_or;
use gdb_replies::{Reply, add_store_line, reply_text};
use gdb_talk::Look;
use pages::{OutOfMemory, Store};
use std::alloc::Global;
use std::sync::Wait;
use std::thread::Threads;
use timelines::Timeline;

/// What is said where there are none.
const NONE: &[u8] = b"no stores\n";

/// Answers with the stores of a hart that are not committed at a point of the run, and of many with the last lines. It may wait.
pub fn answer_buffer<R: Threads + Wait + Sync>(
    rt: &R,
    alloc: Global,
    timeline: &mut Timeline,
    look: Look,
) -> Result<Vec<u8>, OutOfMemory>
    requires within { look.point.moment.rounds ≤ timeline.old.rounds }
    requires workers { AreWorkers look.workers }
    ensures stays { timeline.new ≡ timeline.old }
    ensures text { (m : Running) → IsUntraced m timeline.old.start → IfOk result (λ text. text.items
        ≡ packet_text (buffer_answer m look.point look.hart (seen m look.point look.hart))) }
{
    let Some(sight) = timeline.shown_at(rt, &look.point, look.hart, look.workers)? else {
        return reply_text(alloc, &Reply::Missing);
    };
    drop(sight);
    let part = timeline.own_part_at(rt, &look.point, look.hart, look.workers)?;
    say_buffer(alloc, part.stores.as_slice())
}

/// Answers with these stores.
fn say_buffer(alloc: Global, stores: &[Store]) -> Result<Vec<u8>, OutOfMemory>
    ensures { IfOk result (λ text. text.items
        ≡ packet_text (encode_lower (buffer_text stores.now))) }
{
    let text = store_lines(alloc, stores)?;
    say_or(alloc, end_of(text.as_slice()), NONE)
}

/// A line for each store.
fn store_lines(alloc: Global, stores: &[Store]) -> Result<Vec<u8>, OutOfMemory>
    ensures { IfOk result (λ text. text.items ≡ store_lines stores.now) }
{
    let mut text = Vec::new(alloc);
    for store in stores {
        add_line(&mut text, store)?;
    }
    Ok(text)
}

/// Adds the line of a store.
fn add_line(text: &mut Vec<u8>, store: &Store) -> Result<(), OutOfMemory>
    ensures { OnOk result (text.new.items ≡ text.old.items ++ line_of store.now) }
{
    let bytes = store.value.to_le_bytes();
    let count = store.width.bytes() as usize;
    add_store_line(text, store.address, &bytes[..count])
}
