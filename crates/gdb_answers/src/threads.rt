ghost use Rattle.std.specs.Prelude.{◌≡◌, ◌≤◌, ◌+◌, ◌<◌, ◌^◌, ◌++◌, IfOk, OnOk};
ghost use Rattle.machine.specs.Machine.{Running};
ghost use Rattle.machine.specs.Untraced.{IsUntraced};
ghost use Rattle.gdb_packets.specs.Writing.{packet_text};
ghost use Rattle.gdb_answers.specs.Answers.{note_at, thread_entry, thread_entries, thread_list_answer};
ghost use Rattle.gdb_replies.specs.Replies.{thread_list_begin, thread_list_end};
ghost use Rattle.round_schedule.specs.Bounds.{AreWorkers};

use crate::noting::note_at;
use gdb_replies::{Reply, Window, add_thread, begin_thread_list, end_thread_list, reply_text};
use gdb_talk::Look;
use pages::OutOfMemory;
use std::alloc::Global;
use std::sync::Wait;
use std::thread::Threads;
use timelines::Timeline;

/// Answers with a part of the list of so many threads at a point. It may wait.
pub fn answer_threads<R: Threads + Wait + Sync>(
    rt: &R,
    alloc: Global,
    timeline: &mut Timeline,
    look: Look,
    offset: u64,
    count: u64,
) -> Result<Vec<u8>, OutOfMemory>
    requires within { look.point.moment.rounds ≤ timeline.old.rounds }
    requires workers { AreWorkers look.workers }
    requires rounds { look.point.moment.rounds + 1 < 2 ^ 32 }
    ensures stays { timeline.new ≡ timeline.old }
    ensures text { (m : Running) → IsUntraced m timeline.old.start → IfOk result (λ text. text.items
        ≡ packet_text (thread_list_answer m look.point look.hart offset count)) }
{
    let text = thread_list(rt, alloc, timeline, look)?;
    let part = Window {
        text: text.as_slice(),
        offset,
        count,
    };
    reply_text(alloc, &Reply::Part(part))
}

/// The list of the threads of the harts before one.
#[tactic(auto, using(crate::proofs::Texts::assoc), unfolding(crate::specs::Answers::thread_entries))]
fn thread_list<R: Threads + Wait + Sync>(
    rt: &R,
    alloc: Global,
    timeline: &mut Timeline,
    look: Look,
) -> Result<Vec<u8>, OutOfMemory>
    requires within { look.point.moment.rounds ≤ timeline.old.rounds }
    requires workers { AreWorkers look.workers }
    requires rounds { look.point.moment.rounds + 1 < 2 ^ 32 }
    ensures stays { timeline.new ≡ timeline.old }
    ensures list { (m : Running) → IsUntraced m timeline.old.start →
        IfOk result (λ text. text.items ≡
        thread_list_begin ++ thread_entries m look.point look.hart ++ thread_list_end) }
{
    let mut text = begin_thread_list(alloc)?;
    for hart in 0..look.hart {
        add_entry(rt, alloc, timeline, Look { hart, ..look }, &mut text)?;
    }
    end_thread_list(&mut text)?;
    Ok(text)
}

/// Adds a hart's thread, where there is the hart.
fn add_entry<R: Threads + Wait + Sync>(
    rt: &R,
    alloc: Global,
    timeline: &mut Timeline,
    look: Look,
    text: &mut Vec<u8>,
) -> Result<(), OutOfMemory>
    requires within { look.point.moment.rounds ≤ timeline.old.rounds }
    requires workers { AreWorkers look.workers }
    requires rounds { look.point.moment.rounds + 1 < 2 ^ 32 }
    requires hart { look.hart + 1 < 2 ^ 32 }
    ensures stays { timeline.new ≡ timeline.old }
    ensures entry { (m : Running) → IsUntraced m timeline.old.start → OnOk result (text.new.items ≡
        text.old.items ++ thread_entry (note_at m look.point look.hart)) }
{
    if let Some(note) = note_at(rt, alloc, timeline, look)? {
        add_thread(text, &note)?;
    }
    Ok(())
}
