//! Why the run stands.

ghost use Rattle.std.specs.Prelude.{◌≡◌, ◌≤◌, ◌+◌, ◌<◌, ◌^◌, IfOk};
ghost use Rattle.machine.specs.Machine.{Running};
ghost use Rattle.machine.specs.Untraced.{IsUntraced};
ghost use Rattle.gdb_packets.specs.Writing.{packet_text};
ghost use Rattle.gdb_events.specs.Stops.{stop_answer};
ghost use Rattle.timelines.specs.Shown.{seen};
ghost use Rattle.round_schedule.specs.Bounds.{AreWorkers};

use gdb_replies::{Reason, Reply, reply_text};
use gdb_talk::{Look, stop_reply_of};
use pages::OutOfMemory;
use std::alloc::Global;
use std::sync::Wait;
use std::thread::Threads;
use timelines::Timeline;

/// Answers that the run stands at a hart at a point, for a reason. It may wait.
pub fn answer_stop<R: Threads + Wait + Sync>(
    rt: &R,
    alloc: Global,
    timeline: &mut Timeline,
    look: Look,
    reason: Reason,
) -> Result<Vec<u8>, OutOfMemory>
    requires within { look.point.moment.rounds ≤ timeline.old.rounds }
    requires workers { AreWorkers look.workers }
    requires hart { look.hart + 1 < 2 ^ 32 }
    ensures stays { timeline.new ≡ timeline.old }
    ensures text { (m : Running) → IsUntraced m timeline.old.start → IfOk result (λ text. text.items
        ≡ packet_text (stop_answer reason look.hart (seen m look.point look.hart))) }
{
    let Some(sight) = timeline.shown_at(rt, &look.point, look.hart, look.workers)? else {
        return reply_text(alloc, &Reply::Missing);
    };
    let stop = stop_reply_of(reason, look.hart, &sight.hart());
    drop(sight);
    reply_text(alloc, &Reply::Stopped(stop))
}
