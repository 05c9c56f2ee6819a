//! A stop at a watchpoint, with the access that it tells of.

ghost use Rattle.std.specs.Prelude.{◌≡◌, ◌≤◌, ◌<◌, ◌+◌, ◌^◌, ◌++◌, IfOk};
ghost use Rattle.machine.specs.Machine.{Running};
ghost use Rattle.machine.specs.Untraced.{IsUntraced};
ghost use Rattle.gdb_packets.specs.Writing.{packet_text};
ghost use Rattle.timelines.specs.Shown.{seen};
ghost use Rattle.gdb_events.specs.Stops.{stop_answer};
ghost use Rattle.gdb_events.specs.Events.{event_packet};
ghost use Rattle.round_schedule.specs.Bounds.{AreWorkers};

use crate::event::event_packet;
use crate::stopping::answer_stop;
use gdb_replies::Reason;
use gdb_talk::Look;
use pages::OutOfMemory;
use std::alloc::Global;
use std::sync::Wait;
use std::thread::Threads;
use timelines::Timeline;

/// Tells on the debugger's terminal the access of the step that is next at a point of the run, or that was last where the point is behind
/// a move; and then answers that the run stands at a hart at the point, for a reason. It may wait.
pub fn answer_hit<R: Threads + Wait + Sync>(
    rt: &R,
    alloc: Global,
    timeline: &mut Timeline,
    look: Look,
    reason: Reason,
) -> Result<Vec<u8>, OutOfMemory>
    requires within { look.point.moment.rounds ≤ timeline.old.rounds }
    requires workers { AreWorkers look.workers }
    requires rounds { look.point.moment.rounds + 1 < 2 ^ 32 }
    requires run { (m : Running) × IsUntraced m timeline.old.start }
    requires hart { look.hart + 1 < 2 ^ 32 }
    ensures stays { timeline.new ≡ timeline.old }
    ensures text { (m : Running) → IsUntraced m timeline.old.start → IfOk result (λ text. text.items
        ≡ event_packet timeline.old.rounds m look.point
        (seen m look.point look.point.moment.place.hart)
        ++ packet_text (stop_answer reason look.hart (seen m look.point look.hart))) }
{
    let event = event_packet(rt, alloc, timeline, look.point, look.workers)?;
    let stop = answer_stop(rt, alloc, timeline, look, reason)?;
    joined(event, stop.as_slice())
}

/// A text behind another one.
fn joined(first: Vec<u8>, second: &[u8]) -> Result<Vec<u8>, OutOfMemory>
    ensures { IfOk result (λ text. text.items ≡ first.items ++ second.now) }
{
    let mut text = first;
    text.extend_from_slice(second)?;
    Ok(text)
}
