ghost use Rattle.std.specs.Prelude.{◌≡◌, ◌≤◌, ◌+◌, ◌<◌, ◌^◌, IfOk, IfSome};
ghost use Rattle.machine.specs.Machine.{Running};
ghost use Rattle.machine.specs.Untraced.{IsUntraced};
ghost use Rattle.gdb_answers.specs.Answers.{note_at};
ghost use Rattle.round_schedule.specs.Bounds.{AreWorkers};

use crate::covering::bytes_covered;
use gdb_replies::ThreadNote;
use gdb_talk::{Look, note_of};
use pages::OutOfMemory;
use std::alloc::Global;
use std::sync::Wait;
use std::thread::Threads;
use timelines::Timeline;

/// What is said of a hart at a point; nothing where there is no such hart. It may wait.
pub(crate) fn note_at<R: Threads + Wait + Sync>(
    rt: &R,
    alloc: Global,
    timeline: &mut Timeline,
    look: Look,
) -> Result<Option<ThreadNote>, OutOfMemory>
    requires within { look.point.moment.rounds ≤ timeline.old.rounds }
    requires workers { AreWorkers look.workers }
    requires rounds { look.point.moment.rounds + 1 < 2 ^ 32 }
    ensures stays { timeline.new ≡ timeline.old }
    ensures note { (m : Running) → IsUntraced m timeline.old.start →
        IfOk result (λ n. n ≡ note_at m look.point look.hart) }
    ensures hart { IfOk result (λ n. IfSome n (λ x. x.hart ≡ look.hart)) }
{
    let Some(sight) = timeline.shown_at(rt, &look.point, look.hart, look.workers)? else {
        return Ok(None);
    };
    let note = note_of(look.hart, &sight.hart(), look.point.moment);
    drop(sight);
    let part = timeline.own_part_at(rt, &look.point, look.hart, look.workers)?;
    let uncommitted = bytes_covered(alloc, part.stores.as_slice())?;
    Ok(Some(ThreadNote {
        waits: part.waits,
        uncommitted,
        ..note
    }))
}
