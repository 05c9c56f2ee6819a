ghost use Rattle.std.specs.Prelude.{◌≡◌, ◌≤◌, IfOk};
ghost use Rattle.machine.specs.Machine.{Running};
ghost use Rattle.machine.specs.Untraced.{IsUntraced};
ghost use Rattle.gdb_packets.specs.Writing.{packet_text};
ghost use Rattle.gdb_answers.specs.Answers.{checksum_answer, sum_answer};
ghost use Rattle.timelines.specs.Shown.{seen};
ghost use Rattle.round_schedule.specs.Bounds.{AreWorkers};

use checksums::checksum_of;
use gdb_replies::{Reply, reply_text};
use gdb_talk::Look;
use pages::OutOfMemory;
use std::alloc::Global;
use std::sync::Wait;
use std::thread::Threads;
use timelines::Timeline;

/// Answers with the checksum of so many bytes of memory from an address on, as a hart sees them at a point. It may wait.
pub fn answer_checksum<R: Threads + Wait + Sync>(
    rt: &R,
    alloc: Global,
    timeline: &mut Timeline,
    look: Look,
    address: u64,
    count: u64,
) -> Result<Vec<u8>, OutOfMemory>
    requires within { look.point.moment.rounds ≤ timeline.old.rounds }
    requires workers { AreWorkers look.workers }
    ensures stays { timeline.new ≡ timeline.old }
    ensures text { (m : Running) → IsUntraced m timeline.old.start → IfOk result (λ text. text.items
        ≡ packet_text (checksum_answer address count (seen m look.point look.hart))) }
{
    let Some(sight) = timeline.shown_at(rt, &look.point, look.hart, look.workers)? else {
        return reply_text(alloc, &Reply::Missing);
    };
    let seen = sight.bytes(alloc, address, count);
    drop(sight);
    let bytes = seen?;
    answer_sum(alloc, bytes.as_slice(), count)
}

/// Answers with the checksum of some bytes, or that there are fewer than asked for.
fn answer_sum(alloc: Global, bytes: &[u8], count: u64) -> Result<Vec<u8>, OutOfMemory>
    ensures { IfOk result (λ text. text.items ≡ packet_text (sum_answer count bytes.now)) }
{
    if bytes.len() as u64 == count {
        reply_text(alloc, &Reply::Checksum(checksum_of(bytes)))
    } else {
        reply_text(alloc, &Reply::Missing)
    }
}
