ghost use Rattle.std.specs.Prelude.{◌≡◌, ℕ, ◌<◌, ◌≤◌, length, map, All};
ghost use Rattle.round_schedule.specs.Held.{unless};
ghost use Rattle.round_schedule.specs.Reservations.{entry};
ghost use Rattle.commit_phase.specs.Commit.{CommitsBuffers, IsWritable, all_buffered, covered_from};

use crate::buffer::break_others;
use crate::buffered::Buffered;
use crate::shard::write_all;
use pages::Pages;
use round_schedule::{MOST_HARTS, Reservations};

/// Commits the buffers of all harts in hart order: each byte of memory that one of them has is that of the last that has it,
/// and the reservations of which the buffer of another hart has a byte are gone. Takes no memory.
pub fn commit<B: Buffered>(pages: &mut Pages, reservations: &mut Reservations, rounds: &[B])
    requires few { length rounds.now ≤ MOST_HARTS }
    requires writable { All (IsWritable pages.old) (map B.bytes rounds.now) }
    ensures { CommitsBuffers (map B.bytes rounds.now) pages.old pages.new reservations.old
        reservations.new }
{
    let unready = pages.unready();
    write_all(pages.parts(), 0, rounds);
    pages.keep_unready(unready);
    break_all(reservations, rounds);
}

/// Breaks the reservations of which the buffer of another hart has a byte.
pub(crate) fn break_all<B: Buffered>(reservations: &mut Reservations, rounds: &[B])
    requires few { length rounds.now ≤ MOST_HARTS }
    ensures size { length reservations.new ≡ length reservations.old }
    ensures reservations { (h : ℕ) → h < length reservations.old →
        entry reservations.new h ≡ unless (covered_from 0 h (map B.bytes rounds.now))
        (entry reservations.old h) }
{
    let mut hart = 0;
    for round in rounds {
        break_others(reservations, hart, round.buffer());
        hart += 1;
    }
}
