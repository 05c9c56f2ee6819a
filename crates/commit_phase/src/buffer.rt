ghost use Rattle.std.specs.Prelude.{◌≡◌, ℕ, ◌<◌, ◌==◌, if◌then◌else◌, length};
ghost use Rattle.pages.specs.Memory.{covered};
ghost use Rattle.round_schedule.specs.Held.{unless};
ghost use Rattle.round_schedule.specs.Reservations.{entry};
ghost use Rattle.store_buffer.specs.Covered.{stores_of};

use round_schedule::Reservations;
use store_buffer::StoreBuffer;

/// Breaks the reservations of other harts of which the buffer has a byte, if there are some.
pub(crate) fn break_others(reservations: &mut Reservations, hart: u32, buffer: &StoreBuffer)
    ensures size { length reservations.new ≡ length reservations.old }
    ensures reservations { (h : ℕ) → h < length reservations.old →
        entry reservations.new h ≡ (if hart == h then entry
        reservations.old h else unless (covered (stores_of buffer.now))
        (entry reservations.old h)) }
{
    // A hart that waits for a lock has often stored nothing.
    if buffer.is_empty() || reservations.is_only_of(hart) {
        return;
    }
    for byte in buffer.stores() {
        reservations.break_by(hart, byte.address, byte.width);
    }
}
