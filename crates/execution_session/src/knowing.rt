//! What is known of a hart where the execution stands.

ghost use Rattle.std.specs.Prelude.{◌≡◌};
ghost use Rattle.execution_moments.specs.Looked.{looked_at};
ghost use Rattle.execution_session.specs.Sessions.{has_stopped, position_at};
ghost use Rattle.gdb_talk.specs.Told.{hart_of_thread};

use execution_moments::Past;
use gdb_talk::is_stopped;

/// Whether the hart has stopped, at a time; so has one that there isn't.
pub(crate) fn has_stopped(past: &Past, time: usize, hart: u8) -> bool
    ensures { result ≡ has_stopped (looked_at past.now) time hart }
{
    is_stopped(past.course.hart_at(time, hart))
}

/// The hart of a thread; none where there is no such hart.
pub(crate) fn hart_of_thread(past: &Past, thread: u64) -> Option<u8>
    ensures { result ≡ hart_of_thread past.now.harts thread }
{
    match gdb_talk::hart_of_thread(u32::from(past.harts), thread) {
        Some(hart) => Some(hart as u8),
        None => None,
    }
}

/// Where a hart's next memory operation stands in the order, at a time.
pub(crate) fn position_at(past: &Past, time: usize, hart: u8) -> usize
    ensures { result ≡ position_at (looked_at past.now) time hart }
{
    let events = past.execution.events();
    let view = past.course.view_at(events, &past.order, time, hart);
    view.position
}
