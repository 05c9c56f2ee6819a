//! Writes to a watched range that another hart's part of the same parallel phase wrote to as well.

ghost use Rattle.std.specs.Prelude.{◌≡◌, ◌==◌, ◌&&◌};
ghost use Rattle.std.specs.List.{list_any};
ghost use Rattle.watching.specs.Events.{is_rival, writes_in_part};

use crate::bytes::is_serial;
use crate::told::speaks_of;
use crate::watchpoint::{WatchKind, Watchpoint, Way};
use round_schedule::Event;

/// Whether an event writes to a watched range in its hart's part of the parallel phase, and its changes are told.
fn writes_in_part(watch: &Watchpoint, event: &Event) -> bool
    ensures { result ≡ writes_in_part watch.now event.now }
{
    watch.kind == WatchKind::Changes
        && !is_serial(event.phase)
        && event.access.stores()
        && speaks_of(&watch.range, &event.access)
}

/// Whether one of these events of a hart does. They are looked at from the end on: the nearest one is mostly there.
fn hart_writes_before(watch: &Watchpoint, hart: u8, earlier: &[Event]) -> bool
    ensures { result ≡ list_any (λ e. e.hart == hart && writes_in_part watch.now e) earlier.now }
{
    let mut left = earlier.len();
    while left > 0 {
        left -= 1;
        if earlier[left].hart == hart && writes_in_part(watch, &earlier[left]) {
            return true;
        }
    }
    false
}

/// Whether one of these events of a hart does.
fn hart_writes(watch: &Watchpoint, way: Way, hart: u8, others: &[Event]) -> bool
    ensures { result ≡ list_any (λ e. e.hart == hart && writes_in_part watch.now e) others.now }
{
    match way {
        Way::On => hart_writes_before(watch, hart, others),
        Way::Back => others
            .iter()
            .any(|event| event.hart == hart && writes_in_part(watch, event)),
    }
}

/// Whether an event is the nearest of its hart's part to write to a watched range, of which another hart's part is among these too.
pub(crate) fn is_rival(watch: &Watchpoint, way: Way, others: &[Event], event: &Event) -> bool
    ensures { result ≡ is_rival others.now event.now watch.now }
{
    writes_in_part(watch, event)
        && !hart_writes(watch, way, event.hart, others)
        && one_writes(watch, others)
}

/// Whether one of these events writes to a watched range in its hart's part of the parallel phase, and its changes are told.
fn one_writes(watch: &Watchpoint, others: &[Event]) -> bool
    ensures { result ≡ list_any (writes_in_part watch.now) others.now }
{
    others.iter().any(|other| writes_in_part(watch, other))
}
