//! Which watchpoints tell of an event's access.

ghost use Rattle.std.specs.Prelude.{◌≡◌, ◌+◌, ◌<◌, ◌≤◌, ◌^◌, ◌&&◌};
ghost use Rattle.pages.specs.Memory.{in_range};
ghost use Rattle.round_schedule.specs.Held.{any_byte};
ghost use Rattle.watching.specs.Watches.{speaks_of};
ghost use Rattle.watching.specs.Events.{changes, tells};

use crate::bytes::changes;
use crate::saved::Saved;
use crate::watchpoint::{WatchKind, Watchpoint};
use pages::Range;
use round_schedule::{Access, Event};

/// Whether an access speaks of a byte of a range.
pub(crate) fn speaks_of(range: &Range, access: &Access) -> bool
    ensures { result ≡ speaks_of range.now access.now }
{
    overlaps(range, u128::from(access.address()), access.byte_count())
}

/// Whether one of so many addresses lies in a range.
fn overlaps(range: &Range, address: u128, left: u64) -> bool
    requires within { address + left < 2 ^ 65 }
    requires few { left ≤ 8 }
    ensures { result ≡ any_byte (in_range range.now.start range.now.len) address left }
{
    left > 0 && (is_in_range(range, address) || overlaps(range, address + 1, left - 1))
}

/// Whether an event after these of its round, which begins with these bytes, leaves its hart with another byte in a range at one
/// of so many addresses.
fn changes_one(
    range: &Range,
    saved: &[Saved],
    earlier: &[Event],
    event: &Event,
    address: u128,
    left: u64,
) -> bool
    requires within { address + left < 2 ^ 65 }
    requires few { left ≤ 8 }
    ensures { result ≡ any_byte (λ x. in_range range.now.start range.now.len x &&
        changes saved.now earlier.now event.now x) address left }
{
    left > 0
        && (changes_at(range, saved, earlier, event, address)
            || changes_one(range, saved, earlier, event, address + 1, left - 1))
}

/// The same of one address.
fn changes_at(
    range: &Range,
    saved: &[Saved],
    earlier: &[Event],
    event: &Event,
    address: u128,
) -> bool
    ensures { result ≡ (in_range range.now.start range.now.len address &&
        changes saved.now earlier.now event.now address) }
{
    is_in_range(range, address) && changes(saved, earlier, event, address)
}

/// Whether an address lies in a range.
fn is_in_range(range: &Range, address: u128) -> bool
    ensures { result ≡ in_range range.now.start range.now.len address }
{
    u128::from(range.start) <= address && address < u128::from(range.start) + u128::from(range.len)
}

/// Whether a watchpoint tells of an event, after these of its round, which begins with these bytes.
pub(crate) fn tells(watch: &Watchpoint, saved: &[Saved], earlier: &[Event], event: &Event) -> bool
    ensures { result ≡ tells saved.now earlier.now event.now watch.now }
{
    let access = &event.access;
    match watch.kind {
        WatchKind::Changes => changes_one(
            &watch.range,
            saved,
            earlier,
            event,
            u128::from(access.address()),
            access.byte_count(),
        ),
        WatchKind::Reads => access.loads() && speaks_of(&watch.range, access),
        WatchKind::Accesses => {
            (access.loads() || access.stores()) && speaks_of(&watch.range, access)
        }
    }
}
