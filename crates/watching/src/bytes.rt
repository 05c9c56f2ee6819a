//! Bytes as the hart of an event sees them.

ghost use Rattle.std.specs.Prelude.{◌≡◌, ◌&&◌};
ghost use Rattle.pages.specs.Memory.{byte_of};
ghost use Rattle.round_schedule.specs.Accesses.{byte_written, number_or_zero, writes, written_of};
ghost use Rattle.round_schedule.specs.Events.{is_serial};
ghost use Rattle.watching.specs.Events.{changes, changes_from, seen_by, sees};

use crate::saved::{Saved, saved_byte};
use round_schedule::{Access, Event, Phase};

/// Whether an access writes the byte at an address.
fn writes(access: &Access, address: u128) -> bool
    ensures { result ≡ writes access.now address }
{
    let start = u128::from(access.address());
    access.stores() && start <= address && address < start + u128::from(access.byte_count())
}

/// Whether a phase is the serial one.
pub(crate) fn is_serial(phase: Phase) -> bool
    ensures { result ≡ is_serial phase }
{
    match phase {
        Phase::Parallel => false,
        Phase::Serial => true,
    }
}

/// Whether the hart of an event sees what an earlier one of the round wrote: in its serial turn all of it, and before it its own.
fn sees(event: &Event, earlier: &Event) -> bool
    ensures { result ≡ sees event.now earlier.now }
{
    is_serial(event.phase) || earlier.hart == event.hart
}

/// Whether it sees what that one wrote at an address.
fn shows(event: &Event, earlier: &Event, address: u128) -> bool
    ensures { result ≡ (sees event.now earlier.now && writes earlier.now.access address) }
{
    sees(event, earlier) && writes(&earlier.access, address)
}

/// The byte at an address as the hart of an event sees it, before that event and after these of its round, which begins with `byte` there.
fn seen_by(event: &Event, earlier: &[Event], byte: u8, address: u128) -> u8
    ensures { result ≡ seen_by event.now address byte earlier.now }
{
    let mut left = earlier.len();
    while left > 0 {
        left -= 1;
        let other = &earlier[left];
        if shows(event, other, address) {
            return byte_written(&other.access, address);
        }
    }
    byte
}

/// Whether an event leaves its hart with another byte at an address than it saw there.
pub(crate) fn changes(saved: &[Saved], earlier: &[Event], event: &Event, address: u128) -> bool
    ensures { result ≡ changes saved.now earlier.now event.now address }
{
    match saved_byte(saved, address) {
        None => false,
        Some(byte) => changes_from(byte, earlier, event, address),
    }
}

/// The same where the round begins with `byte` there.
fn changes_from(byte: u8, earlier: &[Event], event: &Event, address: u128) -> bool
    ensures { result ≡ changes_from byte earlier.now event.now address }
{
    writes(&event.access, address)
        && seen_by(event, earlier, byte, address) != byte_written(&event.access, address)
}

/// The number that an access wrote; 0 where it wrote none.
fn number_written(access: &Access) -> u64
    ensures { result ≡ number_or_zero (written_of access.now) }
{
    match *access {
        Access::Store { written, .. } | Access::Atomic { written, .. } => written,
        Access::StoreConditional { written, .. } => written.unwrap_or(0),
        _ => 0,
    }
}

/// Byte `k` of a number, the least significant first.
fn byte_of(number: u64, k: u128) -> u8
    ensures { result ≡ byte_of number k }
{
    if k < 8 {
        let k = k as u64;
        ((number >> (8 * k)) % 256) as u8
    } else {
        0
    }
}

/// The byte that an access writes at an address.
fn byte_written(access: &Access, address: u128) -> u8
    ensures { result ≡ byte_written access.now address }
{
    byte_of(
        number_written(access),
        address.saturating_sub(u128::from(access.address())),
    )
}
