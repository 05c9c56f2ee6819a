//! Loads that do once more what the load before them did.

ghost use Rattle.std.specs.Prelude.{◌≡◌, ◌<◌, ◌^◌, ◌+◌};
ghost use Rattle.std.specs.List.{list_any};
ghost use Rattle.round_schedule.specs.Accesses.{address_of};
ghost use Rattle.byte_sources.specs.Repeats.{loads_so, repeats, same_load, writes_some};
ghost use Rattle.byte_sources.specs.Sources.{between};

use crate::access::{event_at, writes};
use crate::phases::is_same_turn;
use round_schedule::Access;
use trace::Trace;

/// Whether an access is a load of these bytes that reads this number.
fn loads_so(access: &Access, count: u64, address: u64, read: u64) -> bool
    ensures { result ≡ loads_so count address read access.now }
{
    match *access {
        Access::Load {
            width,
            address: first,
            read: number,
            ..
        } => width.bytes() == count && first == address && number == read,
        Access::Store { .. }
        | Access::LoadReserved { .. }
        | Access::StoreConditional { .. }
        | Access::Atomic { .. }
        | Access::Fence { .. } => false,
    }
}

/// Whether two accesses are loads of the same bytes that read the same number.
fn are_same_load(one: &Access, other: &Access) -> bool
    ensures { result ≡ same_load one.now other.now }
{
    match *one {
        Access::Load {
            width,
            address,
            read,
            ..
        } => loads_so(other, width.bytes(), address, read),
        Access::Store { .. }
        | Access::LoadReserved { .. }
        | Access::StoreConditional { .. }
        | Access::Atomic { .. }
        | Access::Fence { .. } => false,
    }
}

/// Whether the event at an index writes a byte of an access.
fn writes_some(trace: &Trace, access: &Access, index: usize) -> bool
    requires { address_of access.now < 2 ^ 32 }
    ensures { result ≡ writes_some trace.now.events access.now index }
{
    let writer = event_at(trace, index).access;
    let first = access.address();
    let end = first + access.byte_count();
    (first..end).any(|byte| writes(&writer, byte))
}

/// Whether an event between two indexes writes a byte of an access.
fn is_written_between(trace: &Trace, access: &Access, first: usize, second: usize) -> bool
    requires { address_of access.now < 2 ^ 32 }
    ensures { result ≡ list_any (writes_some trace.now.events access.now)
        (between (first + 1) second) }
{
    if first >= second {
        return false;
    }
    (first + 1..second).any(|index| writes_some(trace, access, index))
}

/// Whether the event at the second index is a load that repeats the one at the first: of the same hart in the same phase of a round, of
/// the same bytes, of the same number, and nothing between them writes one of these bytes.
#[tactic(auto, unfolding(crate::specs::Repeats::repeats))]
pub fn is_repeated(trace: &Trace, first: usize, second: usize) -> bool
    ensures { result ≡ repeats trace.now.events first second }
{
    let one = event_at(trace, first);
    let other = event_at(trace, second);
    is_same_turn(&one, &other)
        && are_same_load(&one.access, &other.access)
        && !is_written_between(trace, &one.access, first, second)
}
