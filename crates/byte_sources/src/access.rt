ghost use Rattle.std.specs.Prelude.{◌≡◌, ◌<◌, ◌^◌};
ghost use Rattle.round_schedule.specs.Accesses.{address_of, bytes_of, reads, writes};
ghost use Rattle.round_schedule.specs.Positions.{event, no_event};
ghost use Rattle.pages.specs.Memory.{in_range};
ghost use Rattle.byte_sources.specs.Touching.{touches};

use pages::Range;
use round_schedule::{Access, Event, Phase};
use rv64_decode::{FenceMode, FenceSet};
use trace::Trace;

/// Whether the byte at an address is one of the bytes from another address on.
pub fn is_in_range(start: u64, count: u64, address: u64) -> bool
    ensures { result ≡ in_range start count address }
{
    start <= address && address - start < count
}

fn covers(access: &Access, byte: u64) -> bool
    ensures { result ≡ in_range (address_of access.now) (bytes_of access.now) byte }
{
    is_in_range(access.address(), access.byte_count(), byte)
}

/// Whether an access reads the byte at an address.
pub(crate) fn reads(access: &Access, byte: u64) -> bool
    ensures { result ≡ reads access.now byte }
{
    access.loads() && covers(access, byte)
}

/// Whether an access writes the byte at an address.
pub fn writes(access: &Access, byte: u64) -> bool
    ensures { result ≡ writes access.now byte }
{
    access.stores() && covers(access, byte)
}

/// Whether some byte is one of a range's and one of an access's.
pub fn touches(access: &Access, range: &Range) -> bool
    ensures { result ≡ touches access.now range.now }
{
    let first = access.address();
    let count = access.byte_count();
    (is_in_range(range.start, range.len, first) && count > 0)
        || (is_in_range(first, count, range.start) && range.len > 0)
}

/// The event at an index of a trace; past its end a fence that orders nothing.
pub fn event_at(trace: &Trace, index: usize) -> Event
    ensures event { result ≡ event trace.now.events index }
    ensures low { address_of result.access < 2 ^ 32 }
{
    if index < trace.len() {
        trace.event(index)
    } else {
        no_event()
    }
}

/// What stands past a trace's end: a fence that orders nothing.
#[tactic(auto, unfolding(round_schedule::specs::Positions::no_event))]
pub fn no_event() -> Event
    ensures event { result ≡ no_event }
    ensures low { address_of result.access ≡ 0 }
{
    let nothing = FenceSet {
        reads: false,
        writes: false,
    };
    Event {
        access: Access::Fence {
            before: nothing,
            after: nothing,
            mode: FenceMode::Normal,
            place: 0,
        },
        round: 0,
        hart: 0,
        phase: Phase::Parallel,
    }
}
