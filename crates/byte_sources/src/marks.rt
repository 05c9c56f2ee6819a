//! Which stores are marked, since nobody read what they wrote.

ghost use Rattle.std.specs.Prelude.{◌≡◌, ◌<◌, ◌^◌, Some, None};
ghost use Rattle.std.specs.List.{list_all};
ghost use Rattle.round_schedule.specs.Accesses.{address_of, byte_written};
ghost use Rattle.round_schedule.specs.Positions.{source_byte};
ghost use Rattle.trace.specs.Traced.{opening_at};
ghost use Rattle.byte_sources.specs.Sources.{bytes, is_index, source};
ghost use Rattle.byte_sources.specs.Marks.{is_by_other, is_by_same, is_lost, is_lost_byte, is_read, is_unread, is_unread_byte, leaves, mark_of, overwriter, reads_from};

use crate::access::{event_at, reads, writes};
use crate::mark::Mark;
use crate::source::{gives, is_index, sees, source};
use round_schedule::Access;
use trace::Trace;

/// The first store to a byte after an index.
fn overwriter(trace: &Trace, index: usize, byte: u64) -> Option<usize>
    ensures { result ≡ overwriter trace.now.events index byte }
{
    if index >= trace.len() {
        return None;
    }
    for later in index + 1..trace.len() {
        if writes(&event_at(trace, later).access, byte) {
            return Some(later);
        }
    }
    None
}

/// Whether the event at an index, where there is one, is of another hart than the one at another index.
fn is_by_other(trace: &Trace, index: usize, later: Option<usize>) -> bool
    ensures { result ≡ is_by_other trace.now.events index later }
{
    match later {
        None => false,
        Some(later) => event_at(trace, later).hart != event_at(trace, index).hart,
    }
}

/// Whether it is of the same hart.
fn is_by_same(trace: &Trace, index: usize, later: Option<usize>) -> bool
    ensures { result ≡ is_by_same trace.now.events index later }
{
    match later {
        None => false,
        Some(later) => event_at(trace, later).hart == event_at(trace, index).hart,
    }
}

/// Whether the store at an index is the source of a byte for the event at a later index, where `over` is the first store to the byte
/// after it. So it looks back only from an event that comes after that one and doesn't see it.
fn is_source(trace: &Trace, index: usize, byte: u64, over: Option<usize>, later: usize) -> bool
    requires { over ≡ overwriter trace.now.events index byte }
    ensures { result ≡ is_index index (source trace.now.events later byte) }
{
    if later <= index {
        return false;
    }
    match over {
        None => is_last_source(trace, index, byte, later),
        Some(next) => is_source_before(trace, index, byte, next, later),
    }
}

/// The same where no store to the byte comes after it.
fn is_last_source(trace: &Trace, index: usize, byte: u64, later: usize) -> bool
    requires over { None ≡ overwriter trace.now.events index byte }
    requires later { index < later }
    ensures { result ≡ is_index index (source trace.now.events later byte) }
{
    if later > trace.len() {
        return is_index(index, source(trace, later, byte));
    }
    gives(trace, &event_at(trace, later), byte, index)
}

/// The same where one does, and this is the first.
fn is_source_before(trace: &Trace, index: usize, byte: u64, next: usize, later: usize) -> bool
    requires over { Some next ≡ overwriter trace.now.events index byte }
    requires later { index < later }
    ensures { result ≡ is_index index (source trace.now.events later byte) }
{
    let reader = event_at(trace, later);
    if later <= next {
        return gives(trace, &reader, byte, index);
    }
    if sees(&reader, &event_at(trace, next)) {
        return false;
    }
    is_index(index, source(trace, later, byte))
}

/// Whether the event at a later index reads a byte of the store at an index.
fn reads_from(trace: &Trace, index: usize, byte: u64, over: Option<usize>, later: usize) -> bool
    requires { over ≡ overwriter trace.now.events index byte }
    ensures { result ≡ reads_from trace.now.events index byte later }
{
    reads(&event_at(trace, later).access, byte) && is_source(trace, index, byte, over, later)
}

/// Whether any event reads a byte of the store at an index.
fn is_read(trace: &Trace, index: usize, byte: u64, over: Option<usize>) -> bool
    requires { over ≡ overwriter trace.now.events index byte }
    ensures { result ≡ is_read trace.now.events index byte }
{
    if index >= trace.len() {
        return false;
    }
    (index + 1..trace.len()).any(|later| reads_from(trace, index, byte, over, later))
}

/// Whether another hart was the first to overwrite a byte of the store at an index, and nobody ever reads what it wrote.
#[tactic(auto, unfolding(crate::specs::Marks::is_lost_byte))]
fn is_lost_byte(trace: &Trace, index: usize, byte: u64) -> bool
    ensures { result ≡ is_lost_byte trace.now.events index byte }
{
    let over = overwriter(trace, index, byte);
    is_by_other(trace, index, over) && !is_read(trace, index, byte, over)
}

/// Whether its own hart was the first to overwrite it, and nobody ever reads what it wrote.
#[tactic(auto, unfolding(crate::specs::Marks::is_unread_byte))]
fn is_unread_byte(trace: &Trace, index: usize, byte: u64) -> bool
    ensures { result ≡ is_unread_byte trace.now.events index byte }
{
    let over = overwriter(trace, index, byte);
    is_by_same(trace, index, over) && !is_read(trace, index, byte, over)
}

/// The byte that a source leaves at an address; where there is none, the one that memory opened with.
fn source_byte(trace: &Trace, byte: u64, source: Option<usize>) -> u8
    ensures { result ≡ source_byte trace.now.events (opening_at trace.now.opening) byte source }
{
    match source {
        None => trace.opening_byte(byte),
        Some(index) => event_at(trace, index).access.byte_written(byte),
    }
}

/// Whether the store at an index left a byte as its hart saw it.
fn leaves(trace: &Trace, index: usize, byte: u64) -> bool
    ensures { result ≡ leaves trace.now.events (opening_at trace.now.opening) index byte }
{
    let before = source_byte(trace, byte, source(trace, index, byte));
    event_at(trace, index).access.byte_written(byte) == before
}

/// Whether each byte of an access at an index is lost.
fn are_lost(trace: &Trace, index: usize, access: &Access) -> bool
    requires { address_of access.now < 2 ^ 32 }
    ensures { result ≡ list_all (is_lost_byte trace.now.events index) (bytes access.now) }
{
    let first = access.address();
    let end = first + access.byte_count();
    (first..end).all(|byte| is_lost_byte(trace, index, byte))
}

/// Whether its own hart overwrote each of them, and nobody read one.
fn are_unread(trace: &Trace, index: usize, access: &Access) -> bool
    requires { address_of access.now < 2 ^ 32 }
    ensures { result ≡ list_all (is_unread_byte trace.now.events index) (bytes access.now) }
{
    let first = access.address();
    let end = first + access.byte_count();
    (first..end).all(|byte| is_unread_byte(trace, index, byte))
}

/// Whether it left each of them as its hart saw it.
fn are_left(trace: &Trace, index: usize, access: &Access) -> bool
    requires { address_of access.now < 2 ^ 32 }
    ensures { result ≡ list_all (leaves trace.now.events (opening_at trace.now.opening) index)
        (bytes access.now) }
{
    let first = access.address();
    let end = first + access.byte_count();
    (first..end).all(|byte| leaves(trace, index, byte))
}

/// Whether the event at an index is a store, each of its bytes is lost, and it didn't write just what stood there.
#[tactic(auto, unfolding(crate::specs::Marks::is_lost))]
fn is_lost(trace: &Trace, index: usize) -> bool
    ensures { result ≡ is_lost trace.now.events (opening_at trace.now.opening) index }
{
    let access = event_at(trace, index).access;
    access.stores() && are_lost(trace, index, &access) && !are_left(trace, index, &access)
}

/// Whether the event at an index is a store that its own hart overwrote, each byte of it, and that nobody read.
#[tactic(auto, unfolding(crate::specs::Marks::is_unread))]
fn is_unread(trace: &Trace, index: usize) -> bool
    ensures { result ≡ is_unread trace.now.events index }
{
    let access = event_at(trace, index).access;
    access.stores() && are_unread(trace, index, &access)
}

/// What is to be marked of the event at an index.
#[tactic(auto, unfolding(crate::specs::Marks::mark_of))]
pub fn mark_of(trace: &Trace, index: usize) -> Mark
    ensures { result ≡ mark_of trace.now.events (opening_at trace.now.opening) index }
{
    if is_lost(trace, index) {
        Mark::Lost
    } else if is_unread(trace, index) {
        Mark::Unread
    } else {
        Mark::Plain
    }
}
