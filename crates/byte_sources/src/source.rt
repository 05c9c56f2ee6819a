ghost use Rattle.std.specs.Prelude.{◌≡◌, ◌<◌, ◌^◌, IfOk, map};
ghost use Rattle.round_schedule.specs.Accesses.{address_of};
ghost use Rattle.byte_sources.specs.Sources.{bytes, gives, is_opening, is_index, sees, source, sources};
ghost use Rattle.std.specs.List.{list_any};

use crate::access::{event_at, writes};
use pages::OutOfMemory;
use round_schedule::{Access, Event, Phase};
use std::alloc::Global;
use trace::Trace;

/// Whether an event may see what an earlier one wrote.
pub fn sees(reader: &Event, writer: &Event) -> bool
    ensures { result ≡ sees reader.now writer.now }
{
    reader.phase == Phase::Serial || writer.round < reader.round || writer.hart == reader.hart
}

/// Whether the event at an index writes a byte, and a later event may see it.
pub(crate) fn gives(trace: &Trace, reader: &Event, byte: u64, index: usize) -> bool
    ensures { result ≡ gives trace.now.events reader.now byte index }
{
    let writer = event_at(trace, index);
    writes(&writer.access, byte) && sees(reader, &writer)
}

/// The index of the store that a byte of the event at an index is from; `None` where it is as memory opened.
///
/// It looks back from the index to that store.
#[tactic(auto, unfolding(crate::specs::Sources::source))]
pub(crate) fn source(trace: &Trace, index: usize, byte: u64) -> Option<usize>
    ensures { result ≡ source trace.now.events index byte }
{
    let reader = event_at(trace, index);
    let mut before = index;
    while before > 0 {
        before -= 1;
        if gives(trace, &reader, byte, before) {
            return Some(before);
        }
    }
    None
}

/// The sources of the bytes of an access at an index.
fn sources_at(
    alloc: Global,
    trace: &Trace,
    index: usize,
    access: &Access,
) -> Result<Vec<Option<usize>>, OutOfMemory>
    requires { address_of access.now < 2 ^ 32 }
    ensures { IfOk result (λ v. v.items ≡ map (source trace.now.events index) (bytes access.now)) }
{
    let first = access.address();
    let end = first + access.byte_count();
    let found: Vec<Option<usize>> = (first..end)
        .map(|byte| source(trace, index, byte))
        .collect(alloc)?;
    Ok(found)
}

/// The sources of all bytes of the event at an index, where it reads any.
#[tactic(auto, unfolding(crate::specs::Sources::sources))]
pub fn sources(
    alloc: Global,
    trace: &Trace,
    index: usize,
) -> Result<Vec<Option<usize>>, OutOfMemory>
    ensures { IfOk result (λ v. v.items ≡ sources trace.now.events index) }
{
    let access = event_at(trace, index).access;
    if access.loads() {
        sources_at(alloc, trace, index, &access)
    } else {
        Ok(Vec::new(alloc))
    }
}

pub(crate) fn is_index(index: usize, found: Option<usize>) -> bool
    ensures { result ≡ is_index index found }
{
    match found {
        None => false,
        Some(at) => at == index,
    }
}

/// Whether one of the sources is the store at an index.
pub fn has_index(found: &[Option<usize>], index: usize) -> bool
    ensures { result ≡ list_any (is_index index) found.now }
{
    found.iter().any(|at| is_index(index, *at))
}

/// Whether one of the sources is what memory opened with.
pub fn has_opening(found: &[Option<usize>]) -> bool
    ensures { result ≡ list_any is_opening found.now }
{
    found.iter().any(|at| at.is_none())
}
