//! The flows of a trace, as text.

ghost use Rattle.std.specs.Prelude.{◌≡◌, ◌<◌, ◌^◌, ◌++◌, IfOk, OnOk, length, map};
ghost use Rattle.round_schedule.specs.Accesses.{address_of};
ghost use Rattle.round_schedule.specs.Positions.{event};
ghost use Rattle.byte_sources.specs.Sources.{bytes, source, sources};
ghost use Rattle.trace_events.specs.Flows.{flow_number, flow_start, flow_text, flow_to, flows_from, flows_text};
ghost use Rattle.trace_events.specs.Writers.{Indexes};

use crate::slices::{add_with_number, track_of};
use crate::writers::Writers;
use byte_sources::has_index;
use pages::OutOfMemory;
use report_lines::Line;
use round_schedule::{Access, Event};
use std::alloc::Global;

/// Adds the start of an end of a flow.
#[tactic(auto, unfolding(crate::specs::Flows::flow_start))]
fn add_end(line: &mut Line, kind: &str, hart: u8, time: u64) -> Result<(), OutOfMemory>
    ensures { OnOk result (line.new ≡ line.old ++ flow_start kind.now hart time) }
{
    line.text(",\n{\"ph\":")?;
    line.text(kind)?;
    add_with_number(line, ",\"pid\":0,\"tid\":", track_of(hart))?;
    add_with_number(line, ",\"ts\":", time)
}

/// Adds the number of a flow.
#[tactic(auto, unfolding(crate::specs::Flows::flow_number))]
fn add_number(line: &mut Line, index: u64, byte: u64) -> Result<(), OutOfMemory>
    ensures { OnOk result (line.new ≡ line.old ++ flow_number index byte) }
{
    line.text(",\"id\":\"")?;
    line.hex(index, 15)?;
    line.hex(byte, 1)?;
    line.text("\",\"cat\":\"read\",\"name\":\"read\"}")
}

/// The hart of the event at an index; 0 past the trace's end.
#[tactic(auto, unfolding(round_schedule::specs::Positions::no_event))]
fn hart_at(events: &[Event], index: usize) -> u8
    ensures { result ≡ (event events.now index).hart }
{
    match events.get(index) {
        Some(event) => event.hart,
        None => 0,
    }
}

/// Adds the flow from the event at one index to a byte of the event at another.
#[tactic(auto, unfolding(crate::specs::Flows::flow_text))]
fn add_flow(
    line: &mut Line,
    events: &[Event],
    index: usize,
    byte: usize,
    writer: usize,
) -> Result<(), OutOfMemory>
    ensures { OnOk result (line.new ≡ line.old ++ flow_text events.now index byte writer) }
{
    add_end(line, "\"s\"", hart_at(events, writer), writer as u64)?;
    add_number(line, index as u64, byte as u64)?;
    add_end(
        line,
        "\"f\",\"bp\":\"e\"",
        hart_at(events, index),
        index as u64,
    )?;
    add_number(line, index as u64, byte as u64)
}

/// Adds the flow from the next byte's source, where no byte before has the same one.
fn add_flow_to(
    line: &mut Line,
    events: &[Event],
    index: usize,
    earlier: &[Option<usize>],
    found: Option<usize>,
) -> Result<(), OutOfMemory>
    ensures { OnOk result (line.new ≡ line.old ++ flow_to events.now index earlier.now found) }
{
    match found {
        None => Ok(()),
        Some(writer) => {
            if has_index(earlier, writer) {
                return Ok(());
            }
            add_flow(line, events, index, earlier.len(), writer)
        }
    }
}

/// The sources of the bytes of an access at an index.
fn sources_at(
    alloc: Global,
    events: &[Event],
    writers: &Writers,
    index: usize,
    access: &Access,
) -> Result<Vec<Option<usize>>, OutOfMemory>
    requires index { index < length events.now }
    requires before { Indexes events.now index writers.now }
    requires low { address_of access.now < 2 ^ 32 }
    ensures { IfOk result (λ v. v.items ≡ map (source events.now index) (bytes access.now)) }
{
    let first = access.address();
    let end = first + access.byte_count();
    let found: Vec<Option<usize>> = (first..end)
        .map(|byte| writers.source(events, index, byte))
        .collect(alloc)?;
    Ok(found)
}

/// The sources of all bytes of the event at an index, where it reads any.
#[tactic(auto, unfolding(byte_sources::specs::Sources::sources))]
fn sources(
    alloc: Global,
    events: &[Event],
    writers: &Writers,
    index: usize,
) -> Result<Vec<Option<usize>>, OutOfMemory>
    requires index { index < length events.now }
    requires before { Indexes events.now index writers.now }
    requires low { address_of (event events.now index).access < 2 ^ 32 }
    ensures { IfOk result (λ v. v.items ≡ sources events.now index) }
{
    let access = &events[index].access;
    if access.loads() {
        sources_at(alloc, events, writers, index, access)
    } else {
        Ok(Vec::new(alloc))
    }
}

/// Adds the flows to the event at an index.
pub(crate) fn add_flows(
    alloc: Global,
    line: &mut Line,
    events: &[Event],
    writers: &Writers,
    index: usize,
) -> Result<(), OutOfMemory>
    requires index { index < length events.now }
    requires before { Indexes events.now index writers.now }
    requires low { address_of (event events.now index).access < 2 ^ 32 }
    ensures { OnOk result (line.new ≡ line.old ++ flows_text events.now index) }
{
    let found = sources(alloc, events, writers, index)?;
    for (byte, writer) in found.iter().enumerate() {
        add_flow_to(line, events, index, &found[..byte], *writer)?;
    }
    Ok(())
}
