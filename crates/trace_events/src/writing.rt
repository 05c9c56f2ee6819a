//! The text of a whole trace, put piece by piece.

ghost use Rattle.std.specs.Prelude.{◌≡◌, ◌<◌, ◌≤◌, ◌+◌, ◌^◌, ◌++◌, [], None, OnOk, codes, drop, length};
ghost use Rattle.std.specs.Option.{option_copied};
ghost use Rattle.host_io.specs.Taken.{WritesText};
ghost use Rattle.round_schedule.specs.Accesses.{address_of};
ghost use Rattle.round_schedule.specs.Positions.{event};
ghost use Rattle.trace.specs.Traced.{IsTrace};
ghost use Rattle.report.specs.Pending.{Puts};
ghost use Rattle.trace_events.specs.TraceEvents.{before_index, entries_text, entry_text, head_text, trace_events_text, track_text, tracks_text};
ghost use Rattle.trace_events.specs.Writers.{Indexes};

use crate::flows::add_flows;
use crate::slices::{add_event, add_round, add_serial, add_with_number};
use crate::writers::Writers;
use host_io::{RunError, Sink};
use pages::OutOfMemory;
use report::{put_line, put_long};
use report_lines::Line;
use round_schedule::Event;
use std::alloc::Global;
use trace::Trace;

/// How many words of 8 bytes a page has.
const PAGE_WORDS: usize = 512;

/// Adds the name of a hart's track.
#[tactic(auto, unfolding(crate::specs::TraceEvents::track_text))]
fn add_track(line: &mut Line, hart: u64) -> Result<(), OutOfMemory>
    requires { hart < 2 ^ 32 }
    ensures { OnOk result (line.new ≡ line.old ++ track_text hart) }
{
    add_with_number(line, ",\n{\"ph\":\"M\",\"pid\":0,\"tid\":", hart + 1)?;
    let name = ",\"name\":\"thread_name\",\"args\":{\"name\":\"hart ";
    add_with_number(line, name, hart)?;
    line.text("\"}}")
}

/// Adds the names of the tracks of so many harts, from one on.
fn add_tracks(line: &mut Line, first: u64, count: u64) -> Result<(), OutOfMemory>
    requires { first + count ≤ 2 ^ 32 }
    ensures { OnOk result (line.new ≡ line.old ++ tracks_text first count) }
{
    if count == 0 {
        return Ok(());
    }
    add_track(line, first)?;
    add_tracks(line, first + 1, count - 1)
}

/// Adds what stands before the events.
#[tactic(auto, unfolding(crate::specs::TraceEvents::head_text))]
fn add_head(line: &mut Line, harts: u32) -> Result<(), OutOfMemory>
    ensures { OnOk result (line.new ≡ line.old ++ head_text harts) }
{
    line.text(
        "{\"traceEvents\":[\n{\"ph\":\"M\",\"pid\":0,\"tid\":0,\"name\":\"thread_name\",\"args\":{\"name\":\"rounds\"}}",
    )?;
    add_tracks(line, 0, u64::from(harts))
}

/// Adds what stands of the event at an index.
#[tactic(auto, unfolding(crate::specs::TraceEvents::entry_text))]
fn add_entry(
    alloc: Global,
    line: &mut Line,
    events: &[Event],
    writers: &Writers,
    index: usize,
    before: Option<&Event>,
) -> Result<(), OutOfMemory>
    requires index { index < length events.now }
    requires before { Indexes events.now index writers.now }
    requires low { address_of (event events.now index).access < 2 ^ 32 }
    ensures { OnOk result (line.new ≡ line.old ++ entry_text events.now index
        (option_copied before.entry) (event events.now index) (drop (index + 1) events.now)) }
{
    let event = &events[index];
    let rest = &events[index + 1..];
    add_round(line, index as u64, before, event, rest)?;
    add_serial(line, index as u64, before, event, rest)?;
    add_event(line, index as u64, event)?;
    add_flows(alloc, line, events, writers, index)
}

/// The event before an index.
fn event_before(events: &[Event], index: usize) -> Option<&Event>
    requires { index ≤ length events.now }
    ensures { option_copied result ≡ before_index events.now index }
{
    match index {
        0 => None,
        _ => Some(&events[index - 1]),
    }
}

/// Puts what stands of the event at an index.
fn put_entry<S: Sink>(
    alloc: Global,
    out: &mut S,
    line: &mut Line,
    events: &[Event],
    writers: &Writers,
    index: usize,
) -> Result<(), RunError>
    requires index { index < length events.now }
    requires before { Indexes events.now index writers.now }
    requires low { address_of (event events.now index).access < 2 ^ 32 }
    ensures { Puts S.took S.failures (entry_text events.now index (before_index events.now index)
        (event events.now index) (drop (index + 1) events.now)) out.old line.old result out.new
        line.new }
{
    let before = event_before(events, index);
    add_entry(alloc, line, events, writers, index, before)?;
    put_long(out, line)
}

/// Puts what stands of all events.
fn put_entries<S: Sink>(
    alloc: Global,
    out: &mut S,
    line: &mut Line,
    events: &[Event],
    mut writers: Writers,
) -> Result<(), RunError>
    requires none { Indexes events.now 0 writers }
    requires sound { IsTrace events.now }
    ensures { Puts S.took S.failures (entries_text events.now 0 None events.now) out.old line.old
        result out.new line.new }
{
    for index in 0..events.len() {
        put_entry(alloc, out, line, events, &writers, index)?;
        writers.add(events, index)?;
    }
    Ok(())
}

/// Puts what stands before the events.
fn put_head<S: Sink>(out: &mut S, line: &mut Line, harts: u32) -> Result<(), RunError>
    ensures { Puts S.took S.failures (head_text harts) out.old line.old result out.new line.new }
{
    add_head(line, harts)?;
    put_long(out, line)
}

/// Puts the end, and all that wasn't put before.
fn put_end<S: Sink>(out: &mut S, line: &mut Line) -> Result<(), RunError>
    ensures wrote { Puts S.took S.failures (codes "\n]}\n") out.old line.old result out.new
        line.new }
    ensures empty { OnOk result (line.new ≡ []) }
{
    line.text("\n]}\n")?;
    put_line(out, line)
}

/// Puts the whole text.
fn put_trace<S: Sink>(
    alloc: Global,
    out: &mut S,
    line: &mut Line,
    harts: u32,
    events: &[Event],
    writers: Writers,
) -> Result<(), RunError>
    requires none { Indexes events.now 0 writers }
    requires sound { IsTrace events.now }
    ensures wrote { Puts S.took S.failures (trace_events_text harts events.now) out.old line.old
        result out.new line.new }
    ensures empty { OnOk result (line.new ≡ []) }
{
    put_head(out, line, harts)?;
    put_entries(alloc, out, line, events, writers)?;
    put_end(out, line)
}

/// Writes a trace of a run on so many harts, with memory of so many pages, as JSON in the format of Chrome's trace events: piece by
/// piece, so that no second copy of a large text is made.
///
/// Each event is a slice on its hart's track, at the microsecond of its index in the trace. Each round and each serial phase that
/// have events are slices on a track of their own. Each store has a flow to each event that read a byte of it.
///
/// # Errors
///
/// `OutOfMemory`, and `SinkFailed` where the sink failed. A beginning of the text is out then.
pub fn write_trace_events<S: Sink>(
    alloc: Global,
    trace: &Trace,
    harts: u32,
    pages: u32,
    out: &mut S,
) -> Result<(), RunError>
    ensures { WritesText (trace_events_text harts trace.now.events) (S.took out.old)
        (S.failures out.old) result (S.took out.new) (S.failures out.new) }
{
    let events = trace.to_vec(alloc)?;
    let writers = Writers::new(alloc, PAGE_WORDS * pages as usize)?;
    let mut line = Line::new(alloc);
    put_trace(alloc, out, &mut line, harts, &events, writers)
}
