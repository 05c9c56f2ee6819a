ghost use Rattle.std.specs.Prelude.{◌≡◌, ◌<◌, ◌≤◌, ◌+◌, ◌*◌, ◌/◌, ◌++◌, [], OnOk, codes, take, length};
ghost use Rattle.std.specs.Fmt.{decimal};
ghost use Rattle.host_io.specs.Taken.{WritesText};
ghost use Rattle.pages.specs.Flat.{page_bytes};
ghost use Rattle.report.specs.Pending.{Puts};
ghost use Rattle.report.specs.Report.{events_text, harts_text, output_rows, output_text, trace_text};
ghost use Rattle.report_lines.specs.Rows.{memory_rows};
ghost use Rattle.report.specs.RunStates.{head_of, report_with, start_of};
ghost use Rattle.report_lines.specs.Text.{bytes_text, event_text, hart_text};

use crate::blocks::put_body;
use crate::cut::Cut;
use crate::run_state::RunState;
use crate::writer::{put_line, put_long};
use hart_step::Hart;
use host_io::{RunError, Sink};
use pages::Pages;
use report_lines::{Line, Tail, count_line, event_line, hart_lines, output_row, page_lines};
use round_schedule::{Event, MOST_WORKERS};
use std::alloc::Global;
use std::sync::Wait;
use std::thread::Threads;
use trace::Trace;

pub(crate) fn put_count<S: Sink>(
    out: &mut S,
    line: &mut Line,
    word: &str,
    count: u64,
) -> Result<(), RunError>
    ensures { Puts S.took S.failures (word.now ++ decimal count ++ codes "\n") out.old line.old
        result out.new line.new }
{
    count_line(line, word, count)?;
    put_long(out, line)
}

fn put_hart<S: Sink>(out: &mut S, line: &mut Line, number: u64, hart: &Hart) -> Result<(), RunError>
    ensures { Puts S.took S.failures (hart_text number hart.now) out.old line.old result out.new
        line.new }
{
    hart_lines(line, number, hart)?;
    put_long(out, line)
}

/// Puts an event's line.
#[inline(always)]
pub(crate) fn put_event<S: Sink>(
    out: &mut S,
    line: &mut Line,
    tail: &mut Tail,
    event: &Event,
) -> Result<(), RunError>
    ensures { Puts S.took S.failures (event_text event.now) out.old line.old result out.new
        line.new }
{
    event_line(line, tail, event)?;
    put_long(out, line)
}

fn put_events<S: Sink>(out: &mut S, line: &mut Line, trace: &Trace) -> Result<(), RunError>
    ensures { Puts S.took S.failures (events_text trace.now.events) out.old line.old result out.new
        line.new }
{
    let mut tail = Tail::new();
    for event in trace.events() {
        put_event(out, line, &mut tail, &event)?;
    }
    Ok(())
}

fn put_trace<S: Sink>(out: &mut S, line: &mut Line, trace: &Trace) -> Result<(), RunError>
    ensures { Puts S.took S.failures (trace_text trace.now.events) out.old line.old result out.new
        line.new }
{
    put_count(out, line, "trace ", trace.len() as u64)?;
    put_events(out, line, trace)
}

pub(crate) fn put_harts<S: Sink>(
    out: &mut S,
    line: &mut Line,
    harts: &[Hart],
) -> Result<(), RunError>
    ensures { Puts S.took S.failures (harts_text 0 harts.now) out.old line.old result out.new
        line.new }
{
    for (number, hart) in harts.iter().enumerate() {
        put_hart(out, line, number as u64, hart)?;
    }
    Ok(())
}

fn put_page<S: Sink>(out: &mut S, line: &mut Line, pages: &Pages, page: u32) -> Result<(), RunError>
    requires page { page < length pages.now.ready }
    requires bytes { 4096 * page + 4096 ≤ length pages.now.memory.bytes }
    ensures { Puts S.took S.failures (memory_rows (4096 * page)
        (page_bytes pages.now.memory.bytes page) 256) out.old line.old result out.new line.new }
{
    page_lines(line, pages, page)?;
    put_long(out, line)
}

fn put_pages<S: Sink>(out: &mut S, line: &mut Line, pages: &Pages) -> Result<(), RunError>
    ensures { Puts S.took S.failures (memory_rows 0 pages.now.memory.bytes
        (length pages.now.memory.bytes / 16)) out.old line.old result out.new line.new }
{
    for page in 0..pages.count() {
        put_page(out, line, pages, page)?;
    }
    Ok(())
}

fn put_row<S: Sink>(out: &mut S, line: &mut Line, output: &[u8]) -> Result<(), RunError>
    ensures { Puts S.took S.failures (bytes_text (take 32 output.now) ++ codes "\n") out.old
        line.old result out.new line.new }
{
    output_row(line, output)?;
    put_long(out, line)
}

fn put_rows<S: Sink>(out: &mut S, line: &mut Line, output: &[u8]) -> Result<(), RunError>
    ensures { Puts S.took S.failures (output_rows output.now ((length output.now + 31) / 32))
        out.old line.old result out.new line.new }
{
    for row in 0..(output.len() + 31) / 32 {
        put_row(out, line, &output[32 * row..])?;
    }
    Ok(())
}

pub(crate) fn put_output<S: Sink>(
    out: &mut S,
    line: &mut Line,
    output: &[u8],
) -> Result<(), RunError>
    ensures { Puts S.took S.failures (output_text output.now) out.old line.old result out.new
        line.new }
{
    put_count(out, line, "output ", output.len() as u64)?;
    put_rows(out, line, output)
}

pub(crate) fn put_end<S: Sink>(out: &mut S, line: &mut Line) -> Result<(), RunError>
    ensures wrote { Puts S.took S.failures (codes "end\n") out.old line.old result out.new
        line.new }
    ensures empty { OnOk result (line.new ≡ []) }
{
    line.text("end\n")?;
    put_line(out, line)
}

/// Puts what stands before the lines of memory.
fn put_start<S: Sink>(out: &mut S, line: &mut Line, state: &RunState<'_>) -> Result<(), RunError>
    ensures { Puts S.took S.failures (start_of state.now) out.old line.old result out.new line.new }
{
    put_count(out, line, "rounds ", state.rounds as u64)?;
    put_harts(out, line, state.harts)?;
    put_count(out, line, "memory ", state.pages.count() as u64)
}

/// Puts all that stands before the events.
pub(crate) fn put_head<S: Sink>(
    out: &mut S,
    line: &mut Line,
    state: &RunState<'_>,
) -> Result<(), RunError>
    ensures { Puts S.took S.failures (head_of state.now) out.old line.old result out.new line.new }
{
    put_start(out, line, state)?;
    put_pages(out, line, state.pages)?;
    put_output(out, line, state.output)
}

fn put_state<S: Sink>(
    out: &mut S,
    line: &mut Line,
    state: &RunState<'_>,
    trace: &Trace,
) -> Result<(), RunError>
    ensures wrote { Puts S.took S.failures (report_with state.now trace.now.events) out.old line.old
        result out.new line.new }
    ensures empty { OnOk result (line.new ≡ []) }
{
    put_head(out, line, state)?;
    put_trace(out, line, trace)?;
    put_end(out, line)
}

/// Writes the report of a state: the harts, memory, the console's output and the events, in pieces, so that no
/// second copy of a large report is made.
///
/// # Errors
///
/// `OutOfMemory` where a line found no memory, and `SinkFailed` where the sink failed. A beginning of the
/// report is out then.
pub fn write_state<S: Sink>(
    alloc: Global,
    state: &RunState<'_>,
    trace: &Trace,
    out: &mut S,
) -> Result<(), RunError>
    ensures { WritesText (report_with state.now trace.now.events) (S.took out.old)
        (S.failures out.old) result (S.took out.new) (S.failures out.new) }
{
    let mut line = Line::new(alloc);
    put_state(out, &mut line, state, trace)
}

/// Puts all that `put_state` puts, by so many workers where there is enough for them to do.
fn put_state_on<S: Sink, R: Threads + Wait + Sync>(
    rt: &R,
    workers: usize,
    alloc: Global,
    out: &mut S,
    line: &mut Line,
    state: &RunState<'_>,
    trace: &Trace,
) -> Result<(), RunError>
    requires { workers ≤ MOST_WORKERS }
    ensures wrote { Puts S.took S.failures (report_with state.now trace.now.events) out.old line.old
        result out.new line.new }
    ensures empty { OnOk result (line.new ≡ []) }
{
    if workers <= 1 {
        return put_state(out, line, state, trace);
    }
    let cut = Cut::of(state.pages, trace);
    if cut.is_short() {
        return put_state(out, line, state, trace);
    }
    put_start(out, line, state)?;
    put_line(out, line)?;
    put_body(rt, workers, alloc, out, cut, state, trace)?;
    put_end(out, line)
}

/// Writes what `write_state` writes, with the lines of memory and of the events formatted by so many workers, though by no more
/// than 16.
///
/// Each worker formats a block of lines at a time, and the blocks are put in order. The calling thread is a worker, and
/// formats all blocks where no thread could be started. It may wait.
///
/// # Errors
///
/// `OutOfMemory` where a line or a block found no memory, and `SinkFailed` where the sink failed. A beginning of the
/// report is out then.
pub fn write_state_on<S: Sink, R: Threads + Wait + Sync>(
    rt: &R,
    workers: u32,
    alloc: Global,
    state: &RunState<'_>,
    trace: &Trace,
    out: &mut S,
) -> Result<(), RunError>
    ensures { WritesText (report_with state.now trace.now.events) (S.took out.old)
        (S.failures out.old) result (S.took out.new) (S.failures out.new) }
{
    let mut line = Line::new(alloc);
    let workers = workers.min(MOST_WORKERS) as usize;
    put_state_on(rt, workers, alloc, out, &mut line, state, trace)
}
