//! How one worker puts the blocks in order, and formats some while the next one isn't done.

ghost use Rattle.std.specs.Prelude.{◌≡◌, ◌/◌, [], IfOk, OnOk, length};
ghost use Rattle.report.specs.Blocks.{body_text, middle_text, piece_text};
ghost use Rattle.report.specs.Pending.{Puts};
ghost use Rattle.report.specs.Report.{events_text};
ghost use Rattle.report_lines.specs.Rows.{memory_rows};

use crate::block::PutBody;
use crate::formatting::{Formatting, Turn};
use crate::piece::{EVENTS, Piece};
use crate::state::{put_count, put_output};
use crate::writer::put_line;
use host_io::{RunError, Sink, put_all};
use pages::OutOfMemory;
use report_lines::Line;
use std::alloc::Global;
use std::sync::Wait;

/// The lines of the next block to be put. Until another worker has formatted it, the calling thread formats blocks too.
fn next_lines<B: PutBody, R: Wait>(
    rt: &R,
    formatting: &Formatting<'_, B>,
    piece: Piece,
) -> Result<Line, OutOfMemory>
    ensures { IfOk result (λ l. l ≡ piece_text B.bytes B.events piece) }
{
    for _ in rt.forever() {
        match formatting.turn(rt) {
            Turn::Put(block) => return formatting.lines_of(piece, block?),
            Turn::Format(claim) => formatting.format_and_lay(rt, claim),
            Turn::Nothing => {}
        }
    }
    Err(OutOfMemory)
}

/// Puts lines that were formatted.
fn put_lines<S: Sink>(out: &mut S, lines: &Line) -> Result<(), RunError>
    ensures { Puts S.took S.failures lines.now out.old [] result out.new [] }
{
    put_all(out, lines.as_bytes())
}

/// Puts the next block, which is to be that of a piece.
fn put_block<B: PutBody, S: Sink, R: Wait>(
    rt: &R,
    formatting: &Formatting<'_, B>,
    out: &mut S,
    piece: Piece,
) -> Result<(), RunError>
    ensures { Puts S.took S.failures (piece_text B.bytes B.events piece) out.old [] result
        out.new [] }
{
    let lines = next_lines::<B, R>(rt, formatting, piece)?;
    put_lines(out, &lines)?;
    formatting.count(rt, lines);
    Ok(())
}

/// Puts the lines of memory.
fn put_memory_blocks<B: PutBody, S: Sink, R: Wait>(
    rt: &R,
    formatting: &Formatting<'_, B>,
    out: &mut S,
) -> Result<(), RunError>
    ensures { Puts S.took S.failures (memory_rows 0 B.bytes (length B.bytes / 16)) out.old [] result
        out.new [] }
{
    let count = formatting.page_step();
    let mut first = 0;
    while first < formatting.page_count() {
        put_block::<B, S, R>(rt, formatting, out, Piece::Pages { first, count })?;
        first += count;
    }
    Ok(())
}

/// Puts the lines of the events.
fn put_event_blocks<B: PutBody, S: Sink, R: Wait>(
    rt: &R,
    formatting: &Formatting<'_, B>,
    out: &mut S,
) -> Result<(), RunError>
    ensures { Puts S.took S.failures (events_text B.events) out.old [] result out.new [] }
{
    for number in 0..formatting.event_count().div_ceil(EVENTS) {
        let start = EVENTS * number;
        put_block::<B, S, R>(rt, formatting, out, Piece::Events { start })?;
    }
    Ok(())
}

/// Puts the output, and how many events there are.
fn put_between<S: Sink>(
    out: &mut S,
    line: &mut Line,
    output: &[u8],
    events: usize,
) -> Result<(), RunError>
    ensures wrote { Puts S.took S.failures (middle_text output.now events) out.old line.old result
        out.new line.new }
    ensures empty { OnOk result (line.new ≡ []) }
{
    put_output(out, line, output)?;
    put_count(out, line, "trace ", events as u64)?;
    put_line(out, line)
}

/// Puts what stands between the lines of memory and those of the events. Other workers format events meanwhile.
fn put_middle<S: Sink>(
    alloc: Global,
    out: &mut S,
    output: &[u8],
    events: usize,
) -> Result<(), RunError>
    ensures { Puts S.took S.failures (middle_text output.now events) out.old [] result out.new [] }
{
    let mut line = Line::new(alloc);
    put_between(out, &mut line, output, events)
}

/// Puts all blocks in order.
fn put_in_order<B: PutBody, S: Sink, R: Wait>(
    rt: &R,
    formatting: &Formatting<'_, B>,
    out: &mut S,
) -> Result<(), RunError>
    ensures { Puts S.took S.failures (body_text B.bytes B.output B.events) out.old [] result
        out.new [] }
{
    put_memory_blocks::<B, S, R>(rt, formatting, out)?;
    put_middle(
        formatting.allocator(),
        out,
        formatting.output(),
        formatting.event_count(),
    )?;
    put_event_blocks::<B, S, R>(rt, formatting, out)
}

/// Puts all blocks in order, and ends the work of all workers, also where memory or the sink refuses.
pub(crate) fn put_all_blocks<B: PutBody, S: Sink, R: Wait>(
    rt: &R,
    formatting: &Formatting<'_, B>,
    out: &mut S,
) -> Result<(), RunError>
    ensures { Puts S.took S.failures (body_text B.bytes B.output B.events) out.old [] result
        out.new [] }
{
    let result = put_in_order::<B, S, R>(rt, formatting, out);
    formatting.end(rt);
    result
}
