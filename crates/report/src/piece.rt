//! A piece of a report: some of the lines of memory, or of those of the events.

ghost use Rattle.std.specs.Prelude.{◌≡◌, ◌*◌, [], OnOk};
ghost use Rattle.report.specs.Blocks.{block_text, pages_text, piece_text};

use pages::{OutOfMemory, Pages};
use report_lines::{Line, Tail, event_line, page_lines};
use trace::Trace;

/// How many events a piece has, if so many are left.
pub(crate) const EVENTS: usize = 1_024;

/// Which lines one worker formats at a time.
#[derive(Clone, Copy, PartialEq)]
pub(crate) enum Piece {
    /// Those of so many pages from one on, or of those that are left.
    Pages { first: u32, count: u32 },
    /// Those of 1,024 events from an index on, or of those that are left.
    Events { start: usize },
}

impl Piece {
    /// Adds its lines.
    pub(crate) fn add_to(
        self,
        line: &mut Line,
        pages: &Pages,
        trace: &Trace,
    ) -> Result<(), OutOfMemory>
        requires { line.old ≡ [] }
        ensures { OnOk result (line.new ≡
            piece_text pages.now.memory.bytes trace.now.events self) }
    {
        match self {
            Piece::Pages { first, count } => add_pages(line, pages, first, count),
            Piece::Events { start } => add_events(line, trace, start),
        }
    }
}

/// Adds the lines of so many pages from one on.
fn add_pages(line: &mut Line, pages: &Pages, first: u32, count: u32) -> Result<(), OutOfMemory>
    requires { line.old ≡ [] }
    ensures { OnOk result (line.new ≡ pages_text pages.now.memory.bytes first count) }
{
    for page in first..first.saturating_add(count).min(pages.count()) {
        page_lines(line, pages, page)?;
    }
    Ok(())
}

/// Adds the lines of the events from an index on.
fn add_events(line: &mut Line, trace: &Trace, start: usize) -> Result<(), OutOfMemory>
    requires { line.old ≡ [] }
    ensures { OnOk result (line.new ≡ block_text trace.now.events start) }
{
    let mut tail = Tail::new();
    for event in trace.events_from(start).take(EVENTS) {
        event_line(line, &mut tail, &event)?;
    }
    Ok(())
}
