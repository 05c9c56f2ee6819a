ghost use Rattle.std.specs.Prelude.{◌≡◌, Err};
ghost use Rattle.host_io.specs.Taken.{WritesText};
ghost use Rattle.report_lines.specs.Text.{event_text, hart_text};

use hart_step::Hart;
use host_io::{RunError, Sink, put_all};
use report_lines::{Line, Tail, event_line, hart_lines};
use round_schedule::Event;
use std::alloc::Global;

/// Writes a hart's lines: its state, and its registers 1 to 31 that are not 0.
///
/// # Errors
///
/// `OutOfMemory`: nothing is written then. `SinkFailed`: a beginning of the lines is.
pub fn write_hart<S: Sink>(
    alloc: Global,
    number: u32,
    hart: &Hart,
    out: &mut S,
) -> Result<(), RunError>
    ensures writes { WritesText (hart_text number hart.now) (S.took out.old) (S.failures out.old)
        result (S.took out.new) (S.failures out.new) }
    ensures memory { result ≡ Err RunError.OutOfMemory → S.took out.new ≡ S.took out.old }
{
    let mut line = Line::new(alloc);
    hart_lines(&mut line, number as u64, hart)?;
    put_all(out, line.as_bytes())
}

/// Writes an event's line.
///
/// # Errors
///
/// `OutOfMemory`: nothing is written then. `SinkFailed`: a beginning of the line is.
pub fn write_event<S: Sink>(alloc: Global, event: &Event, out: &mut S) -> Result<(), RunError>
    ensures writes { WritesText (event_text event.now) (S.took out.old) (S.failures out.old) result
        (S.took out.new) (S.failures out.new) }
    ensures memory { result ≡ Err RunError.OutOfMemory → S.took out.new ≡ S.took out.old }
{
    let mut line = Line::new(alloc);
    event_line(&mut line, &mut Tail::new(), event)?;
    put_all(out, line.as_bytes())
}
