ghost use Rattle.std.specs.Prelude.{◌≡◌, ◌<◌, [], OnOk};
ghost use Rattle.host_io.specs.Taken.{WritesText};
ghost use Rattle.report.specs.Pending.{Puts};
ghost use Rattle.report.specs.RunStates.{state_of, summary_of};
ghost use Rattle.report.specs.Shown.{output_line};

use crate::run_state::RunState;
use crate::state::{put_count, put_end, put_harts, put_head};
use crate::writer::put_line;
use host_io::{RunError, Sink};
use report_lines::Line;
use std::alloc::Global;

/// Writes the report of a state without its events: the harts, memory and the console's output.
///
/// # Errors
///
/// `OutOfMemory` where a line found no memory, and `SinkFailed` where the sink failed. A beginning of the
/// text is out then.
pub fn write_untraced<S: Sink>(
    alloc: Global,
    state: &RunState<'_>,
    out: &mut S,
) -> Result<(), RunError>
    ensures { WritesText (state_of state.now) (S.took out.old) (S.failures out.old) result
        (S.took out.new) (S.failures out.new) }
{
    let mut line = Line::new(alloc);
    put_untraced(out, &mut line, state)
}

fn put_untraced<S: Sink>(out: &mut S, line: &mut Line, state: &RunState<'_>) -> Result<(), RunError>
    ensures wrote { Puts S.took S.failures (state_of state.now) out.old line.old result out.new
        line.new }
    ensures empty { OnOk result (line.new ≡ []) }
{
    put_head(out, line, state)?;
    put_end(out, line)
}

/// Writes the lines of the rounds and the harts, and how many bytes of output there are.
///
/// # Errors
///
/// Those of `write_untraced`.
pub fn write_summary<S: Sink>(
    alloc: Global,
    state: &RunState<'_>,
    out: &mut S,
) -> Result<(), RunError>
    ensures { WritesText (summary_of state.now) (S.took out.old) (S.failures out.old) result
        (S.took out.new) (S.failures out.new) }
{
    let mut line = Line::new(alloc);
    put_summary(out, &mut line, state)
}

fn put_summary<S: Sink>(out: &mut S, line: &mut Line, state: &RunState<'_>) -> Result<(), RunError>
    ensures wrote { Puts S.took S.failures (summary_of state.now) out.old line.old result out.new
        line.new }
    ensures empty { OnOk result (line.new ≡ []) }
{
    put_count(out, line, "rounds ", state.rounds as u64)?;
    put_harts(out, line, state.harts)?;
    put_output_line(out, line, state.output)
}

/// Puts the line of how many bytes of output there are, and all that was to be put before it.
fn put_output_line<S: Sink>(out: &mut S, line: &mut Line, output: &[u8]) -> Result<(), RunError>
    ensures wrote { Puts S.took S.failures (output_line output.now) out.old line.old result out.new
        line.new }
    ensures empty { OnOk result (line.new ≡ []) }
{
    put_count(out, line, "output ", output.len() as u64)?;
    put_line(out, line)
}
