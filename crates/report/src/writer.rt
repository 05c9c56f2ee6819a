ghost use Rattle.std.specs.Prelude.{◌≡◌, [], OnOk};
ghost use Rattle.report.specs.Pending.{Puts};

use host_io::{RunError, Sink, put_all};
use report_lines::Line;

/// How many bytes a line may have before it is put.
const LONG: usize = 32_768;

/// Puts the line, which is empty then.
///
/// # Errors
///
/// `SinkFailed`: a beginning of the line is out then.
pub fn put_line<S: Sink>(out: &mut S, line: &mut Line) -> Result<(), RunError>
    ensures wrote { Puts S.took S.failures [] out.old line.old result out.new line.new }
    ensures empty { OnOk result (line.new ≡ []) }
{
    put_all(out, line.as_bytes())?;
    line.clear();
    Ok(())
}

/// Puts the line if it is long.
///
/// # Errors
///
/// `SinkFailed`.
pub fn put_long<S: Sink>(out: &mut S, line: &mut Line) -> Result<(), RunError>
    ensures { Puts S.took S.failures [] out.old line.old result out.new line.new }
{
    if line.as_bytes().len() < LONG {
        return Ok(());
    }
    put_line(out, line)
}
