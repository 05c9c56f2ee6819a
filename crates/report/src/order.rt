ghost use Rattle.std.specs.Prelude.{◌≡◌, ℕ, ◌⊎◌, ◌<◌, ◌++◌, [], All, Bool, Err, IfErr, List, OnErr, OnOk, codes, length, true};
ghost use Rattle.host_io.specs.Taken.{BeganText};
ghost use Rattle.round_schedule.specs.RoundTrace.{IsRoundTrace};
ghost use Rattle.memory_order.specs.Rvwmo.{MeetsRvwmo};
ghost use Rattle.trace.specs.Traced.{opening_at};
ghost use Rattle.report.specs.Order.{IsCheckedOrder, checked_text, order_text, indexed_text};
ghost use Rattle.report.specs.Pending.{Puts};

use crate::state::{put_count, put_event};
use crate::writer::put_line;
use host_io::{RunError, Sink};
use memory_order::{check_order, memory_order};
use report_lines::{Line, Tail};
use std::alloc::Global;
use trace::Trace;

fn put_indexed<S: Sink>(
    out: &mut S,
    line: &mut Line,
    trace: &Trace,
    indexes: &[usize],
) -> Result<(), RunError>
    requires { All (λ index. index < length trace.now.events) indexes.now }
    ensures { Puts S.took S.failures (indexed_text trace.now.events indexes.now) out.old line.old
        result out.new line.new }
{
    let mut tail = Tail::new();
    for index in indexes {
        put_event(out, line, &mut tail, &trace.event(*index))?;
    }
    Ok(())
}

fn put_checked<S: Sink>(out: &mut S, line: &mut Line, checked: bool) -> Result<(), RunError>
    ensures wrote { Puts S.took S.failures (checked_text checked) out.old line.old result out.new
        line.new }
    ensures empty { OnOk result (line.new ≡ []) }
{
    line.text(checked_line(checked))?;
    put_line(out, line)
}

fn checked_line(checked: bool) -> &'static str
    ensures { result.now ≡ checked_text checked }
{
    if checked {
        "checked yes\n"
    } else {
        "checked no\n"
    }
}

fn put_order<S: Sink>(
    out: &mut S,
    line: &mut Line,
    trace: &Trace,
    indexes: &[usize],
    checked: bool,
) -> Result<(), RunError>
    requires { All (λ index. index < length trace.now.events) indexes.now }
    ensures wrote { Puts S.took S.failures (order_text trace.now.events indexes.now checked) out.old
        line.old result out.new line.new }
    ensures empty { OnOk result (line.new ≡ []) }
{
    put_count(out, line, "order ", indexes.len() as u64)?;
    put_indexed(out, line, trace, indexes)?;
    put_checked(out, line, checked)
}

/// Writes an order of the memory operations of a trace, and whether it meets RVWMO: a line `order` with the number of
/// operations, the line of each event in their order, and `checked yes` or `checked no`.
///
/// The order is that of `memory_order`, and `check_order` decides the answer, from the events and the opening bytes
/// alone. The trace of a run in rounds is answered by `checked yes`.
///
/// # Errors
///
/// `OutOfMemory` where the order, the check or a line found no memory, and `SinkFailed` where the sink failed. Nothing or
/// a beginning of the text is out then.
pub fn write_order<S: Sink>(alloc: Global, trace: &Trace, out: &mut S) -> Result<(), RunError>
    ensures ok { OnOk result ((g : List ℕ) × (yes : Bool) × IsCheckedOrder trace.now g yes ×
        (S.took out.new ≡ S.took out.old ++ order_text trace.now.events g yes)) }
    // The text of a trace of rounds says that its order meets RVWMO, and it does.
    ensures meets { (budget : ℕ) → IsRoundTrace trace.now.events (opening_at trace.now.opening)
        budget → OnOk result ((g : List ℕ) × IsCheckedOrder trace.now g true ×
        MeetsRvwmo trace.now.events (opening_at trace.now.opening) g ×
        (S.took out.new ≡ S.took out.old ++ order_text trace.now.events g true)) }
    ensures begun { OnErr result ((S.took out.new ≡ S.took out.old) ⊎
        ((g : List ℕ) × (yes : Bool) × IsCheckedOrder trace.now g yes ×
        BeganText (S.took out.old) (S.took out.new) (order_text trace.now.events g yes))) }
    ensures sink { result ≡ Err RunError.SinkFailed → S.failures out.old < S.failures out.new }
    ensures errors { IfErr result (λ e. (e ≡ RunError.OutOfMemory) ⊎ (e ≡ RunError.SinkFailed)) }
{
    let order = memory_order(alloc, trace)?;
    let yes = check_order(alloc, trace, &order)?;
    let mut line = Line::new(alloc);
    put_order(out, &mut line, trace, &order.0, yes)
}
