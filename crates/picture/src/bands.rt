ghost use Rattle.std.specs.Prelude.{◌≡◌, ◌≤◌, ◌++◌, ◌+◌, ◌<◌, ◌^◌, OnOk, length};
ghost use Rattle.picture.specs.Bands.{band_at, band_text, column_text, columns_text, end_text, phase_text, stopped_before_text};

use crate::elements::{Point, Rectangle, add_rectangle, line_down, start_label};
use crate::event_box::EventBox;
use crate::layout::{last_top_of_phase, left_of, opens_phase};
use hart_step::{Hart, Stop};
use pages::OutOfMemory;
use report_lines::{Line, add_stop};
use round_schedule::{MOST_HARTS, Phase};

fn phase_name(phase: Phase) -> &'static str
    ensures { result.now ≡ phase_text phase }
{
    match phase {
        Phase::Parallel => "parallel",
        Phase::Serial => "serial",
    }
}

/// Adds the band of a phase that begins with a box, down to the top of its last box.
#[tactic(auto, unfolding(crate::specs::Bands::band_text))]
fn band(line: &mut Line, width: u64, last: u64, first: &EventBox) -> Result<(), OutOfMemory>
    requires { last < 2 ^ 32 }
    ensures { OnOk result (line.new ≡ line.old ++ band_text width last first.now) }
{
    let name = phase_name(first.event.phase);
    let top = first.top as u64;
    let shape = Rectangle {
        x: 0,
        y: top.saturating_sub(22),
        width,
        height: (last + 76).saturating_sub(top),
    };
    let round_at = Point { x: 10, y: top + 14 };
    let phase_at = Point { x: 10, y: top + 30 };
    add_rectangle(line, name, shape)?;
    start_label(line, "label", round_at)?;
    line.text("round ")?;
    line.decimal(first.event.round as u64)?;
    line.text("</text>\n")?;
    start_label(line, "label", phase_at)?;
    line.text(name)?;
    line.text("</text>\n")
}

/// Adds the band of a box's phase, where the box is the first of it.
pub(crate) fn band_at(
    line: &mut Line,
    width: u64,
    all: &[EventBox],
    earlier: &[EventBox],
    shown: &EventBox,
) -> Result<(), OutOfMemory>
    ensures { OnOk result (line.new ≡ line.old ++ band_at width all.now earlier.now shown.now) }
{
    if !opens_phase(earlier, &shown.event) {
        return Ok(());
    }
    band(line, width, last_top_of_phase(all, &shown.event), shown)
}

/// Adds that a hart had stopped before a round.
fn stopped_before(line: &mut Line, round: u32) -> Result<(), OutOfMemory>
    ensures { OnOk result (line.new ≡ line.old ++ stopped_before_text round) }
{
    line.text("stopped before round ")?;
    line.decimal(round as u64)
}

/// Adds what a hart is at the end of the rounds that are drawn.
fn ending(
    line: &mut Line,
    from: u32,
    start: Option<Stop>,
    end: Option<Stop>,
) -> Result<(), OutOfMemory>
    ensures { OnOk result (line.new ≡ line.old ++ end_text from start end) }
{
    match start {
        None => add_stop(line, end),
        Some(_) => stopped_before(line, from),
    }
}

/// Adds the column of a hart, as it is before the rounds that are drawn, and at their end.
#[tactic(auto, unfolding(crate::specs::Bands::column_text))]
fn column(
    line: &mut Line,
    bottom: u64,
    from: u32,
    number: u64,
    start: &Hart,
    end: &Hart,
) -> Result<(), OutOfMemory>
    requires low { bottom < 2 ^ 33 }
    requires number { number ≤ 255 }
    ensures { OnOk result (line.new ≡
        line.old ++ column_text bottom from number start.now end.now) }
{
    let left = left_of(number);
    start_label(line, "head", Point { x: left, y: 202 })?;
    line.text("hart ")?;
    line.decimal(number)?;
    line.text("</text>\n")?;
    let top = Point {
        x: left + 89,
        y: 210,
    };
    line_down(line, "column", top, bottom + 18)?;
    let below = Point {
        x: left,
        y: bottom + 34,
    };
    start_label(line, "label", below)?;
    ending(line, from, start.stop, end.stop)?;
    line.text("</text>\n")
}

/// Adds the columns of harts, the first of which has a number.
pub(crate) fn columns(
    line: &mut Line,
    bottom: u64,
    from: u32,
    number: u64,
    starts: &[Hart],
    ends: &[Hart],
) -> Result<(), OutOfMemory>
    requires low { bottom < 2 ^ 33 }
    requires few { number + length starts.now ≤ MOST_HARTS }
    ensures { OnOk result (line.new ≡
        line.old ++ columns_text bottom from number starts.now ends.now) }
{
    match starts {
        [] => Ok(()),
        [start, later_starts @ ..] => match ends {
            [] => Ok(()),
            [end, later_ends @ ..] => {
                column(line, bottom, from, number, start, end)?;
                columns(line, bottom, from, number + 1, later_starts, later_ends)
            }
        },
    }
}
