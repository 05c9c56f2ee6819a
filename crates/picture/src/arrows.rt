ghost use Rattle.std.specs.Prelude.{◌≡◌, ◌≤◌, ◌++◌, OnOk};
ghost use Rattle.picture.specs.Arrows.{arrow_class, arrow_from, arrow_text, arrows_from, arrows_to, curve_between, middle_of, opening_text, right_of};

use crate::elements::{Curve, Point, add_curve, line_down};
use crate::event_box::EventBox;
use crate::layout::left_of;
use byte_sources::{has_index, has_opening, sources};
use pages::OutOfMemory;
use report_lines::Line;
use std::alloc::Global;
use trace::Trace;

fn right_of(hart: u64) -> u64
    requires { hart ≤ 255 }
    ensures { result ≡ right_of hart }
{
    left_of(hart) + 178
}

fn middle_of(shown: &EventBox) -> u64
    ensures { result ≡ middle_of shown.now }
{
    shown.top as u64 + 24
}

/// The curve from one box to another.
fn curve_between(from: &EventBox, to: &EventBox) -> Curve
    ensures { result ≡ curve_between from.now to.now }
{
    let storing = from.event.hart as u64;
    let reading = to.event.hart as u64;
    let (start, leaving, entering, end) = if storing == reading {
        let side = right_of(storing);
        (side, side + 34, side + 34, side)
    } else if storing < reading {
        let (start, end) = (right_of(storing), left_of(reading));
        (start, start + 44, end - 44, end)
    } else {
        let (start, end) = (left_of(storing), right_of(reading));
        (start, start - 44, end + 44, end)
    };
    Curve {
        start: Point {
            x: start,
            y: middle_of(from),
        },
        leaving,
        entering,
        end: Point {
            x: end,
            y: middle_of(to),
        },
    }
}

fn arrow_class(within: bool) -> &'static str
    ensures { result.now ≡ arrow_class within }
{
    if within { "own" } else { "other" }
}

#[tactic(auto, unfolding(crate::specs::Arrows::arrow_text))]
fn arrow(line: &mut Line, from: &EventBox, to: &EventBox) -> Result<(), OutOfMemory>
    ensures { OnOk result (line.new ≡ line.old ++ arrow_text from.now to.now) }
{
    let class = arrow_class(from.event.hart == to.event.hart);
    add_curve(line, class, curve_between(from, to))
}

/// Adds the arrow from one box to another, where the first one has the index of a source.
pub fn arrow_from(
    line: &mut Line,
    found: &[Option<usize>],
    to: &EventBox,
    from: &EventBox,
) -> Result<(), OutOfMemory>
    ensures { OnOk result (line.new ≡ line.old ++ arrow_from found.now to.now from.now) }
{
    if has_index(found, from.index) {
        arrow(line, from, to)
    } else {
        Ok(())
    }
}

/// Adds the arrows to a box from those of the boxes before it that have the index of a source.
fn arrows_from(
    line: &mut Line,
    found: &[Option<usize>],
    to: &EventBox,
    earlier: &[EventBox],
) -> Result<(), OutOfMemory>
    ensures { OnOk result (line.new ≡ line.old ++ arrows_from found.now to.now earlier.now) }
{
    match earlier {
        [] => Ok(()),
        [first, rest @ ..] => {
            arrow_from(line, found, to, first)?;
            arrows_from(line, found, to, rest)
        }
    }
}

/// Adds the arrow from above, where the event read a byte that memory opened with.
#[tactic(auto, unfolding(crate::specs::Arrows::opening_text))]
pub fn opening_arrow(
    line: &mut Line,
    found: &[Option<usize>],
    to: &EventBox,
) -> Result<(), OutOfMemory>
    ensures { OnOk result (line.new ≡ line.old ++ opening_text found.now to.now) }
{
    if !has_opening(found) {
        return Ok(());
    }
    let from = Point {
        x: left_of(to.event.hart as u64) + 26,
        y: (to.top as u64).saturating_sub(15),
    };
    line_down(line, "opening", from, to.top as u64)
}

/// Adds all arrows to a box, from the boxes before it.
pub(crate) fn arrows_to(
    alloc: Global,
    line: &mut Line,
    trace: &Trace,
    earlier: &[EventBox],
    to: &EventBox,
) -> Result<(), OutOfMemory>
    ensures { OnOk result (line.new ≡ line.old ++ arrows_to trace.now.events earlier.now to.now) }
{
    let found = sources(alloc, trace, to.index)?;
    arrows_from(line, &found, to, earlier)?;
    opening_arrow(line, &found, to)
}
