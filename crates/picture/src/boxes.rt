ghost use Rattle.std.specs.Prelude.{◌≡◌, ◌≤◌, ◌++◌, OnOk, map};
ghost use Rattle.trace.specs.Traced.{opening_at};
ghost use Rattle.picture.specs.Titles.{told};
ghost use Rattle.picture.specs.Boxes.{box_class, box_text, last_text, line_at, lines_text, outline_text, waited_text};

use crate::elements::{Point, Rectangle, add_rectangle, start_label, wait_mark};
use crate::event_box::EventBox;
use crate::labels::{access, read, times, written};
use crate::layout::{left_of, opens_turn};
use crate::site::Site;
use crate::titles::{site_at, title};
use byte_sources::{Mark, is_serial, mark_of};
use pages::OutOfMemory;
use report_lines::Line;
use trace::Trace;

fn box_class(mark: Mark) -> &'static str
    ensures { result.now ≡ box_class mark }
{
    match mark {
        Mark::Lost => "lost",
        Mark::Unread => "unread",
        Mark::Plain => "box",
    }
}

fn line_at(shown: &EventBox, down: u64) -> Point
    requires { down ≤ 48 }
    ensures { result ≡ line_at shown.now down }
{
    Point {
        x: left_of(shown.event.hart as u64) + 8,
        y: shown.top as u64 + down,
    }
}

#[tactic(auto, unfolding(crate::specs::Boxes::outline_text))]
fn outline(line: &mut Line, mark: Mark, shown: &EventBox) -> Result<(), OutOfMemory>
    ensures { OnOk result (line.new ≡ line.old ++ outline_text mark shown.now) }
{
    let shape = Rectangle {
        x: left_of(shown.event.hart as u64),
        y: shown.top as u64,
        width: 178,
        height: 48,
    };
    add_rectangle(line, box_class(mark), shape)
}

fn last_line(line: &mut Line, shown: &EventBox) -> Result<(), OutOfMemory>
    ensures { OnOk result (line.new ≡ line.old ++ last_text shown.now) }
{
    written(line, &shown.event.access)?;
    times(line, shown.times)
}

/// Adds the three lines of a box.
#[tactic(auto, unfolding(crate::specs::Boxes::lines_text))]
pub fn lines(line: &mut Line, shown: &EventBox) -> Result<(), OutOfMemory>
    ensures { OnOk result (line.new ≡ line.old ++ lines_text shown.now) }
{
    let done = &shown.event.access;
    start_label(line, "line", line_at(shown, 15))?;
    access(line, done)?;
    line.text("</text>\n")?;
    start_label(line, "line", line_at(shown, 28))?;
    read(line, done)?;
    line.text("</text>\n")?;
    let down = if done.loads() { 41 } else { 28 };
    start_label(line, "line", line_at(shown, down))?;
    last_line(line, shown)?;
    line.text("</text>\n")
}

/// Adds a mark where the hart had waited for the event.
#[tactic(auto, unfolding(crate::specs::Boxes::waited_text))]
fn waited(line: &mut Line, earlier: &[EventBox], shown: &EventBox) -> Result<(), OutOfMemory>
    ensures { OnOk result (line.new ≡ line.old ++ waited_text earlier.now shown.now) }
{
    if !is_serial(shown.event.phase) || !opens_turn(earlier, &shown.event) {
        return Ok(());
    }
    let at = Point {
        x: left_of(shown.event.hart as u64) + 6,
        y: (shown.top as u64).saturating_sub(15),
    };
    wait_mark(line, at)
}

/// Adds the box of an event, with its title and its marks.
#[tactic(auto, unfolding(crate::specs::Boxes::box_text))]
pub(crate) fn event_box(
    line: &mut Line,
    trace: &Trace,
    sites: &[Site<'_>],
    earlier: &[EventBox],
    shown: &EventBox,
) -> Result<(), OutOfMemory>
    ensures { OnOk result (line.new ≡ line.old ++ box_text trace.now.events
        (opening_at trace.now.opening) (map told sites.now) earlier.now shown.now) }
{
    line.text("<g>\n")?;
    title(line, &shown.event, &site_at(sites, earlier.len()))?;
    outline(line, mark_of(trace, shown.index), shown)?;
    lines(line, shown)?;
    waited(line, earlier, shown)?;
    line.text("</g>\n")
}
