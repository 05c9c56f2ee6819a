ghost use Rattle.std.specs.Prelude.{◌≡◌, ◌≤◌, ◌<◌, ◌++◌, ◌+◌, ◌^◌, [], Err, OnOk, length, map};
ghost use Rattle.host_io.specs.Taken.{WritesText};
ghost use Rattle.trace.specs.Traced.{opening_at};
ghost use Rattle.picture.specs.Arrows.{arrows_to};
ghost use Rattle.picture.specs.Bands.{band_at};
ghost use Rattle.picture.specs.Boxes.{box_text};
ghost use Rattle.picture.specs.Titles.{told};
ghost use Rattle.picture.specs.Layout.{each_with_earlier};
ghost use Rattle.picture.specs.Picture.{drawing_text, drawn_of, page_text, picture_text, rest_text, start_text, view_box_text};

use crate::arrows::arrows_to;
use crate::bands::{band_at, columns};
use crate::boxes::event_box;
use crate::elements::{Point, Rectangle, add_rectangle, attribute, start_label};
use crate::event_box::EventBox;
use crate::layout::{boxes_of, last_top, width_for};
use crate::rows::{MOST, rows_seen};
use crate::scene::Scene;
use crate::site::Site;
use crate::style::{legend, root, start_of_view_box, style};
use crate::view::View;
use host_io::{RunError, Sink, put_all};
use pages::OutOfMemory;
use report_lines::Line;
use round_schedule::MOST_HARTS;
use std::alloc::Global;
use trace::Trace;

#[tactic(auto, unfolding(crate::specs::Picture::view_box_text))]
fn view_box(line: &mut Line, width: u64, height: u64) -> Result<(), OutOfMemory>
    ensures { OnOk result (line.new ≡ line.old ++ view_box_text width height) }
{
    line.text(start_of_view_box())?;
    line.decimal(width)?;
    line.text(" ")?;
    line.decimal(height)?;
    line.text("'>\n")
}

#[tactic(auto, unfolding(crate::specs::Picture::start_text))]
pub fn start(line: &mut Line, width: u64, height: u64) -> Result<(), OutOfMemory>
    ensures { OnOk result (line.new ≡ line.old ++ start_text width height) }
{
    line.text(root())?;
    attribute(line, " width='", width)?;
    attribute(line, " height='", height)?;
    view_box(line, width, height)
}

#[tactic(auto, unfolding(crate::specs::Picture::page_text))]
pub fn page(line: &mut Line, width: u64, height: u64) -> Result<(), OutOfMemory>
    ensures { OnOk result (line.new ≡ line.old ++ page_text width height) }
{
    let shape = Rectangle {
        x: 0,
        y: 0,
        width,
        height,
    };
    add_rectangle(line, "page", shape)
}

#[tactic(auto, unfolding(crate::specs::Picture::rest_text))]
fn rest(line: &mut Line, bottom: u64, left_out: usize) -> Result<(), OutOfMemory>
    requires { bottom < 2 ^ 33 }
    ensures { OnOk result (line.new ≡ line.old ++ rest_text bottom left_out) }
{
    if left_out == 0 {
        return Ok(());
    }
    let at = Point {
        x: 10,
        y: bottom + 58,
    };
    start_label(line, "label", at)?;
    line.decimal(left_out as u64)?;
    line.text(" boxes are left out")?;
    line.text("</text>\n")
}

fn bands(line: &mut Line, width: u64, boxes: &[EventBox]) -> Result<(), OutOfMemory>
    ensures { OnOk result (line.new ≡
        line.old ++ each_with_earlier (band_at width boxes.now) [] boxes.now) }
{
    for (number, shown) in boxes.iter().enumerate() {
        band_at(line, width, boxes, &boxes[..number], shown)?;
    }
    Ok(())
}

fn arrows(
    alloc: Global,
    line: &mut Line,
    trace: &Trace,
    boxes: &[EventBox],
) -> Result<(), OutOfMemory>
    ensures { OnOk result (line.new ≡
        line.old ++ each_with_earlier (arrows_to trace.now.events) [] boxes.now) }
{
    for (number, shown) in boxes.iter().enumerate() {
        arrows_to(alloc, line, trace, &boxes[..number], shown)?;
    }
    Ok(())
}

fn event_boxes(
    line: &mut Line,
    trace: &Trace,
    sites: &[Site<'_>],
    boxes: &[EventBox],
) -> Result<(), OutOfMemory>
    ensures { OnOk result (line.new ≡ line.old ++ each_with_earlier
        (box_text trace.now.events (opening_at trace.now.opening) (map told sites.now)) []
        boxes.now) }
{
    for (number, shown) in boxes.iter().enumerate() {
        event_box(line, trace, sites, &boxes[..number], shown)?;
    }
    Ok(())
}

#[tactic(auto, unfolding(crate::specs::Picture::drawing_text))]
fn drawing(
    alloc: Global,
    line: &mut Line,
    scene: &Scene<'_>,
    from: u32,
    boxes: &[EventBox],
    left_out: usize,
) -> Result<(), OutOfMemory>
    requires { length scene.now.starts.now ≤ MOST_HARTS }
    ensures { OnOk result (line.new ≡
        line.old ++ drawing_text (drawn_of scene.now) from boxes.now left_out) }
{
    let width = width_for(scene.starts.len());
    let bottom = last_top(boxes) + 48;
    start(line, width, bottom + 74)?;
    line.text(style())?;
    page(line, width, bottom + 74)?;
    line.text(legend())?;
    bands(line, width, boxes)?;
    columns(line, bottom, from, 0, scene.starts, scene.ends)?;
    arrows(alloc, line, scene.trace, boxes)?;
    event_boxes(line, scene.trace, scene.sites, boxes)?;
    rest(line, bottom, left_out)?;
    line.text("</svg>\n")
}

fn picture(
    alloc: Global,
    line: &mut Line,
    scene: &Scene<'_>,
    view: &View<'_>,
) -> Result<(), OutOfMemory>
    requires { length scene.now.starts.now ≤ MOST_HARTS }
    ensures { OnOk result (line.new ≡ line.old ++ picture_text (drawn_of scene.now) view.now) }
{
    let mut rows = rows_seen(alloc, view, scene.trace)?;
    let left_out = rows.len().saturating_sub(MOST);
    rows.truncate(MOST);
    let boxes = boxes_of(alloc, scene.trace, &rows)?;
    drawing(alloc, line, scene, view.from, &boxes, left_out)
}

/// Writes a picture of a run, as SVG.
///
/// Each hart has a column, and each round a band, its parallel phase above its serial phase. Each event that the view shows is a box, at
/// most 400 of them; loads in a row that do the same are one box, with their number. Program order goes from top to bottom. Each store
/// has an arrow to each event that read a byte of it, and an event that read what memory opened with has a short one from above.
///
/// A store is marked that another hart overwrote and nobody read, and that wrote something else than what its hart saw there: so a
/// lost update looks. One that its own hart overwrote, and nobody read, has a weaker mark. So has the first event of a hart that had
/// waited for the serial phase of a round. Below each column stands what the hart was at the end of the rounds that are drawn: `running`,
/// or why it stopped in one of them.
///
/// # Errors
///
/// `OutOfMemory`: nothing is written then. `SinkFailed`: a beginning of the picture is.
pub fn write_picture<S: Sink>(
    alloc: Global,
    scene: &Scene<'_>,
    view: &View<'_>,
    out: &mut S,
) -> Result<(), RunError>
    requires { length scene.now.starts.now ≤ MOST_HARTS }
    ensures writes { WritesText (picture_text (drawn_of scene.now) view.now) (S.took out.old)
        (S.failures out.old) result (S.took out.new) (S.failures out.new) }
    ensures memory { result ≡ Err RunError.OutOfMemory → S.took out.new ≡ S.took out.old }
{
    let mut line = Line::new(alloc);
    picture(alloc, &mut line, scene, view)?;
    put_all(out, line.as_bytes())
}
