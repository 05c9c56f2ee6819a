ghost use Rattle.std.specs.Prelude.{◌≡◌, ◌⊎◌, ◌≤◌, ◌<◌, Err, IfErr, length};
ghost use Rattle.host_io.specs.declared.error.RunError.TheVariants as refusals;

use crate::boxes::{moving, operation_box, reading};
use crate::layout::{MOST, OperationBox, bottom_of, boxes_of};
use crate::legend::{LEGEND, STYLE};
use crate::scene::ExecutionScene;
use hart_step::Hart;
use host_io::{RunError, Sink, put_all};
use pages::OutOfMemory;
use picture::{
    Point, add_line_down, add_page, add_start, left_of, picture_style, start_label, width_for,
};
use report_lines::{Line, add_stop};
use round_schedule::MOST_HARTS;
use std::alloc::Global;

/// Adds the column of a hart, as it ends.
fn column(line: &mut Line, bottom: u64, number: u64, hart: &Hart) -> Result<(), OutOfMemory>
    requires { number ≤ 255 }
{
    let left = left_of(number);
    start_label(line, "head", Point { x: left, y: 156 })?;
    line.text("hart ")?;
    line.decimal(number)?;
    line.text("</text>\n")?;
    let top = Point {
        x: left + 89,
        y: 164,
    };
    add_line_down(line, "column", top, bottom.saturating_add(18))?;
    let below = Point {
        x: left,
        y: bottom.saturating_add(34),
    };
    start_label(line, "label", below)?;
    add_stop(line, hart.stop)?;
    line.text("</text>\n")
}

/// Adds how many boxes are left out, where there are any.
fn rest(line: &mut Line, bottom: u64, left_out: usize) -> Result<(), OutOfMemory> {
    if left_out == 0 {
        return Ok(());
    }
    let at = Point {
        x: 10,
        y: bottom.saturating_add(58),
    };
    start_label(line, "label", at)?;
    line.decimal(left_out as u64)?;
    line.text(" boxes are left out</text>\n")
}

/// Adds what stands under the boxes: the page, what its marks mean, and the columns.
fn ground(line: &mut Line, scene: &ExecutionScene<'_>, bottom: u64) -> Result<(), OutOfMemory>
    requires { length scene.now.harts.now ≤ MOST_HARTS }
{
    let width = width_for(scene.harts.len());
    let height = bottom.saturating_add(74);
    add_start(line, width, height)?;
    line.text(picture_style())?;
    line.text(STYLE)?;
    add_page(line, width, height)?;
    line.text(LEGEND)?;
    for number in 0..scene.harts.len() {
        column(line, bottom, number as u64, &scene.harts[number])?;
    }
    Ok(())
}

/// Adds the boxes with their arrows. What comes later covers what came before.
fn operations(
    alloc: Global,
    line: &mut Line,
    scene: &ExecutionScene<'_>,
    boxes: &[OperationBox<'_>],
) -> Result<(), OutOfMemory> {
    for drawn in boxes {
        reading(alloc, line, scene, boxes, drawn)?;
    }
    for drawn in boxes {
        moving(line, boxes, drawn)?;
    }
    for drawn in boxes {
        operation_box(line, drawn)?;
    }
    Ok(())
}

/// The picture as text.
fn picture(alloc: Global, scene: &ExecutionScene<'_>) -> Result<Line, OutOfMemory>
    requires { length scene.now.harts.now ≤ MOST_HARTS }
{
    let mut line = Line::new(alloc);
    let boxes = boxes_of(alloc, scene)?;
    let bottom = bottom_of(&boxes);
    ground(&mut line, scene, bottom)?;
    operations(alloc, &mut line, scene, &boxes)?;
    rest(
        &mut line,
        bottom,
        scene.positions.len().saturating_sub(MOST),
    )?;
    line.text("</svg>\n")?;
    Ok(line)
}

/// Writes a picture of an execution, as SVG.
///
/// Each hart has a column, and each operation that is drawn a box, at most 400 of them, one below the other in the order of memory; its
/// position in that order stands at the left. Each store has an arrow to each operation that read a byte of it, and an operation
/// that read what memory opened with has a short one from above. An operation that is out of its hart's order has a box of its own
/// kind, and a line to where the program has it. Below each column stands how the hart ended, or `running`.
///
/// What is drawn is proved of nothing.
///
/// # Errors
///
/// `OutOfMemory`: nothing is written then. `SinkFailed`: a beginning of the picture is.
pub fn write_execution_picture<S: Sink>(
    alloc: Global,
    scene: &ExecutionScene<'_>,
    out: &mut S,
) -> Result<(), RunError>
    requires { length scene.now.harts.now ≤ MOST_HARTS }
    ensures errors { IfErr result (λ e. (e ≡ refusals.OutOfMemory) ⊎ (e ≡ refusals.SinkFailed)) }
    ensures sink { result ≡ Err refusals.SinkFailed → S.failures out.old < S.failures out.new }
    ensures memory { result ≡ Err refusals.OutOfMemory → S.took out.new ≡ S.took out.old }
{
    let line = picture(alloc, scene)?;
    put_all(out, line.as_bytes())
}
