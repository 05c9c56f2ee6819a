//! The box of an operation, and its lines to others.

use crate::homes::Home;
use crate::layout::OperationBox;
use crate::scene::ExecutionScene;
use crate::sources::sources_of;
use crate::strays::Stray;
use pages::OutOfMemory;
use picture::{
    Curve, Point, Rectangle, add_arrow_from, add_curve, add_lines, add_object, add_opening_arrow,
    add_pc, add_rectangle, left_of, start_label,
};
use report_lines::Line;
use std::alloc::Global;

/// Adds the title of a box, which a viewer shows where it is pointed at.
fn title(line: &mut Line, drawn: &OperationBox<'_>) -> Result<(), OutOfMemory> {
    line.text("<title>position ")?;
    line.decimal(drawn.position as u64)?;
    line.text(" hart ")?;
    line.decimal(drawn.shown.event.hart as u64)?;
    line.text(" place ")?;
    line.decimal(drawn.shown.event.access.place())?;
    add_pc(line, drawn.site.pc)?;
    add_object(line, drawn.site.object)?;
    if let Some(home) = drawn.home {
        belongs(line, &home)?;
    }
    line.text("</title>\n")
}

/// Adds where the program has an operation that is out of order.
fn belongs(line: &mut Line, home: &Home) -> Result<(), OutOfMemory> {
    line.text(match home.stray {
        Stray::Late => ", late: the program has it before place ",
        Stray::Early => ", early: the program has it behind place ",
    })?;
    line.decimal(home.number)
}

/// Adds the box of an operation, with its title, and its position beside it.
pub(crate) fn operation_box(line: &mut Line, drawn: &OperationBox<'_>) -> Result<(), OutOfMemory> {
    let top = drawn.shown.top as u64;
    line.text("<g>\n")?;
    title(line, drawn)?;
    let shape = Rectangle {
        x: left_of(drawn.shown.event.hart as u64),
        y: top,
        width: 178,
        height: 48,
    };
    let class = if drawn.home.is_some() { "moved" } else { "box" };
    add_rectangle(line, class, shape)?;
    add_lines(line, &drawn.shown)?;
    start_label(line, "label", Point { x: 10, y: top + 28 })?;
    line.decimal(drawn.position as u64)?;
    line.text("</text>\n</g>\n")
}

/// Adds the arrows to a box from the boxes of what its operation read.
pub(crate) fn reading(
    alloc: Global,
    line: &mut Line,
    scene: &ExecutionScene<'_>,
    boxes: &[OperationBox<'_>],
    drawn: &OperationBox<'_>,
) -> Result<(), OutOfMemory> {
    let shown = &drawn.shown;
    let found = sources_of(alloc, scene, drawn.position, shown.index, &shown.event)?;
    for other in boxes {
        add_arrow_from(line, &found, shown, &other.shown)?;
    }
    add_opening_arrow(line, &found, shown)
}

/// Adds the line from a box that is out of its hart's order to where the program has it, where its neighbour there is drawn.
pub(crate) fn moving(
    line: &mut Line,
    boxes: &[OperationBox<'_>],
    drawn: &OperationBox<'_>,
) -> Result<(), OutOfMemory> {
    let Some(home) = drawn.home else {
        return Ok(());
    };
    for other in boxes {
        if other.shown.index == home.neighbour {
            return way_home(line, drawn, home_level(home.stray, other));
        }
    }
    Ok(())
}

/// How far from the top the program has an operation, between its neighbour's box and the next one.
fn home_level(stray: Stray, neighbour: &OperationBox<'_>) -> u64 {
    let top = neighbour.shown.top as u64;
    match stray {
        Stray::Late => top.saturating_sub(10),
        Stray::Early => top + 58,
    }
}

/// Adds a line from a box to a level of its own column, and a mark there.
fn way_home(line: &mut Line, drawn: &OperationBox<'_>, level: u64) -> Result<(), OutOfMemory> {
    let left = left_of(drawn.shown.event.hart as u64);
    let shape = Rectangle {
        x: left,
        y: level.saturating_sub(2),
        width: 178,
        height: 4,
    };
    add_rectangle(line, "home", shape)?;
    let curve = Curve {
        start: Point {
            x: left,
            y: drawn.shown.top as u64 + 24,
        },
        leaving: left.saturating_sub(40),
        entering: left.saturating_sub(40),
        end: Point { x: left, y: level },
    };
    add_curve(line, "back", curve)
}
