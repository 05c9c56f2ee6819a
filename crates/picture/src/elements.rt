ghost use Rattle.std.specs.Prelude.{◌≡◌, ◌++◌, OnOk, codes};
ghost use Rattle.std.specs.Fmt.{decimal};
ghost use Rattle.picture.specs.Elements.{attribute, curve_text, down_text, label_start, path_start, point_text, rectangle_text, wait_text};

use crate::style::start_of_wait;
use pages::OutOfMemory;
use report_lines::Line;

/// A point, so far from the left and from the top.
#[derive(Clone, Copy)]
pub struct Point {
    pub x: u64,
    pub y: u64,
}

/// A rectangle, by its upper left corner.
#[derive(Clone, Copy)]
pub struct Rectangle {
    pub x: u64,
    pub y: u64,
    pub width: u64,
    pub height: u64,
}

/// A curve that leaves one point and enters another level, on the way to `leaving` and from `entering`.
#[derive(Clone, Copy)]
pub struct Curve {
    pub start: Point,
    pub leaving: u64,
    pub entering: u64,
    pub end: Point,
}

/// Adds an attribute that is a number.
pub(crate) fn attribute(line: &mut Line, name: &str, value: u64) -> Result<(), OutOfMemory>
    ensures { OnOk result (line.new ≡ line.old ++ attribute name.now value) }
{
    line.text(name)?;
    line.decimal(value)?;
    line.text("'")
}

/// Adds a rectangle of a class.
#[tactic(auto, unfolding(crate::specs::Elements::rectangle_text))]
pub fn add_rectangle(line: &mut Line, class: &str, shape: Rectangle) -> Result<(), OutOfMemory>
    ensures { OnOk result (line.new ≡ line.old ++ rectangle_text class.now shape) }
{
    line.text("<rect class='")?;
    line.text(class)?;
    attribute(line, "' x='", shape.x)?;
    attribute(line, " y='", shape.y)?;
    attribute(line, " width='", shape.width)?;
    attribute(line, " height='", shape.height)?;
    line.text("/>\n")
}

/// Adds the start of a text of a class at a point.
#[tactic(auto, unfolding(crate::specs::Elements::label_start))]
pub fn start_label(line: &mut Line, class: &str, at: Point) -> Result<(), OutOfMemory>
    ensures { OnOk result (line.new ≡ line.old ++ label_start class.now at) }
{
    line.text("<text class='")?;
    line.text(class)?;
    attribute(line, "' x='", at.x)?;
    attribute(line, " y='", at.y)?;
    line.text(">")
}

fn add_point(line: &mut Line, at: Point) -> Result<(), OutOfMemory>
    ensures { OnOk result (line.new ≡ line.old ++ point_text at) }
{
    line.decimal(at.x)?;
    line.text(" ")?;
    line.decimal(at.y)
}

#[tactic(auto, unfolding(crate::specs::Elements::path_start))]
fn start_path(line: &mut Line, class: &str, at: Point) -> Result<(), OutOfMemory>
    ensures { OnOk result (line.new ≡ line.old ++ path_start class.now at) }
{
    line.text("<path class='")?;
    line.text(class)?;
    line.text("' d='M")?;
    add_point(line, at)
}

/// Adds a line of a class straight down from a point.
#[tactic(auto, unfolding(crate::specs::Elements::down_text))]
pub fn line_down(line: &mut Line, class: &str, from: Point, bottom: u64) -> Result<(), OutOfMemory>
    ensures { OnOk result (line.new ≡ line.old ++ down_text class.now from bottom) }
{
    start_path(line, class, from)?;
    line.text("V")?;
    line.decimal(bottom)?;
    line.text("'/>\n")
}

/// Adds a curve of a class.
#[tactic(auto, unfolding(crate::specs::Elements::curve_text))]
pub fn add_curve(line: &mut Line, class: &str, shape: Curve) -> Result<(), OutOfMemory>
    ensures { OnOk result (line.new ≡ line.old ++ curve_text class.now shape) }
{
    let leaving = Point {
        x: shape.leaving,
        y: shape.start.y,
    };
    let entering = Point {
        x: shape.entering,
        y: shape.end.y,
    };
    start_path(line, class, shape.start)?;
    line.text("C")?;
    add_point(line, leaving)?;
    line.text(" ")?;
    add_point(line, entering)?;
    line.text(" ")?;
    add_point(line, shape.end)?;
    line.text("'/>\n")
}

/// Adds the mark of a hart that had waited.
#[tactic(auto, unfolding(crate::specs::Elements::wait_text))]
pub(crate) fn wait_mark(line: &mut Line, at: Point) -> Result<(), OutOfMemory>
    ensures { OnOk result (line.new ≡ line.old ++ wait_text at) }
{
    line.text(start_of_wait())?;
    attribute(line, " x='", at.x)?;
    attribute(line, " y='", at.y)?;
    line.text("/>\n")
}
