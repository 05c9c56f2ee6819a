ghost use Rattle.std.specs.Prelude.{◌≡◌, ◌++◌, OnOk, codes, false};
ghost use Rattle.std.specs.Fmt.{digits};
ghost use Rattle.fence_table.specs.Text.{direction_word, fence_words, site_name_text, moved_line, name_word, passed_words, gap_text, side_word, site_words};

use crate::fence_kind::{FenceKind, Side};
use crate::gap::NamedGap;
use crate::moved::{Direction, Moved, Passed};
use crate::site::{Site, SiteName};
use crate::writing::operations::add_operation;
use pages::OutOfMemory;
use report_lines::Line;
use std::alloc::Global;

/// Adds one side of a fence.
fn add_side(line: &mut Line, side: Side) -> Result<(), OutOfMemory>
    ensures { OnOk result (line.new ≡ line.old ++ side_word side) }
{
    line.text(match side {
        Side::Loads => "r",
        Side::Stores => "w",
        Side::Both => "rw",
    })
}

/// Adds a fence.
pub(crate) fn add_fence(line: &mut Line, fence: FenceKind) -> Result<(), OutOfMemory>
    ensures { OnOk result (line.new ≡ line.old ++ fence_words fence) }
{
    line.text(" fence ")?;
    add_side(line, fence.before)?;
    line.text(",")?;
    add_side(line, fence.after)
}

/// Adds how far an instruction is from the first byte of its function.
fn add_offset(alloc: Global, line: &mut Line, offset: u64) -> Result<(), OutOfMemory>
    ensures { OnOk result (line.new ≡ line.old ++ (codes "+0x" ++ digits 16 false offset)) }
{
    match format!(in alloc; "+0x{offset:x}") {
        Ok(text) => line.text(&text),
        Err(_) => Err(OutOfMemory),
    }
}

/// Adds where an instruction stands in a function.
pub(crate) fn add_site_name(
    alloc: Global,
    line: &mut Line,
    name: &SiteName,
) -> Result<(), OutOfMemory>
    ensures { OnOk result (line.new ≡ line.old ++ site_name_text name.now) }
{
    line.bytes(&name.function)?;
    add_offset(alloc, line, name.offset)
}

/// Adds the same behind a blank, if it is known.
fn add_name(alloc: Global, line: &mut Line, name: &Option<SiteName>) -> Result<(), OutOfMemory>
    ensures { OnOk result (line.new ≡ line.old ++ name_word name.now) }
{
    match name {
        None => Ok(()),
        Some(name) => {
            line.text(" ")?;
            add_site_name(alloc, line, name)
        }
    }
}

/// Adds an instruction.
#[tactic(auto, unfolding(crate::specs::Text::site_words))]
fn add_site(alloc: Global, line: &mut Line, site: &Site) -> Result<(), OutOfMemory>
    ensures { OnOk result (line.new ≡ line.old ++ site_words site.now) }
{
    line.text(" ")?;
    line.hex(site.pc, 16)?;
    add_name(alloc, line, &site.name)
}

/// Adds on which side of another operation one stands.
fn add_direction(line: &mut Line, direction: Direction) -> Result<(), OutOfMemory>
    ensures { OnOk result (line.new ≡ line.old ++ direction_word direction) }
{
    line.text(match direction {
        Direction::Before => " before",
        Direction::Behind => " behind",
    })
}

/// Adds the operation that another one moved past.
fn add_passed(alloc: Global, line: &mut Line, passed: &Passed) -> Result<(), OutOfMemory>
    ensures { OnOk result (line.new ≡ line.old ++ passed_words passed.now) }
{
    add_operation(line, &passed.operation)?;
    line.text(" at")?;
    add_site(alloc, line, &passed.site)
}

/// Adds the line of an operation that is out of order.
#[tactic(auto, unfolding(crate::specs::Text::moved_line))]
pub(crate) fn add_moved(alloc: Global, line: &mut Line, moved: &Moved) -> Result<(), OutOfMemory>
    ensures { OnOk result (line.new ≡ line.old ++ moved_line moved.now) }
{
    line.text("moved")?;
    add_operation(line, &moved.operation)?;
    line.text(" at")?;
    add_site(alloc, line, &moved.site)?;
    add_direction(line, moved.direction)?;
    add_passed(alloc, line, &moved.passed)?;
    line.text("\n")
}

/// Adds the lines of a gap.
#[tactic(auto, unfolding(crate::specs::Text::gap_text))]
pub(crate) fn add_gap(alloc: Global, line: &mut Line, gap: &NamedGap) -> Result<(), OutOfMemory>
    ensures { OnOk result (line.new ≡ line.old ++ gap_text gap.now) }
{
    line.text("between")?;
    add_site(alloc, line, &gap.earlier)?;
    line.text("\nand")?;
    add_site(alloc, line, &gap.later)?;
    line.text("\n")
}
