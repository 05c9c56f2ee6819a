mod gaps;
mod missing;
mod operations;

ghost use Rattle.std.specs.Prelude.{◌≡◌, ◌++◌, Err, OnOk, codes};
ghost use Rattle.host_io.specs.Taken.{WritesText};
ghost use Rattle.fence_table.specs.Text.{fences_text, header_text, numbers_line, tally_line};

use crate::fence_table::FenceTable;
use crate::tally::Tally;
pub(crate) use crate::writing::gaps::add_site_name;
use crate::writing::missing::add_each_missing;
use host_io::{RunError, Sink, put_all};
use pages::OutOfMemory;
use report_lines::Line;
use std::alloc::Global;

/// Writes what a search found as text. The text is made as a whole before any of it is put.
///
/// # Errors
///
/// `OutOfMemory` where the text found no memory: nothing is out then. `SinkFailed` where the sink failed: a beginning of the text is
/// out.
#[tactic(auto, unfolding(crate::specs::Text::fences_text))]
pub fn write_fences<S: Sink>(alloc: Global, table: &FenceTable, out: &mut S) -> Result<(), RunError>
    ensures writes { WritesText (fences_text table.now) (S.took out.old) (S.failures out.old) result
        (S.took out.new) (S.failures out.new) }
    ensures memory { result ≡ Err RunError.OutOfMemory → S.took out.new ≡ S.took out.old }
{
    let mut line = Line::new(alloc);
    add_fences(alloc, &mut line, table)?;
    put_all(out, line.as_bytes())
}

/// Adds the whole text.
#[tactic(auto, unfolding(crate::specs::Text::fences_text))]
fn add_fences(alloc: Global, line: &mut Line, table: &FenceTable) -> Result<(), OutOfMemory>
    ensures { OnOk result (line.new ≡ line.old ++ fences_text table.now) }
{
    add_header(line, table)?;
    add_each_missing(alloc, line, &table.ranges, &table.missing)?;
    line.text("end\n")
}

/// Adds the lines of the numbers.
#[tactic(auto, unfolding(crate::specs::Text::header_text))]
fn add_header(line: &mut Line, table: &FenceTable) -> Result<(), OutOfMemory>
    ensures { OnOk result (line.new ≡ line.old ++ header_text table.now) }
{
    add_numbers(line, table.first, table.count, table.seed)?;
    add_tally(line, "ordinary ", table.ordinary)?;
    add_tally(line, "unnamed ", table.unnamed)?;
    add_tally(line, "running ", table.running)?;
    add_tally(line, "accepted ", table.accepted)
}

/// Adds the line of the numbers that were tried.
#[tactic(auto, unfolding(crate::specs::Text::numbers_line))]
fn add_numbers(line: &mut Line, first: u32, count: u32, seed: u64) -> Result<(), OutOfMemory>
    ensures { OnOk result (line.new ≡ line.old ++ numbers_line first count seed) }
{
    line.text("fences ")?;
    line.decimal(u64::from(first))?;
    line.text(" ")?;
    line.decimal(u64::from(count))?;
    line.text(" seed ")?;
    line.decimal(seed)?;
    line.text("\n")
}

/// Adds the line of some of the numbers, if they are any.
fn add_tally(line: &mut Line, word: &str, tally: Tally) -> Result<(), OutOfMemory>
    ensures { OnOk result (line.new ≡ line.old ++ tally_line word.now tally) }
{
    if tally.plans == 0 {
        return Ok(());
    }
    line.text(word)?;
    line.decimal(u64::from(tally.plans))?;
    line.text(" first ")?;
    line.decimal(u64::from(tally.first))?;
    line.text("\n")
}
