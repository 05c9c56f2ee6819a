mod endings;

ghost use Rattle.std.specs.Prelude.{◌≡◌, ◌++◌, Err, OnOk, length};
ghost use Rattle.std.specs.List.{flat_map};
ghost use Rattle.host_io.specs.Taken.{WritesText};
ghost use Rattle.endings_table.specs.Text.{counts, doubt_words, endings_text, header_text, need_line, others_line, table_text, why_words};

use crate::fence_need::{FenceNeed, Need};
use crate::found_ending::FoundEnding;
use crate::others::{Others, Why};
use crate::table::EndingsTable;
use crate::writing::endings::add_ending;
use host_io::{RunError, Sink, put_all};
use hunt_table::SeenRange;
use pages::OutOfMemory;
use report_lines::Line;
use std::alloc::Global;

/// Writes a table of all endings as text. The text is made as a whole before any of it is put.
///
/// # Errors
///
/// `OutOfMemory` where the text found no memory: nothing is out then. `SinkFailed` where the sink failed: a beginning of the text is
/// out.
pub fn write_endings<S: Sink>(
    alloc: Global,
    table: &EndingsTable,
    out: &mut S,
) -> Result<(), RunError>
    ensures writes { WritesText (table_text table.now) (S.took out.old) (S.failures out.old)
        result (S.took out.new) (S.failures out.new) }
    ensures memory { result ≡ Err RunError.OutOfMemory → S.took out.new ≡ S.took out.old }
{
    let mut line = Line::new(alloc);
    add_table(alloc, &mut line, table)?;
    put_all(out, line.as_bytes())
}

/// Adds the whole text.
#[tactic(auto, unfolding(crate::specs::Text::table_text))]
fn add_table(alloc: Global, line: &mut Line, table: &EndingsTable) -> Result<(), OutOfMemory>
    ensures { OnOk result (line.new ≡ line.old ++ table_text table.now) }
{
    add_header(line, table)?;
    add_endings(alloc, line, &table.ranges, &table.endings)?;
    add_others(line, table.others)?;
    add_needs(line, &table.fences)?;
    line.text("end\n")
}

/// Adds two counts behind their words.
fn add_counts(
    line: &mut Line,
    first: &str,
    one: u64,
    second: &str,
    other: u64,
) -> Result<(), OutOfMemory>
    ensures { OnOk result (line.new ≡ line.old ++ counts first.now one second.now other) }
{
    line.text(first)?;
    line.decimal(one)?;
    line.text(second)?;
    line.decimal(other)
}

/// Adds the lines of what was gone through, and of the number of endings.
#[tactic(auto, unfolding(crate::specs::Text::header_text))]
fn add_header(line: &mut Line, table: &EndingsTable) -> Result<(), OutOfMemory>
    ensures { OnOk result (line.new ≡ line.old ++ header_text table.now) }
{
    let (harts, steps) = (u64::from(table.harts), u64::from(table.steps));
    add_counts(line, "all harts ", harts, " nodes ", table.nodes)?;
    add_counts(
        line,
        " steps ",
        steps,
        "\nendings ",
        table.endings.len() as u64,
    )?;
    line.text("\n")
}

fn add_endings(
    alloc: Global,
    line: &mut Line,
    ranges: &[SeenRange],
    endings: &[FoundEnding],
) -> Result<(), OutOfMemory>
    ensures { OnOk result (line.new ≡ line.old ++ endings_text ranges.now 1 endings.now) }
{
    for (index, ending) in endings.iter().enumerate() {
        add_ending(alloc, line, ranges, index as u64 + 1, ending)?;
    }
    Ok(())
}

/// Adds whether there are others.
fn add_others(line: &mut Line, others: Others) -> Result<(), OutOfMemory>
    ensures { OnOk result (line.new ≡ line.old ++ others_line others) }
{
    match others {
        Others::Absent => line.text("no others\n"),
        Others::Possible(why) => {
            line.text("others are possible: ")?;
            add_why(line, why)?;
            line.text("\n")
        }
    }
}

/// Adds why there may be others.
fn add_why(line: &mut Line, why: Why) -> Result<(), OutOfMemory>
    ensures { OnOk result (line.new ≡ line.old ++ why_words why) }
{
    line.text(match why {
        Why::Time => "time",
        Why::Nodes => "nodes",
        Why::Steps => "steps",
        Why::Input => "input that several harts read",
        Why::Round => "the call for the round",
        Why::Call => "a call whose number comes late",
        Why::Output => "more output than a console takes",
        Why::States => "states of a hart",
        Why::Unchecked => "not checked",
    })
}

/// Adds whether each fence is needed.
fn add_needs(line: &mut Line, fences: &[FenceNeed]) -> Result<(), OutOfMemory>
    ensures { OnOk result (line.new ≡ line.old ++ flat_map need_line fences.now) }
{
    for fence in fences {
        add_need(line, *fence)?;
    }
    Ok(())
}

/// Adds whether a fence is needed.
#[tactic(auto, unfolding(crate::specs::Text::need_line))]
fn add_need(line: &mut Line, fence: FenceNeed) -> Result<(), OutOfMemory>
    ensures { OnOk result (line.new ≡ line.old ++ need_line fence) }
{
    line.text(match fence.need {
        Need::Unneeded => "unneeded ",
        Need::Needed => "needed ",
        Need::Waits | Need::Unknown(_) => "unknown ",
    })?;
    line.hex(fence.pc, 16)?;
    add_doubt(line, fence.need)?;
    line.text("\n")
}

/// Adds why it isn't known whether a fence is needed.
fn add_doubt(line: &mut Line, need: Need) -> Result<(), OutOfMemory>
    ensures { OnOk result (line.new ≡ line.old ++ doubt_words need) }
{
    match need {
        Need::Unneeded | Need::Needed => Ok(()),
        Need::Waits => line.text(": a hart may wait for ever"),
        Need::Unknown(why) => {
            line.text(": ")?;
            add_why(line, why)
        }
    }
}
