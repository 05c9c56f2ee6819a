ghost use Rattle.std.specs.Prelude.{◌≡◌, ◌++◌, IfOk, OnOk, drop};
ghost use Rattle.std.specs.List.{flat_map};
ghost use Rattle.hunt_table.specs.Text.{output_line};
ghost use Rattle.endings_table.specs.Text.{end_line, end_lines, end_words, ending_line, ending_text, output_words, own_output, own_output_line, own_outputs};

use crate::found_ending::FoundEnding;
use crate::hart_end::HartEnd;
use hunt_table::{SeenRange, add_output, add_ranges};
use pages::OutOfMemory;
use report_lines::{Line, add_stop};
use std::alloc::Global;

/// Adds how a hart ends.
fn add_end_words(line: &mut Line, end: HartEnd) -> Result<(), OutOfMemory>
    ensures { OnOk result (line.new ≡ line.old ++ end_words end) }
{
    match end {
        HartEnd::Stopped(stop) => add_stop(line, Some(stop)),
        HartEnd::Waits(pc) => {
            line.text("waits ")?;
            line.hex(pc, 16)
        }
    }
}

/// Adds the line of a hart.
#[tactic(auto, unfolding(crate::specs::Text::end_line))]
fn add_end(line: &mut Line, hart: u64, end: HartEnd) -> Result<(), OutOfMemory>
    ensures { OnOk result (line.new ≡ line.old ++ end_line hart end) }
{
    line.text("hart ")?;
    line.decimal(hart)?;
    line.text(" ")?;
    add_end_words(line, end)?;
    line.text("\n")
}

fn add_ends(line: &mut Line, ends: &[HartEnd]) -> Result<(), OutOfMemory>
    ensures { OnOk result (line.new ≡ line.old ++ end_lines 0 ends.now) }
{
    for (hart, end) in ends.iter().enumerate() {
        add_end(line, hart as u64, *end)?;
    }
    Ok(())
}

/// The line that a hunt has for an output.
fn output_line(alloc: Global, output: &[u8]) -> Result<Line, OutOfMemory>
    ensures { IfOk result (λ l. l ≡ output_line output.now) }
{
    let mut line = Line::new(alloc);
    add_output(&mut line, output)?;
    Ok(line)
}

/// What stands in such a line behind its first word, which has 7 characters with the blank.
fn behind_word(line: &[u8]) -> &[u8]
    ensures { result.now ≡ drop 7 line.now }
{
    if line.len() > 7 {
        &line[7..]
    } else {
        &line[line.len()..]
    }
}

/// Adds how many bytes were put out, and the bytes, as a hunt's line has them.
fn add_output_words(alloc: Global, line: &mut Line, output: &[u8]) -> Result<(), OutOfMemory>
    ensures { OnOk result (line.new ≡ line.old ++ output_words output.now) }
{
    let whole = output_line(alloc, output)?;
    line.bytes(behind_word(whole.as_bytes()))
}

/// Adds the line of a hart's own output.
#[tactic(auto, unfolding(crate::specs::Text::own_output_line))]
fn add_own_line(alloc: Global, line: &mut Line, hart: u64, output: &[u8]) -> Result<(), OutOfMemory>
    ensures { OnOk result (line.new ≡ line.old ++ own_output_line hart output.now) }
{
    line.text("output ")?;
    line.decimal(hart)?;
    line.text(" ")?;
    add_output_words(alloc, line, output)
}

/// Adds the line of a hart's own output, if there is one.
fn add_own_output(
    alloc: Global,
    line: &mut Line,
    hart: u64,
    output: &[u8],
) -> Result<(), OutOfMemory>
    ensures { OnOk result (line.new ≡ line.old ++ own_output hart output.now) }
{
    if output.len() == 0 {
        return Ok(());
    }
    add_own_line(alloc, line, hart, output)
}

fn add_own_outputs(alloc: Global, line: &mut Line, outputs: &[Vec<u8>]) -> Result<(), OutOfMemory>
    ensures { OnOk result (line.new ≡ line.old ++ own_outputs 0 outputs.now) }
{
    for (hart, output) in outputs.iter().enumerate() {
        add_own_output(alloc, line, hart as u64, output)?;
    }
    Ok(())
}

/// Adds the number of an ending, and whether it is bad.
fn add_front(line: &mut Line, number: u64, ending: &FoundEnding) -> Result<(), OutOfMemory>
    ensures { OnOk result (line.new ≡ line.old ++ ending_line number ending.now) }
{
    line.text("ending ")?;
    line.decimal(number)?;
    line.text(if ending.is_bad() { " bad" } else { "" })?;
    line.text("\n")
}

/// The bytes of all ranges, one after another.
fn joined(alloc: Global, seen: &[Vec<u8>]) -> Result<Vec<u8>, OutOfMemory>
    ensures { IfOk result (λ v. v.items ≡ flat_map (λ bs. bs.items) seen.now) }
{
    let mut all = Vec::new(alloc);
    for bytes in seen {
        all.extend_from_slice(bytes)?;
    }
    Ok(all)
}

/// Adds an ending.
#[tactic(auto, unfolding(crate::specs::Text::ending_text))]
pub(crate) fn add_ending(
    alloc: Global,
    line: &mut Line,
    ranges: &[SeenRange],
    number: u64,
    ending: &FoundEnding,
) -> Result<(), OutOfMemory>
    ensures { OnOk result (line.new ≡ line.old ++ ending_text ranges.now number ending.now) }
{
    let seen = joined(alloc, &ending.seen)?;
    add_front(line, number, ending)?;
    add_ends(line, &ending.ends)?;
    add_ranges(line, ranges, &seen)?;
    add_own_outputs(alloc, line, &ending.outputs)
}
