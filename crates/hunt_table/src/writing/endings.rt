ghost use Rattle.std.specs.Prelude.{◌≡◌, ◌&&◌, ◌+◌, ◌<◌, ◌≤◌, ◌++◌, codes, drop, OnOk, take};
ghost use Rattle.report_lines.specs.Text.{bytes_text};
ghost use Rattle.hunt_table.specs.Text.{checked_word, ending_front, ending_line, ending_text, hart_words, is_bad, mark, name_word, output_line, plans_words, quoted, quoted_byte, range_front, seen_line, seen_lines, stop_line, stop_lines};

use crate::range_name::RangeName;
use crate::seen_range::SeenRange;
use pages::OutOfMemory;
use plan_hunt::{HartEnding, Row, are_well};
use report_lines::{Line, add_stop};

/// How endings are written.
#[derive(Clone, Copy)]
pub struct EndingForm<'a> {
    /// Behind the first plan of each it is told that RVWMO allows that execution.
    pub is_weak: bool,
    /// Bad ones are marked.
    pub is_marked: bool,
    /// The ranges whose bytes are told.
    pub ranges: &'a [SeenRange],
}

/// Adds a byte as it is written between quotes.
#[tactic(auto, unfolding(crate::specs::Text::quoted_byte))]
fn add_quoted_byte(line: &mut Line, byte: u8) -> Result<(), OutOfMemory>
    ensures { OnOk result (line.new ≡ line.old ++ quoted_byte byte) }
{
    match byte {
        b'"' => line.text("\\\""),
        b'\\' => line.text("\\\\"),
        b'\n' => line.text("\\n"),
        b' '..=b'~' => line.bytes(&[byte]),
        _ => {
            line.text("\\x")?;
            line.hex(u64::from(byte), 2)
        }
    }
}

fn add_quoted(line: &mut Line, bytes: &[u8]) -> Result<(), OutOfMemory>
    ensures { OnOk result (line.new ≡ line.old ++ quoted bytes.now) }
{
    for byte in bytes {
        add_quoted_byte(line, *byte)?;
    }
    Ok(())
}

/// Adds the line of the output.
///
/// # Errors
///
/// As `add_table`.
#[tactic(auto, unfolding(crate::specs::Text::output_line))]
pub fn add_output(line: &mut Line, output: &[u8]) -> Result<(), OutOfMemory>
    ensures { OnOk result (line.new ≡ line.old ++ output_line output.now) }
{
    line.text("output ")?;
    line.decimal(output.len() as u64)?;
    line.text(" \"")?;
    add_quoted(line, output)?;
    line.text("\"\n")
}

/// Adds how a hart ended.
fn add_hart_words(line: &mut Line, hart: HartEnding) -> Result<(), OutOfMemory>
    ensures { OnOk result (line.new ≡ line.old ++ hart_words hart) }
{
    match hart {
        HartEnding::Runs => line.text("running"),
        HartEnding::Loops => line.text("loops"),
        HartEnding::Stopped(stop) => add_stop(line, Some(stop)),
    }
}

/// Adds the line of a hart.
#[tactic(auto, unfolding(crate::specs::Text::stop_line))]
fn add_hart(line: &mut Line, hart: u64, stop: HartEnding) -> Result<(), OutOfMemory>
    ensures { OnOk result (line.new ≡ line.old ++ stop_line hart stop) }
{
    line.text("hart ")?;
    line.decimal(hart)?;
    line.text(" ")?;
    add_hart_words(line, stop)?;
    line.text("\n")
}

fn add_stops(line: &mut Line, stops: &[HartEnding]) -> Result<(), OutOfMemory>
    ensures { OnOk result (line.new ≡ line.old ++ stop_lines 0 stops.now) }
{
    for (hart, stop) in stops.iter().enumerate() {
        add_hart(line, hart as u64, *stop)?;
    }
    Ok(())
}

fn add_bytes(line: &mut Line, bytes: &[u8]) -> Result<(), OutOfMemory>
    ensures { OnOk result (line.new ≡ line.old ++ bytes_text bytes.now) }
{
    for byte in bytes {
        line.hex(u64::from(*byte), 2)?;
    }
    Ok(())
}

/// Adds the name of a range, where it has one.
fn add_name(line: &mut Line, name: &Option<RangeName>) -> Result<(), OutOfMemory>
    ensures { OnOk result (line.new ≡ line.old ++ name_word name.now) }
{
    match name {
        None => Ok(()),
        Some(name) => {
            line.text(" ")?;
            line.bytes(name.as_bytes())
        }
    }
}

/// Adds the numbers of a range.
fn add_range_front(line: &mut Line, address: u32, length: u32) -> Result<(), OutOfMemory>
    ensures { OnOk result (line.new ≡ line.old ++ range_front address length) }
{
    line.text("see ")?;
    line.hex(u64::from(address), 8)?;
    line.text(" ")?;
    line.decimal(u64::from(length))?;
    line.text(" ")
}

/// Adds the line of a range.
#[tactic(auto, unfolding(crate::specs::Text::seen_line))]
fn add_range(line: &mut Line, range: &SeenRange, bytes: &[u8]) -> Result<(), OutOfMemory>
    ensures { OnOk result (line.new ≡ line.old ++ seen_line range.now bytes.now) }
{
    add_range_front(line, range.address, range.length)?;
    add_bytes(line, bytes)?;
    add_name(line, &range.name)?;
    line.text("\n")
}

/// Adds the lines of ranges whose bytes stand one after the other.
///
/// # Errors
///
/// As `add_table`.
pub fn add_ranges(line: &mut Line, ranges: &[SeenRange], seen: &[u8]) -> Result<(), OutOfMemory>
    ensures { OnOk result (line.new ≡ line.old ++ seen_lines ranges.now seen.now) }
{
    let mut rest = seen;
    for range in ranges {
        let length = rest.len().min(range.length as usize);
        add_range(line, range, &rest[..length])?;
        rest = &rest[length..];
    }
    Ok(())
}

/// Whether a hart runs on, was stopped by a fault, or exited with another value than 0.
fn is_bad(row: &Row) -> bool
    ensures { result ≡ is_bad row.now }
{
    !are_well(row.ending.stops())
}

/// Whether an ending has the word that marks a bad one.
fn is_marked(marked: bool, row: &Row) -> bool
    ensures { result ≡ (marked && is_bad row.now) }
{
    marked && is_bad(row)
}

/// Adds the word that marks a bad ending.
fn add_mark(line: &mut Line, bad: bool) -> Result<(), OutOfMemory>
    ensures { OnOk result (line.new ≡ line.old ++ mark bad) }
{
    if bad { line.text(" bad") } else { Ok(()) }
}

/// Adds the number of an ending, and whether it is bad.
fn add_front(line: &mut Line, marked: bool, number: u64, row: &Row) -> Result<(), OutOfMemory>
    ensures { OnOk result (line.new ≡ line.old ++ ending_front marked number row.now) }
{
    line.text("ending ")?;
    line.decimal(number)?;
    add_mark(line, is_marked(marked, row))
}

/// Adds the word of a checked ending.
fn add_checked_word(line: &mut Line, is_weak: bool) -> Result<(), OutOfMemory>
    ensures { OnOk result (line.new ≡ line.old ++ checked_word is_weak) }
{
    if is_weak {
        line.text(" checked")
    } else {
        Ok(())
    }
}

/// Adds how many plans there are, and the first of them.
fn add_plans_words(line: &mut Line, plans: u32, first: u32) -> Result<(), OutOfMemory>
    ensures { OnOk result (line.new ≡ line.old ++ plans_words plans first) }
{
    line.text(" plans ")?;
    line.decimal(u64::from(plans))?;
    line.text(" first ")?;
    line.decimal(u64::from(first))
}

/// Adds how many plans lead to an ending, and the first of them.
#[tactic(auto, unfolding(crate::specs::Text::ending_line))]
fn add_plans(
    line: &mut Line,
    form: &EndingForm<'_>,
    number: u64,
    row: &Row,
) -> Result<(), OutOfMemory>
    ensures { OnOk result (line.new ≡
        line.old ++ ending_line form.now.is_weak form.now.is_marked number row.now) }
{
    add_front(line, form.is_marked, number, row)?;
    add_plans_words(line, row.plans, row.first)?;
    add_checked_word(line, form.is_weak)?;
    line.text("\n")
}

/// Adds an ending of this number.
///
/// # Errors
///
/// As `add_table`.
#[tactic(auto, unfolding(crate::specs::Text::ending_text))]
pub fn add_ending(
    line: &mut Line,
    form: &EndingForm<'_>,
    number: u64,
    row: &Row,
) -> Result<(), OutOfMemory>
    ensures { OnOk result (line.new ≡ line.old ++
        ending_text form.now.is_weak form.now.is_marked form.now.ranges.now number row.now) }
{
    add_plans(line, form, number, row)?;
    add_stops(line, row.ending.stops())?;
    add_ranges(line, form.ranges, row.ending.seen())?;
    add_output(line, row.ending.output())
}
