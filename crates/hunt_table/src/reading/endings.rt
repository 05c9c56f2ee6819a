ghost use Rattle.std.specs.Prelude.{◌≡◌, [], IfOk};
ghost use Rattle.hunt_table.specs.Reading.{after_checked, after_mark, ending_at, ending_lines_at, endings_at, last_ranges, rows_of};

use crate::reading::cursor::{byte_at, number_at, skip, word_at};
use crate::reading::growing::push;
use crate::reading::output::output_line_at;
use crate::reading::seen::seen_at;
use crate::reading::stops::stops_at;
use crate::seen_range::SeenRange;
use pages::OutOfMemory;
use plan_hunt::{Ending, Row};
use std::alloc::Global;

/// Endings, and the ranges of the last.
#[derive(Drop)]
pub(crate) struct Endings {
    pub rows: Vec<Row>,
    pub ranges: Vec<SeenRange>,
}

/// An ending of so many plans, from its second line on, the ranges of its lines, and the lines after it.
#[tactic(auto, unfolding(crate::specs::Reading::ending_lines_at))]
fn ending_lines_at(
    alloc: Global,
    text: &[u8],
    plans: u32,
    first: u32,
) -> Result<(Row, Vec<SeenRange>, &[u8]), OutOfMemory>
    ensures row { IfOk result (λ r. r.0 ≡ (ending_lines_at plans first text.now).0.0) }
    ensures ranges { IfOk result (λ r. r.1.items ≡ (ending_lines_at plans first text.now).0.1) }
    ensures rest { IfOk result (λ r. r.2.now ≡ (ending_lines_at plans first text.now).1) }
{
    let (stops, rest) = stops_at(alloc, text)?;
    let (seen, rest) = seen_at(alloc, rest)?;
    let (output, rest) = output_line_at(alloc, rest)?;
    let row = Row {
        ending: Ending::new(stops, output, seen.bytes),
        first,
        plans,
    };
    Ok((row, seen.ranges, rest))
}

/// What follows the word that marks a bad ending, where it is there.
fn after_mark(text: &[u8]) -> &[u8]
    ensures { result.now ≡ after_mark text.now }
{
    if byte_at(text, 1) == b'b' {
        skip(text, " bad".len())
    } else {
        text
    }
}

/// What follows the word of a checked ending, where it is there.
fn after_checked(text: &[u8]) -> &[u8]
    ensures { result.now ≡ after_checked text.now }
{
    if byte_at(text, 0) == b' ' {
        skip(text, " checked".len())
    } else {
        text
    }
}

/// The same from its first line on.
#[tactic(auto, unfolding(crate::specs::Reading::ending_at))]
fn ending_at(alloc: Global, text: &[u8]) -> Result<(Row, Vec<SeenRange>, &[u8]), OutOfMemory>
    ensures row { IfOk result (λ r. r.0 ≡ (ending_at text.now).0.0) }
    ensures ranges { IfOk result (λ r. r.1.items ≡ (ending_at text.now).0.1) }
    ensures rest { IfOk result (λ r. r.2.now ≡ (ending_at text.now).1) }
{
    let (_number, rest) = number_at(skip(text, "ending ".len()));
    let (plans, rest) = word_at(skip(after_mark(rest), " plans ".len()));
    let (first, rest) = word_at(skip(rest, " first ".len()));
    ending_lines_at(alloc, skip(after_checked(rest), 1), plans, first)
}

/// At most so many endings.
pub(crate) fn endings_at(alloc: Global, text: &[u8], count: u64) -> Result<Endings, OutOfMemory>
    ensures rows { IfOk result (λ e. e.rows.items ≡ rows_of (endings_at count text.now).0) }
    ensures ranges { IfOk result (λ e. e.ranges.items ≡
        last_ranges [] (endings_at count text.now).0) }
{
    let mut rows = Vec::new(alloc);
    let mut ranges = Vec::new(alloc);
    let mut rest = text;
    'endings: for _ in 0..count {
        // The last line has an LF where that of an ending has its fourth letter.
        if byte_at(rest, 3) != b'i' {
            break;
        }
        let (row, seen, after) = ending_at(alloc, rest)?;
        push(&mut rows, row)?;
        ranges = seen;
        rest = after;
    }
    Ok(Endings { rows, ranges })
}
