ghost use Rattle.std.specs.Prelude.{◌≡◌, ◌++◌, OnOk, codes};
ghost use Rattle.fence_table.specs.Text.{failure_text, missing_line, missing_text, missing_texts, otherwise_text, shown_line, tried_words, two_counts};
ghost use Rattle.hunt_table.specs.Text.{plans_words};

use crate::failure::Failure;
use crate::fence_kind::TriedFence;
use crate::missing::{Missing, Shown};
use crate::tally::Tally;
use crate::writing::gaps::{add_fence, add_gap, add_moved};
use hunt_table::{SeenRange, add_output, add_ranges};
use pages::OutOfMemory;
use report_lines::{Line, add_stop};
use std::alloc::Global;

/// Adds what is put out, and what is seen, in place of what ordinary runs have.
#[tactic(auto, unfolding(crate::specs::Text::otherwise_text))]
fn add_otherwise(
    line: &mut Line,
    ranges: &[SeenRange],
    seen: &[u8],
    output: &[u8],
) -> Result<(), OutOfMemory>
    ensures { OnOk result (line.new ≡ line.old ++ otherwise_text ranges.now seen.now output.now) }
{
    line.text("ends otherwise\n")?;
    add_ranges(line, ranges, seen)?;
    add_output(line, output)
}

/// Adds how an execution fails.
fn add_failure(line: &mut Line, ranges: &[SeenRange], failure: &Failure) -> Result<(), OutOfMemory>
    ensures { OnOk result (line.new ≡ line.old ++ failure_text ranges.now failure.now) }
{
    match failure {
        Failure::Stopped { hart, stop } => {
            line.text("ends hart ")?;
            line.decimal(u64::from(*hart))?;
            line.text(" ")?;
            add_stop(line, Some(*stop))?;
            line.text("\n")
        }
        Failure::Otherwise { seen, output } => add_otherwise(line, ranges, seen, output),
        Failure::Stuck => line.text("stuck\n"),
    }
}

/// Adds two counts behind their words.
#[tactic(auto, unfolding(crate::specs::Text::two_counts))]
fn add_two_counts(
    line: &mut Line,
    first: (&str, u64),
    second: (&str, u64),
) -> Result<(), OutOfMemory>
    ensures { OnOk result (line.new ≡ line.old ++ two_counts first.entry.0.now first.entry.1
        second.entry.0.now second.entry.1) }
{
    line.text(first.0)?;
    line.decimal(first.1)?;
    line.text(second.0)?;
    line.decimal(second.1)
}

/// Adds the line of an execution.
#[tactic(auto, unfolding(crate::specs::Text::shown_line))]
fn add_shown(line: &mut Line, shown: &Shown) -> Result<(), OutOfMemory>
    ensures { OnOk result (line.new ≡ line.old ++ shown_line shown.now) }
{
    let (number, departures) = (u64::from(shown.number), u64::from(shown.departures));
    add_two_counts(line, ("execution ", number), (" departures ", departures))?;
    add_two_counts(
        line,
        (" steps ", shown.steps),
        (" operations ", shown.operations),
    )?;
    line.text("\n")
}

/// Adds some of the numbers.
fn add_numbers(line: &mut Line, numbers: Tally) -> Result<(), OutOfMemory>
    ensures { OnOk result (line.new ≡ line.old ++ plans_words numbers.plans numbers.first) }
{
    line.text(" plans ")?;
    line.decimal(u64::from(numbers.plans))?;
    line.text(" first ")?;
    line.decimal(u64::from(numbers.first))
}

/// Adds with how many executions a fence was tried, and before which instruction.
#[tactic(auto, unfolding(crate::specs::Text::tried_words))]
fn add_tried(line: &mut Line, fence: TriedFence) -> Result<(), OutOfMemory>
    ensures { OnOk result (line.new ≡ line.old ++ tried_words fence) }
{
    line.text(" tried ")?;
    line.decimal(u64::from(fence.executions))?;
    line.text(" before ")?;
    line.hex(fence.pc, 16)
}

/// Adds the first line of a missing fence.
#[tactic(auto, unfolding(crate::specs::Text::missing_line))]
fn add_front(
    line: &mut Line,
    number: u64,
    fence: TriedFence,
    numbers: Tally,
) -> Result<(), OutOfMemory>
    ensures { OnOk result (line.new ≡ line.old ++ missing_line number fence numbers) }
{
    line.text("missing ")?;
    line.decimal(number)?;
    add_fence(line, fence.kind)?;
    add_numbers(line, numbers)?;
    add_tried(line, fence)?;
    line.text("\n")
}

/// Adds a missing fence.
#[tactic(auto, unfolding(crate::specs::Text::missing_text))]
fn add_missing(
    alloc: Global,
    line: &mut Line,
    ranges: &[SeenRange],
    number: u64,
    missing: &Missing,
) -> Result<(), OutOfMemory>
    ensures { OnOk result (line.new ≡ line.old ++ missing_text ranges.now number missing.now) }
{
    add_front(line, number, missing.fence, missing.numbers)?;
    add_gap(alloc, line, &missing.gap)?;
    add_moved(alloc, line, &missing.moved)?;
    add_failure(line, ranges, &missing.failure)?;
    add_shown(line, &missing.shown)
}

/// Adds missing fences, counted from 1.
pub(crate) fn add_each_missing(
    alloc: Global,
    line: &mut Line,
    ranges: &[SeenRange],
    all: &[Missing],
) -> Result<(), OutOfMemory>
    ensures { OnOk result (line.new ≡ line.old ++ missing_texts ranges.now 1 all.now) }
{
    for (index, missing) in all.iter().enumerate() {
        add_missing(alloc, line, ranges, index as u64 + 1, missing)?;
    }
    Ok(())
}
