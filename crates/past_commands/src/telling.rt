//! What is told of a hart's past.
ghost use Rattle.std.specs.Prelude.{◌≡◌, ◌++◌, IfOk, OnOk};
ghost use Rattle.past_commands.specs.Answers.{IsTold, all_bytes, sight_text, told_text};
ghost use Rattle.replayer.specs.Refusals.{RefusedInOrder};
ghost use Rattle.replayer.specs.Replayed.{IsPlanFor, start_of};
ghost use Rattle.round_planner.specs.Quotas.{Planned};
ghost use Rattle.moments.specs.Bytes.{bytes_from};

use crate::answer::{number_line, word_line};
use crate::placing::sight_before;
use crate::question::Question;
use command_line::Replay;
use host_io::RunError;
use hunt_table::{SeenRange, add_ranges};
use pages::OutOfMemory;
use recording::Recording;
use replayer::{Sight, count_at, sight_at};
use report_lines::{Line, hart_lines};
use std::alloc::Global;
use std::sync::Wait;
use std::thread::Threads;

/// What was found of a hart's past.
#[derive(Drop)]
pub(crate) enum Told {
    /// How many instructions it did in the round, if there are that round and that hart.
    Count(Option<u64>),
    /// The hart within the round and what it saw, if it did so many instructions in it.
    Within(Option<Sight>),
    /// The round in which it did an instruction, and the hart before it and what it saw, if it did so many.
    Before(Option<(u32, Sight)>),
}

/// Runs a recording anew as far as a question needs it.
pub(crate) fn tell<R: Threads + Wait + Sync>(
    threads: &R,
    alloc: Global,
    recorded: &Recording,
    question: Question,
    asked: &Replay<'_>,
) -> Result<Told, RunError>
    ensures told { IfOk result (λ told. (plan : Planned) × IsPlanFor recorded.now plan ×
        IsTold asked.now.hart asked.now.count recorded.now.rounds (start_of recorded.now plan)
        question told) }
    ensures in_order { RefusedInOrder asked.now.workers recorded.now result }
{
    let (hart, workers) = (asked.hart, asked.workers);
    match question {
        Question::Before(place) => {
            match sight_before(threads, alloc, recorded, hart, place, workers) {
                Ok(found) => Ok(Told::Before(found)),
                Err(error) => Err(error),
            }
        }
        Question::Count(round) => {
            match count_at(threads, alloc, recorded, round, hart, workers) {
                Ok(found) => Ok(Told::Count(found)),
                Err(error) => Err(error),
            }
        }
        Question::Within(round) => {
            match sight_at(threads, alloc, recorded, round, hart, asked.count, workers) {
                Ok(found) => Ok(Told::Within(found)),
                Err(error) => Err(error),
            }
        }
    }
}

/// The lines of what was found of a hart, with a line for each of these ranges of memory as the hart sees them.
pub(crate) fn told_line(
    alloc: Global,
    hart: u32,
    told: &Told,
    ranges: &[SeenRange],
) -> Result<Line, OutOfMemory>
    ensures { IfOk result (λ l. l ≡ told_text hart ranges.now told.now) }
{
    match told {
        Told::Count(Some(count)) => number_line(alloc, "count ", *count),
        Told::Within(Some(sight)) => {
            let mut line = Line::new(alloc);
            add_sight(alloc, &mut line, hart, sight, ranges)?;
            Ok(line)
        }
        Told::Before(Some((round, sight))) => {
            let mut line = number_line(alloc, "round ", u64::from(*round))?;
            add_sight(alloc, &mut line, hart, sight, ranges)?;
            Ok(line)
        }
        Told::Count(None) | Told::Within(None) | Told::Before(None) => {
            word_line(alloc, "none\n")
        }
    }
}

/// Adds a hart's lines, and a line for each of these ranges as it sees them.
fn add_sight(
    alloc: Global,
    line: &mut Line,
    hart: u32,
    sight: &Sight,
    ranges: &[SeenRange],
) -> Result<(), OutOfMemory>
    ensures { OnOk result (line.new ≡ line.old ++ sight_text hart ranges.now sight.now) }
{
    let seen = bytes_of(alloc, sight, ranges)?;
    hart_lines(line, u64::from(hart), &sight.hart())?;
    add_ranges(line, ranges, &seen)
}

/// The bytes of these ranges, one after the other.
fn bytes_of(alloc: Global, sight: &Sight, ranges: &[SeenRange]) -> Result<Vec<u8>, OutOfMemory>
    ensures { IfOk result (λ v. v.items ≡ all_bytes (bytes_from sight.now.bytes) ranges.now) }
{
    let mut all = Vec::new(alloc);
    for range in ranges {
        let bytes = sight.bytes(alloc, u64::from(range.address), u64::from(range.length))?;
        all.extend_from_slice(&bytes)?;
    }
    Ok(all)
}
