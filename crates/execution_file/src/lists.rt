ghost use Rattle.std.specs.Prelude.{◌≡◌, ◌++◌, ◌-◌, ◌^◌, codes, map};
ghost use Rattle.std.specs.Fmt.{decimal};
ghost use Rattle.execution_file.specs.Grammar.{are_few_steps, double, hart_lines, hart_turn, harts_lines};
ghost use Rattle.execution_file.specs.Formats.{counted, each, listed, taken_word};
ghost use Rattle.execution_file.specs.Views.{Gives, hart_view, turn_view};

use crate::cause::{Cause, ReadError};
use crate::file::{HartDeeds, MOST_STEPS, Turn};
use crate::numbers::{number_after, number_at};
use crate::words::{refused, word_at};
use itoa::write_digits;
use std::alloc::Global;

/// A hart's turn, and what follows it.
fn turn_at(bytes: &[u8]) -> Result<(Turn, &[u8]), ReadError>
    ensures { Gives (λ x. (turn_view x.0, x.1.now)) result (hart_turn.taken bytes.now) }
{
    let (hart, rest) = number_at(bytes, 255)?;
    let (number, rest) = number_after(rest, 58)?;
    Ok((
        Turn {
            hart: hart as u8,
            number,
        },
        rest,
    ))
}

/// The numbers up to the end of the line, and what follows it.
#[tactic(auto, using(crate::proofs::WordLoops::list_starts))]
fn numbers_at(alloc: Global, bytes: &[u8]) -> Result<(Vec<u64>, &[u8]), ReadError>
    ensures { Gives (λ x. (x.0.items, x.1.now)) result ((listed double).taken bytes.now) }
{
    let mut numbers = Vec::new(alloc);
    let mut rest = bytes;
    for _ in 0..bytes.len() {
        let Some((first, after)) = rest.split_first() else {
            return Err(refused(Cause::Cut, rest));
        };
        if *first == 10 {
            return Ok((numbers, after));
        }
        if *first != 32 {
            return Err(refused(Cause::Malformed, rest));
        }
        let (number, after) = number_at(after, u64::MAX)?;
        numbers.push(number)?;
        rest = after;
    }
    let end = refused(Cause::Cut, rest);
    Err(end)
}

/// The turns up to the end of the line, and what follows it.
#[tactic(auto, using(crate::proofs::WordLoops::list_starts))]
pub(crate) fn turns_at(alloc: Global, bytes: &[u8]) -> Result<(Vec<Turn>, &[u8]), ReadError>
    ensures { Gives (λ x. (map turn_view x.0.items, x.1.now)) result
        ((listed hart_turn).taken bytes.now) }
{
    let mut turns = Vec::new(alloc);
    let mut rest = bytes;
    for _ in 0..bytes.len() {
        let Some((first, after)) = rest.split_first() else {
            return Err(refused(Cause::Cut, rest));
        };
        if *first == 10 {
            return Ok((turns, after));
        }
        if *first != 32 {
            return Err(refused(Cause::Malformed, rest));
        }
        let (turn, after) = turn_at(after)?;
        turns.push(turn)?;
        rest = after;
    }
    let end = refused(Cause::Cut, rest);
    Err(end)
}

/// What follows the word `hart` and the number of a hart.
fn hart_number_at(bytes: &[u8], index: u64) -> Result<&[u8], ReadError>
    ensures { Gives (λ x. x.now) result (taken_word Cause.Cut Cause.Malformed
        (codes "hart " ++ decimal index) bytes.now) }
{
    let mut room = [0; 20];
    let start = write_digits(index, &mut room, 20);
    word_at(word_at(bytes, b"hart ")?, &room[start..])
}

/// What a hart does, and what follows it.
fn hart_at(alloc: Global, bytes: &[u8], index: u64) -> Result<(HartDeeds, &[u8]), ReadError>
    ensures { Gives (λ x. (hart_view x.0, x.1.now)) result ((hart_lines index).taken bytes.now) }
{
    let rest = hart_number_at(bytes, index)?;
    let (steps, rest) = number_at(word_at(rest, b" steps ")?, u64::MAX)?;
    let (code, rest) = number_at(word_at(rest, b" stop ")?, 255)?;
    let (value, rest) = number_after(rest, 32)?;
    let (reads, rest) = numbers_at(alloc, word_at(rest, b"\nread")?)?;
    Ok((
        HartDeeds {
            steps,
            code: code as u8,
            value,
            reads,
        },
        rest,
    ))
}

/// The number of harts, and what each does, and what follows them.
#[tactic(auto, unfolding(crate::specs::Formats::taken_limited))]
pub(crate) fn harts_at(alloc: Global, bytes: &[u8]) -> Result<(Vec<HartDeeds>, &[u8]), ReadError>
    ensures { Gives (λ x. (map hart_view x.0.items, x.1.now)) result (harts_lines.taken bytes.now) }
{
    let (harts, rest) = counted_harts_at(alloc, bytes)?;
    if !are_few_steps(&harts) {
        return Err(refused(Cause::TooManySteps, bytes));
    }
    Ok((harts, rest))
}

/// Whether harts do no more steps together than an execution may have.
fn are_few_steps(harts: &[HartDeeds]) -> bool
    ensures { result ≡ are_few_steps (map hart_view harts.now) }
{
    let mut left = MOST_STEPS;
    for i in 0..harts.len() {
        let steps = harts[i].steps;
        if steps > left {
            return false;
        }
        left -= steps;
    }
    true
}

/// The same, however many steps they do.
fn counted_harts_at(alloc: Global, bytes: &[u8]) -> Result<(Vec<HartDeeds>, &[u8]), ReadError>
    ensures { Gives (λ x. (map hart_view x.0.items, x.1.now)) result
        ((counted (2 ^ 64 - 1) (λ n i. hart_lines i)).taken bytes.now) }
{
    let (count, rest) = number_at(bytes, u64::MAX)?;
    let rest = word_at(rest, b"\n")?;
    so_many_harts_at(alloc, rest, count)
}

/// What each of so many harts does, and what follows them.
#[tactic(auto, using(crate::proofs::Loops::starts))]
fn so_many_harts_at(
    alloc: Global,
    bytes: &[u8],
    count: u64,
) -> Result<(Vec<HartDeeds>, &[u8]), ReadError>
    ensures { Gives (λ x. (map hart_view x.0.items, x.1.now)) result
        ((each count hart_lines).taken bytes.now) }
{
    let mut harts = Vec::new(alloc);
    let mut rest = bytes;
    for index in 0..count {
        let (part, after) = hart_at(alloc, rest, index)?;
        harts.push(part)?;
        rest = after;
    }
    Ok((harts, rest))
}
