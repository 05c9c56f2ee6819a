ghost use Rattle.std.specs.Prelude.{◌≡◌, ◌≤◌, map};
ghost use Rattle.recording.specs.Fields.{each, number_or};
ghost use Rattle.recording.specs.Grammar.{hart_summary, any, checkpoint_after, registers, summary};
ghost use Rattle.recording.specs.Views.{Gives, hart_view, checkpoint_view, registers_view, summary_view};
ghost use Rattle.std.specs.Int.{w64};

use crate::cause::{Cause, ReadError};
use crate::fields::{double_or, hart_at};
use crate::recording::{Checkpoint, HartSummary, Summary};
use std::alloc::Global;

/// What a recording has of so many harts, and what follows them.
#[tactic(auto, using(crate::proofs::Loops::starts))]
pub(crate) fn harts_at(
    alloc: Global,
    bytes: &[u8],
    count: u32,
) -> Result<(Vec<HartSummary>, &[u8]), ReadError>
    ensures { Gives (λ x. (map hart_view x.0.items, x.1.now)) result ((each count 0 (λ i.
        hart_summary)).taken bytes.now) }
{
    let mut harts = Vec::new(alloc);
    let mut rest = bytes;
    for _ in 0..count {
        let (hart, after) = hart_at(rest)?;
        harts.push(hart)?;
        rest = after;
    }
    Ok((harts, rest))
}

/// Registers x1 to x31 of a hart, and what follows them.
#[tactic(auto, using(crate::proofs::Loops::starts))]
pub(crate) fn hart_registers_at(alloc: Global, bytes: &[u8]) -> Result<(Vec<u64>, &[u8]), ReadError>
    ensures { Gives (λ x.
        (x.0.items, x.1.now)) result ((each 31 1 (λ x. any w64)).taken bytes.now) }
{
    let mut registers = Vec::new(alloc);
    let mut rest = bytes;
    for _ in 0..31u32 {
        let (value, after) = double_or(rest, Cause::Cut, Cause::OutOfRange, 0, u64::MAX)?;
        registers.push(value)?;
        rest = after;
    }
    Ok((registers, rest))
}

/// The same of so many harts.
#[tactic(auto, using(crate::proofs::Loops::starts))]
pub(crate) fn registers_at(
    alloc: Global,
    bytes: &[u8],
    count: u32,
) -> Result<(Vec<Vec<u64>>, &[u8]), ReadError>
    ensures { Gives (λ x.
        (map (λ r. r.items) x.0.items, x.1.now)) result ((registers count).taken bytes.now) }
{
    let mut harts = Vec::new(alloc);
    let mut rest = bytes;
    for _ in 0..count {
        let (registers, after) = hart_registers_at(alloc, rest)?;
        harts.push(registers)?;
        rest = after;
    }
    Ok((harts, rest))
}

/// The summary of a state with so many harts, and what follows it.
pub(crate) fn summary_at(
    alloc: Global,
    bytes: &[u8],
    count: u32,
) -> Result<(Summary, &[u8]), ReadError>
    ensures { Gives (λ x. (summary_view x.0, x.1.now)) result ((summary count).taken bytes.now) }
{
    let (output, rest) = double_or(bytes, Cause::Cut, Cause::OutOfRange, 0, u64::MAX)?;
    let (trace, rest) = double_or(rest, Cause::Cut, Cause::OutOfRange, 0, u64::MAX)?;
    let (harts, rest) = harts_at(alloc, rest, count)?;
    Ok((
        Summary {
            output,
            trace,
            harts,
        },
        rest,
    ))
}

/// What a recording has of a round, and what follows it.
pub(crate) fn checkpoint_at(
    alloc: Global,
    bytes: &[u8],
    count: u32,
    every: u32,
    round: u32,
) -> Result<(Checkpoint, &[u8]), ReadError>
    ensures { Gives (λ x.
        (checkpoint_view x.0, x.1.now)) result
        ((checkpoint_after count every round).taken bytes.now) }
{
    let (summary, rest) = summary_at(alloc, bytes, count)?;
    if every != 0 && round % every == 0 {
        let (registers, rest) = registers_at(alloc, rest, count)?;
        return Ok((
            Checkpoint {
                summary,
                registers: Some(registers),
            },
            rest,
        ));
    }
    Ok((
        Checkpoint {
            summary,
            registers: None,
        },
        rest,
    ))
}

/// What a recording has of so many rounds, and what follows it.
#[tactic(auto, using(crate::proofs::Loops::starts))]
pub(crate) fn rounds_at(
    alloc: Global,
    bytes: &[u8],
    count: u32,
    every: u32,
    rounds: u32,
) -> Result<(Vec<Checkpoint>, &[u8]), ReadError>
    ensures { Gives (λ x. (map checkpoint_view x.0.items, x.1.now)) result
        ((each rounds 1 (checkpoint_after count every)).taken bytes.now) }
{
    let mut checkpoints = Vec::new(alloc);
    let mut rest = bytes;
    for done in 0..rounds {
        let (round, after) = checkpoint_at(alloc, rest, count, every, done + 1)?;
        checkpoints.push(round)?;
        rest = after;
    }
    Ok((checkpoints, rest))
}
