ghost use Rattle.std.specs.Prelude.{◌≡◌, length, take, drop};
ghost use Rattle.std.specs.Int.{w32, w64};
ghost use mir.Syntax.{w8};
ghost use Rattle.recording.specs.Fields.{bytes as length_and_bytes, number_or};
ghost use Rattle.recording.specs.Grammar.{from_version_2, hart_summary, number};
ghost use Rattle.recording.specs.Views.{Gives, hart_view};

use crate::cause::{Cause, ReadError};
use crate::recording::HartSummary;
use std::alloc::Global;

/// The number of eight bytes at the front, from low to high, and what follows it.
pub(crate) fn double_or(
    bytes: &[u8],
    short: Cause,
    wrong: Cause,
    low: u64,
    high: u64,
) -> Result<(u64, &[u8]), ReadError>
    ensures { Gives (λ x.
        (x.0, x.1.now)) result ((number_or w64 short wrong low high).taken bytes.now) }
{
    if bytes.len() < 8 {
        return Err(ReadError::Refused(short));
    }
    let (front, rest) = bytes.split_at(8);
    let number = u64::from_le_bytes([
        front[0], front[1], front[2], front[3], front[4], front[5], front[6], front[7],
    ]);
    if number < low || number > high {
        return Err(ReadError::Refused(wrong));
    }
    Ok((number, rest))
}

/// The number of four bytes at the front, from low to high, and what follows it.
pub(crate) fn word_or(
    bytes: &[u8],
    short: Cause,
    wrong: Cause,
    low: u32,
    high: u32,
) -> Result<(u32, &[u8]), ReadError>
    ensures { Gives (λ x.
        (x.0, x.1.now)) result ((number_or w32 short wrong low high).taken bytes.now) }
{
    if bytes.len() < 4 {
        return Err(ReadError::Refused(short));
    }
    let (front, rest) = bytes.split_at(4);
    let number = u32::from_le_bytes([front[0], front[1], front[2], front[3]]);
    if number < low || number > high {
        return Err(ReadError::Refused(wrong));
    }
    Ok((number, rest))
}

/// The byte at the front, from low to high, and what follows it.
pub(crate) fn byte_or(
    bytes: &[u8],
    short: Cause,
    wrong: Cause,
    low: u8,
    high: u8,
) -> Result<(u8, &[u8]), ReadError>
    ensures { Gives (λ x.
        (x.0, x.1.now)) result ((number_or w8 short wrong low high).taken bytes.now) }
{
    let Some((number, rest)) = bytes.split_first() else {
        return Err(ReadError::Refused(short));
    };
    if *number < low || *number > high {
        return Err(ReadError::Refused(wrong));
    }
    Ok((*number, rest))
}

/// A length of eight bytes and as many bytes, and what follows them.
pub(crate) fn bytes_at(alloc: Global, bytes: &[u8]) -> Result<(Vec<u8>, &[u8]), ReadError>
    ensures { Gives (λ x. (x.0.items, x.1.now)) result (length_and_bytes.taken bytes.now) }
{
    let (length, rest) = double_or(bytes, Cause::Cut, Cause::Cut, 0, u64::MAX)?;
    if length > rest.len() as u64 {
        return Err(ReadError::Refused(Cause::Cut));
    }
    let (text, rest) = rest.split_at(length as usize);
    Ok((Vec::from_slice(alloc, text)?, rest))
}

/// What a recording has of a hart, and what follows it.
pub(crate) fn hart_at(bytes: &[u8]) -> Result<(HartSummary, &[u8]), ReadError>
    ensures { Gives (λ x. (hart_view x.0, x.1.now)) result (hart_summary.taken bytes.now) }
{
    let (pc, rest) = double_or(bytes, Cause::Cut, Cause::OutOfRange, 0, u64::MAX)?;
    let (done, rest) = double_or(rest, Cause::Cut, Cause::OutOfRange, 0, u64::MAX)?;
    let (code, rest) = byte_or(rest, Cause::Cut, Cause::OutOfRange, 0, 10)?;
    let most = if code == 1 { u64::MAX } else { 0 };
    let (value, rest) = double_or(rest, Cause::Cut, Cause::OutOfRange, 0, most)?;
    Ok((
        HartSummary {
            pc,
            done,
            code,
            value,
        },
        rest,
    ))
}

/// A number from low to high that is there from version 2 on, and known before, and what follows it.
pub(crate) fn from_version_2(
    bytes: &[u8],
    version: u32,
    before: u32,
    low: u32,
    high: u32,
) -> Result<(u32, &[u8]), ReadError>
    ensures { Gives (λ x. (x.0, x.1.now)) result
        ((from_version_2 version before (number w32 low high)).taken bytes.now) }
{
    if version == 2 {
        return word_or(bytes, Cause::Cut, Cause::OutOfRange, low, high);
    }
    Ok((before, bytes))
}
