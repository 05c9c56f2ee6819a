ghost use Rattle.std.specs.Prelude.{◌≡◌, ◌<◌, true};
ghost use Rattle.execution_file.specs.Grammar.{bytes as counted_bytes, is_line_end};
ghost use Rattle.execution_file.specs.Formats.{broken, byte, each, hex_value, is_hex};
ghost use Rattle.execution_file.specs.Views.{Gives};

use crate::cause::{Cause, ReadError};
use crate::numbers::number_at;
use crate::words::{refused, word_at};
use std::alloc::Global;

/// Whether a byte is a hexadecimal digit, of lower case.
fn is_hex(digit: u8) -> bool
    ensures { result ≡ is_hex digit }
{
    (digit >= 48 && digit <= 57) || (digit >= 97 && digit <= 102)
}

/// The number of a hexadecimal digit.
fn hex_value(digit: u8) -> u8
    requires { is_hex digit ≡ true }
    ensures value { result ≡ hex_value digit }
    ensures small { result < 16 }
{
    if digit < 97 { digit - 48 } else { digit - 87 }
}

/// A byte of two digits, and what follows it.
fn byte_at(bytes: &[u8]) -> Result<(u8, &[u8]), ReadError>
    ensures { Gives (λ x. (x.0, x.1.now)) result (byte.taken bytes.now) }
{
    match bytes {
        [] | [_] => Err(refused(Cause::Cut, bytes)),
        [high, low, ..] => {
            if !is_hex(*high) || !is_hex(*low) {
                return Err(refused(Cause::Malformed, bytes));
            }
            Ok((16 * hex_value(*high) + hex_value(*low), &bytes[2..]))
        }
    }
}

/// Byte `index` of so many, and what follows it and the end of its line.
fn byte_of_line(bytes: &[u8], count: u64, index: u64) -> Result<(u8, &[u8]), ReadError>
    requires { index < count }
    ensures { Gives (λ x. (x.0, x.1.now)) result
        ((broken (is_line_end count index) byte).taken bytes.now) }
{
    let (byte, rest) = byte_at(bytes)?;
    if index + 1 == count || (index + 1) % 32 == 0 {
        return Ok((byte, word_at(rest, b"\n")?));
    }
    Ok((byte, rest))
}

/// The number of bytes, and their lines, and what follows them.
#[tactic(auto, using(crate::proofs::Loops::starts))]
pub(crate) fn bytes_at(alloc: Global, bytes: &[u8]) -> Result<(Vec<u8>, &[u8]), ReadError>
    ensures { Gives (λ x. (x.0.items, x.1.now)) result (counted_bytes.taken bytes.now) }
{
    let (count, rest) = number_at(bytes, u64::MAX)?;
    let rest = word_at(rest, b"\n")?;
    lines_at(alloc, rest, count)
}

/// The lines of so many bytes, and what follows them.
#[tactic(auto, using(crate::proofs::Loops::starts))]
fn lines_at(alloc: Global, bytes: &[u8], count: u64) -> Result<(Vec<u8>, &[u8]), ReadError>
    ensures { Gives (λ x. (x.0.items, x.1.now)) result
        ((each count (λ i. broken (is_line_end count i) byte)).taken bytes.now) }
{
    let mut all = Vec::new(alloc);
    let mut rest = bytes;
    for index in 0..count {
        let (byte, after) = byte_of_line(rest, count, index)?;
        all.push(byte)?;
        rest = after;
    }
    Ok((all, rest))
}
