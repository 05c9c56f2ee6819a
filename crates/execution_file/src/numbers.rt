ghost use Rattle.std.specs.Prelude.{◌≡◌, ◌≤◌, ◌<◌, ◌+◌, ◌-◌, ◌*◌, ◌^◌, IfOk, SomeIff};
ghost use Rattle.execution_file.specs.Numerals.{after_digits, digits_at, is_digit, is_numeral, value_of};
ghost use Rattle.execution_file.specs.Formats.{after, number};
ghost use Rattle.execution_file.specs.Views.{Gives};

use crate::cause::{Cause, ReadError};
use crate::words::refused;

/// Whether a byte is a decimal digit.
fn is_digit(byte: u8) -> bool
    ensures { result ≡ is_digit byte }
{
    byte >= 48 && byte <= 57
}

/// The digits at the front, and what follows them.
fn split_digits(bytes: &[u8]) -> (&[u8], &[u8])
    ensures digits { result.0.now ≡ digits_at bytes.now }
    ensures rest { result.1.now ≡ after_digits bytes.now }
{
    let mut count = 0;
    while count < bytes.len() && is_digit(bytes[count]) {
        count += 1;
    }
    bytes.split_at(count)
}

/// Whether these digits are how a number is written.
fn is_numeral(digits: &[u8]) -> bool
    ensures { result ≡ is_numeral digits.now }
{
    match digits {
        [] => false,
        [_] => true,
        [first, ..] => *first != 48,
    }
}

/// The number with one digit more, where it has 64 bits.
fn next_value(value: u64, digit: u8) -> Option<u64>
    ensures { SomeIff result (10 * value + (digit - 48) < 2 ^ 64) (10 * value + (digit - 48)) }
{
    match value.checked_mul(10) {
        Some(tens) => tens.checked_add(u64::from(digit.saturating_sub(48))),
        None => None,
    }
}

/// The number that digits write, where it has 64 bits.
fn value_of(digits: &[u8]) -> Option<u64>
    ensures { SomeIff result (value_of digits.now < 2 ^ 64) (value_of digits.now) }
{
    let mut value = 0u64;
    for digit in digits {
        match next_value(value, *digit) {
            Some(next) => value = next,
            None => return None,
        }
    }
    Some(value)
}

/// The number at the front, and what follows it.
pub(crate) fn number_at(bytes: &[u8], high: u64) -> Result<(u64, &[u8]), ReadError>
    ensures gives { Gives (λ x. (x.0, x.1.now)) result ((number high).taken bytes.now) }
    ensures within { IfOk result (λ x. x.0 ≤ high) }
{
    let (digits, rest) = split_digits(bytes);
    if !is_numeral(digits) {
        return Err(match bytes {
            [] => refused(Cause::Cut, bytes),
            _ => refused(Cause::Malformed, bytes),
        });
    }
    match value_of(digits) {
        Some(value) if value <= high => Ok((value, rest)),
        _ => Err(refused(Cause::OutOfRange, bytes)),
    }
}

/// The number after a byte that says that it is there, and what follows it.
pub(crate) fn number_after(bytes: &[u8], sign: u8) -> Result<(Option<u64>, &[u8]), ReadError>
    ensures { Gives (λ x. (x.0, x.1.now)) result
        ((after sign (number (2 ^ 64 - 1))).taken bytes.now) }
{
    match bytes {
        [first, ..] if *first == sign => {
            let (number, rest) = number_at(&bytes[1..], u64::MAX)?;
            Ok((Some(number), rest))
        }
        _ => Ok((None, bytes)),
    }
}
