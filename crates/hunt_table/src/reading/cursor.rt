ghost use Rattle.std.specs.Prelude.{◌≡◌, length, take, drop, slice_index};
ghost use Rattle.hunt_table.specs.Reading.{digit_value, hex_value, number_after, number_at, word_at};

/// What follows so many bytes, or nothing where there are fewer.
pub(crate) fn skip(text: &[u8], count: usize) -> &[u8]
    ensures { result.now ≡ drop count text.now }
{
    &text[count.min(text.len())..]
}

/// The byte at a position, or 0 where there is none.
pub(crate) fn byte_at(text: &[u8], position: usize) -> u8
    ensures { result ≡ slice_index text.now position }
{
    if position < text.len() {
        text[position]
    } else {
        0
    }
}

/// The decimal number at the front, and what follows. A number over the largest is told as the largest.
#[tactic(auto, unfolding(crate::specs::Reading::number_at))]
pub(crate) fn number_at(text: &[u8]) -> (u64, &[u8])
    ensures number { result.0 ≡ (number_at text.now).0 }
    ensures rest { result.1.now ≡ (number_at text.now).1 }
{
    let mut number: u64 = 0;
    let mut rest = text;
    'digits: while let [digit @ b'0'..=b'9', after @ ..] = rest {
        number = number
            .saturating_mul(10)
            .saturating_add(u64::from(digit - b'0'));
        rest = after;
    }
    (number, rest)
}

/// The same with 32 bits.
pub(crate) fn word_at(text: &[u8]) -> (u32, &[u8])
    ensures number { result.0 ≡ (word_at text.now).0 }
    ensures rest { result.1.now ≡ (word_at text.now).1 }
{
    let (number, rest) = number_at(text);
    (number.min(u64::from(u32::MAX)) as u32, rest)
}

/// The value of a hexadecimal digit.
fn digit_value(digit: u8) -> u8
    ensures { result ≡ digit_value digit }
{
    if digit < b'a' {
        digit.saturating_sub(b'0')
    } else {
        digit - b'a' + 10
    }
}

/// The number of the hexadecimal digits at the front, as many as asked for.
#[tactic(auto, unfolding(crate::specs::Reading::hex_value))]
pub(crate) fn hex_at(text: &[u8], digits: usize) -> u64
    ensures { result ≡ hex_value (take digits text.now) }
{
    let mut number: u64 = 0;
    for digit in &text[..digits.min(text.len())] {
        number = number
            .wrapping_mul(16)
            .wrapping_add(u64::from(digit_value(*digit)));
    }
    number
}
