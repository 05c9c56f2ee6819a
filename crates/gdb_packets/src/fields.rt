ghost use Rattle.std.specs.Prelude.{◌≡◌, ◌<◌, IfSome, slice_index};
ghost use Rattle.std.specs.Option.{option_map};
ghost use Rattle.hex.specs.Hex.{hex_digit_value, lower_digits};
ghost use Rattle.gdb_packets.specs.Fields.{behind, behind_spelled, number_from, spelled_digit, spelled_from, spelled_number, thread_of, three_numbers, two_numbers};

/// What stands behind a word, where the text begins with it.
pub(crate) fn behind<'a>(word: &[u8], text: &'a [u8]) -> Option<&'a [u8]>
    ensures { option_map (λ rest. rest.now) result ≡ behind word.now text.now }
{
    let [first, others @ ..] = word else {
        return Some(text);
    };
    let [byte, rest @ ..] = text else {
        return None;
    };
    if first == byte {
        behind(others, rest)
    } else {
        None
    }
}

/// What stands behind a word that is spelled in two digits a byte, where the text begins with it.
#[tactic(auto, unfolding(crate::specs::Fields::behind_spelled))]
pub(crate) fn behind_spelled<'a>(word: &[u8], text: &'a [u8]) -> Option<&'a [u8]>
    ensures { option_map (λ rest. rest.now) result ≡ behind_spelled word.now text.now }
{
    let [first, others @ ..] = word else {
        return Some(text);
    };
    let digits = [digit_of(first / 16), digit_of(first % 16)];
    match behind(digits.as_slice(), text) {
        Some(rest) => behind_spelled(others, rest),
        None => None,
    }
}

/// The digit of a value, in lower case.
fn digit_of(value: u8) -> u8
    requires { value < 16 }
    ensures { result ≡ slice_index lower_digits value }
{
    b"0123456789abcdef"[value as usize]
}

/// The value of a hexadecimal digit.
pub(crate) fn digit_value(digit: u8) -> Option<u8>
    ensures value { result ≡ hex_digit_value digit }
    ensures least { IfSome result (λ v. v < 16) }
{
    match digit {
        b'A'..=b'F' => Some(digit - 55),
        b'a'..=b'f' => Some(digit - 87),
        b'0'..=b'9' => Some(digit - 48),
        _ => None,
    }
}

/// The number whose digits are those before and the first ones of a text, and what follows it.
#[tactic(auto, unfolding(crate::specs::Fields::number_from))]
pub(crate) fn number_from(before: u64, text: &[u8]) -> Option<(u64, &[u8])>
    ensures { option_map (λ x. (x.0, x.1.now)) result ≡ number_from before text.now }
{
    match text {
        [] => Some((before, text)),
        [digit, rest @ ..] => match digit_value(*digit) {
            None => Some((before, text)),
            Some(value) => {
                if before < 0x1000_0000_0000_0000 {
                    number_from(before * 16 + u64::from(value), rest)
                } else {
                    None
                }
            }
        },
    }
}

/// The value of a decimal digit that is spelled in two hexadecimal ones.
fn spelled_digit(high: u8, low: u8) -> Option<u8>
    ensures value { result ≡ spelled_digit high low }
    ensures least { IfSome result (λ v. v < 10) }
{
    if high == 51 && 48 <= low && low <= 57 {
        Some(low - 48)
    } else {
        None
    }
}

/// The number whose spelled digits are those before and the first ones of a text, and what follows it.
#[tactic(auto, unfolding(crate::specs::Fields::spelled_from))]
fn spelled_from(before: u64, text: &[u8]) -> Option<(u64, &[u8])>
    ensures { option_map (λ x. (x.0, x.1.now)) result ≡ spelled_from before text.now }
{
    let [high, others @ ..] = text else {
        return Some((before, text));
    };
    let [low, rest @ ..] = others else {
        return Some((before, text));
    };
    let Some(value) = spelled_digit(*high, *low) else {
        return Some((before, text));
    };
    if before < 0x1000_0000_0000_0000 {
        spelled_from(before * 10 + u64::from(value), rest)
    } else {
        None
    }
}

/// A number whose decimal digits are spelled, of which there is at least one, and what follows it.
pub(crate) fn spelled_number(text: &[u8]) -> Option<(u64, &[u8])>
    ensures { option_map (λ x. (x.0, x.1.now)) result ≡ spelled_number text.now }
{
    let [high, others @ ..] = text else {
        return None;
    };
    let [low, rest @ ..] = others else {
        return None;
    };
    let first = spelled_digit(*high, *low)?;
    spelled_from(u64::from(first), rest)
}

/// Two numbers with a comma between them.
pub(crate) fn two_numbers(text: &[u8]) -> Option<(u64, u64)>
    ensures { result ≡ two_numbers text.now }
{
    let (first, rest) = number_from(0, text)?;
    let rest = behind(b",", rest)?;
    let (second, _) = number_from(0, rest)?;
    Some((first, second))
}

/// Three numbers with commas between them.
pub(crate) fn three_numbers(text: &[u8]) -> Option<(u64, u64, u64)>
    ensures { result ≡ three_numbers text.now }
{
    let (first, rest) = number_from(0, text)?;
    let rest = behind(b",", rest)?;
    let (second, third) = two_numbers(rest)?;
    Some((first, second, third))
}

/// One thread, or none where any will do.
pub(crate) fn thread_of(text: &[u8]) -> Option<u64>
    ensures { result ≡ thread_of text.now }
{
    let (thread, _) = number_from(0, text)?;
    if thread == 0 { None } else { Some(thread) }
}
