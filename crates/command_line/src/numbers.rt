//! The numbers that texts are.
ghost use Rattle.std.specs.Prelude.{◌≡◌, ◌≤◌};
ghost use Rattle.std.specs.Str.Parse.{without_leading_plus};
ghost use Rattle.command_line.specs.Reading.{address_in, has_leading_zero, is_decimal, number_in};

/// The address that the text is: in hexadecimal after `0x`, and else in decimal without leading zeros, since an address that
/// is printed begins with them and is hexadecimal.
pub fn address_in(text: &str) -> Option<u64>
    ensures { result ≡ address_in text.now }
{
    match text.strip_prefix("0x") {
        Some(digits) => number_in(digits, 16),
        None if has_leading_zero(text) => None,
        None => number_in(text, 10),
    }
}

/// Whether the text of an address is in decimal.
pub(crate) fn is_decimal(text: &str) -> bool
    ensures { result ≡ is_decimal text.now }
{
    !text.starts_with("0x")
}

/// Whether the digits begin with a zero and have more after it.
fn has_leading_zero(text: &str) -> bool
    ensures { result ≡ has_leading_zero text.now }
{
    let digits = without_plus(text.as_bytes());
    digits.starts_with(b"0") && digits.len() > 1
}

/// The text without a plus that it begins with.
fn without_plus(text: &[u8]) -> &[u8]
    ensures { result.now ≡ without_leading_plus text.now }
{
    if !text.is_empty() && text[0] == b'+' {
        &text[1..]
    } else {
        text
    }
}

/// The number of 64 bits that the digits are.
pub(crate) fn number_in(digits: &str, radix: u32) -> Option<u64>
    requires least { 2 ≤ radix }
    requires most { radix ≤ 36 }
    ensures { result ≡ number_in 64 radix digits.now }
{
    u64::from_str_radix(digits, radix).ok()
}
