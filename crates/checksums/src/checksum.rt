ghost use Rattle.std.specs.Prelude.{◌≡◌};
ghost use Rattle.checksums.specs.Checksums.{checksum_of, times_x, times_x_to, with_byte};

/// The polynomial, but for its highest power.
const POLYNOMIAL: u32 = 0x04c1_1db7;

/// The CRC-32 of some bytes, as gdb's request `qCRC` has it: the highest bit of each byte comes first, the remainder begins with all ones,
/// and nothing is done to it at the end.
pub fn checksum_of(bytes: &[u8]) -> u32
    ensures { result ≡ checksum_of bytes.now }
{
    let mut remainder = u32::MAX;
    for byte in bytes {
        remainder = with_byte(remainder, *byte);
    }
    remainder
}

/// The remainder with a byte more.
#[tactic(auto, unfolding(crate::specs::Checksums::times_x_to))]
fn with_byte(remainder: u32, byte: u8) -> u32
    ensures { result ≡ with_byte remainder byte }
{
    let mut product = remainder ^ (u32::from(byte) * 0x100_0000);
    for done in 0..8_u32 {
        product = times_x(product);
    }
    product
}

/// A remainder times x.
fn times_x(remainder: u32) -> u32
    ensures { result ≡ times_x remainder }
{
    if remainder < 0x8000_0000 {
        remainder * 2
    } else {
        ((remainder - 0x8000_0000) * 2) ^ POLYNOMIAL
    }
}
