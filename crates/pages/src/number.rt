ghost use Rattle.std.specs.Prelude.{◌≡◌, if◌then◌else◌, ◌-◌, ◌+◌, ◌*◌, ◌^◌, ◌<◌, ◌≤◌, ℕ, length, slice_index};
ghost use Rattle.pages.specs.Memory.{in_range, value_at, width_bytes, written};

use crate::Width;
use byteorder::{ByteOrder, LittleEndian};

/// The number of this width from a place in the bytes on, least significant byte first.
#[inline(always)]
pub fn number_in(bytes: &[u8], place: usize, width: Width) -> u64
    requires { place + width_bytes width ≤ length bytes.now }
    ensures value { result ≡ value_at bytes.now place width }
    ensures fits { result < 2 ^ (8 * width_bytes width) }
    ensures bytes { (k : ℕ) → slice_index bytes.now k < 2 ^ 8 }
{
    let from = &bytes[place..];
    match width {
        Width::W1 => u64::from(from[0]),
        Width::W2 => u64::from(LittleEndian::read_u16(from)),
        Width::W4 => u64::from(LittleEndian::read_u32(from)),
        Width::W8 => LittleEndian::read_u64(from),
    }
}

/// Writes the low bytes of a number from a place in the bytes on, least significant byte first.
#[inline(always)]
pub fn write_number(bytes: &mut [u8], place: usize, width: Width, value: u64)
    requires { place + width_bytes width ≤ length bytes.old }
    ensures written { bytes.new ≡ written bytes.old place value (width_bytes width) }
    ensures bytes { (k : ℕ) → slice_index bytes.old k < 2 ^ 8 }
{
    let to = &mut bytes[place..];
    match width {
        Width::W1 => to[0] = (value % 0x100) as u8,
        Width::W2 => LittleEndian::write_u16(to, (value % 0x1_0000) as u16),
        Width::W4 => LittleEndian::write_u32(to, (value % 0x1_0000_0000) as u32),
        Width::W8 => LittleEndian::write_u64(to, value),
    }
}

/// Lays bytes over others from a place on.
pub(crate) fn lay_over(bytes: &mut [u8], place: usize, part: &[u8])
    requires { place + length part.now ≤ length bytes.old }
    ensures laid { (k : ℕ) → slice_index bytes.new k ≡ (if in_range place (length part.now) k
        then slice_index part.now (k - place) else slice_index bytes.old k) }
    ensures old_bytes { (k : ℕ) → slice_index bytes.old k < 2 ^ 8 }
    ensures new_bytes { (k : ℕ) → slice_index bytes.new k < 2 ^ 8 }
{
    bytes[place..place + part.len()].copy_from_slice(part);
}
