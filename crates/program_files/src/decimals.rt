//! Decimal addresses that would be addresses of the image in hexadecimal, too.

use crate::headers::number_at;
use crate::world::World;
use command_line::Bytes;

/// Says on standard error how the first decimal address was read whose digits are an address of the image in hexadecimal, too.
pub fn tell_of_decimals<W: World>(world: &W, image: &[u8], is_flat: bool, seen: &[Bytes]) {
    for bytes in seen {
        let address = bytes.address;
        let other = digits_in_hexadecimal(address);
        let differs = bytes.is_decimal && other != u128::from(address);
        if differs && is_in_image(image, is_flat, other) {
            world.tell(format_args!(
                "the address {address} was read in decimal, as 0x{address:x}: write 0x{address} for the hexadecimal one"
            ));
            return;
        }
    }
}

/// The number that the decimal digits of a number are in hexadecimal. None below 2^64 has more than twenty.
fn digits_in_hexadecimal(number: u64) -> u128 {
    let mut rest = number;
    let mut other: u128 = 0;
    for place in 0..20u32 {
        other = other | u128::from(rest % 10).wrapping_shl(4 * place);
        rest = rest / 10;
    }
    other
}

/// Whether an address is one of a flat file, or of a segment of an ELF file.
fn is_in_image(image: &[u8], is_flat: bool, address: u128) -> bool {
    if is_flat {
        return address < image.len() as u128;
    }
    let count = number_at(image, 56, 2);
    for index in 0..count {
        let header = u128::from(number_at(image, 32, 8)) + 56 * u128::from(index);
        if is_in_segment(image, header, address) {
            return true;
        }
    }
    false
}

/// Whether an address is one of the segment whose program header stands at an offset.
fn is_in_segment(image: &[u8], header: u128, address: u128) -> bool {
    let Ok(header) = usize::try_from(header) else {
        return false;
    };
    let start = u128::from(number_at(image, header.saturating_add(16), 8));
    let length = u128::from(number_at(image, header.saturating_add(40), 8));
    number_at(image, header, 4) == 1 && start <= address && address < start + length
}
