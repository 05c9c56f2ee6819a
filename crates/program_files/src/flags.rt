//! What the flags of an ELF file say that no hart has.

use crate::world::World;

/// The flag of a program that may have compressed instructions.
const COMPRESSED: u8 = 1;

/// The flags of a program whose functions pass floats in registers of their own.
const FLOATS: u8 = 6;

/// Says on standard error where the flags of an ELF file, of which this is a beginning, say that the program was built for
/// compressed instructions or for registers of floats.
pub fn tell_of_flags<W: World>(world: &W, path: &str, beginning: &[u8]) {
    let flags = flags_of(beginning);
    let what = match (flags & COMPRESSED != 0, flags & FLOATS != 0) {
        (false, false) => return,
        (true, false) => "compressed instructions",
        (false, true) => "registers of floats",
        (true, true) => "compressed instructions and registers of floats",
    };
    world.tell(format_args!(
        "{path} was built for {what}, as its e_flags say, and a hart has none: build it with -march=rv64ima -mabi=lp64"
    ));
}

/// The first byte of the flags of an ELF file of 64 bits for RISC-V that begins so; 0 for any other file.
fn flags_of(beginning: &[u8]) -> u8 {
    let is_elf = beginning.starts_with(b"\x7fELF\x02\x01");
    let is_risc_v = beginning.get(18..20) == Some(b"\xf3\x00".as_slice());
    match beginning.get(48) {
        Some(flags) if is_elf && is_risc_v => *flags,
        _ => 0,
    }
}
