//! The program headers of an ELF file.
ghost use Rattle.std.specs.Prelude.{◌≡◌, ◌<◌, ◌≤◌, ◌+◌, IfSome, length};
ghost use Rattle.elf_loader.specs.Segments.{field};
ghost use Rattle.program_files.specs.Spurious.{has_headers, place_at, place_of};

use byteorder::{ByteOrder, LittleEndian};

/// The length of an ELF64 file's header.
const HEADER: usize = 64;

/// The length of a program header.
const PROGRAM_HEADER: usize = 56;

/// The type of a program header whose segment is loaded.
const LOADED: u64 = 1;

/// The number of 1 to 8 bytes at an offset of a file, its least significant byte first; 0 where the file hasn't all of them.
#[tactic(auto, unfolding(elf_loader::specs::Segments::field))]
pub(crate) fn number_at(file: &[u8], offset: usize, size: usize) -> u64
    requires some { 1 ≤ size }
    requires few { size ≤ 8 }
    ensures { offset + size ≤ length file.now → result ≡ field file.now offset size }
{
    match file.get(offset..) {
        Some(rest) if size <= rest.len() => LittleEndian::read_uint(rest, size),
        _ => 0,
    }
}

/// Where an ELF file has the byte at an address of guest memory, if it has it.
#[tactic(auto, unfolding(crate::specs::Spurious::place_of))]
pub(crate) fn place_of(file: &[u8], address: u64) -> Option<usize>
    ensures place { result ≡ place_of file.now address }
    ensures within { IfSome result (λ place. place < length file.now) }
{
    if !has_headers(file) {
        return None;
    }
    let count = number_at(file, 56, 2);
    let mut header = number_at(file, 32, 8) as usize;
    'headers: for _ in 0..count {
        let place = place_at(file, header, address);
        if place.is_some() {
            return place;
        }
        header += PROGRAM_HEADER;
    }
    None
}

/// Whether the file has all of its program headers: 1 to 64 of 56 bytes each.
fn has_headers(file: &[u8]) -> bool
    ensures { result ≡ has_headers file.now }
{
    if file.len() < HEADER {
        return false;
    }
    let count = number_at(file, 56, 2);
    let end = u128::from(number_at(file, 32, 8)) + 56 * u128::from(count);
    number_at(file, 54, 2) == 56 && 1 <= count && count <= 64 && end <= file.len() as u128
}

/// Where the file has the byte at an address by the program header at an offset, if that is so.
fn place_at(file: &[u8], header: usize, address: u64) -> Option<usize>
    requires { header + 56 ≤ length file.now }
    ensures place { result ≡ place_at file.now header address }
    ensures within { IfSome result (λ place. place < length file.now) }
{
    let start = number_at(file, header + 16, 8);
    let size = number_at(file, header + 32, 8);
    if number_at(file, header, 4) != LOADED || address < start || address - start >= size {
        return None;
    }
    let place = u128::from(number_at(file, header + 8, 8)) + u128::from(address - start);
    if place < file.len() as u128 {
        Some(place as usize)
    } else {
        None
    }
}
