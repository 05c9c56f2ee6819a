ghost use Rattle.std.specs.Prelude.{◌≡◌, ◌+◌, ◌*◌, ◌≤◌, true, length};
ghost use Rattle.std.specs.Option.{option_copied};
ghost use Rattle.elf_loader.specs.Symbols.{bytes_of, has_sections, section_at, strings_of, symbols_of};

use crate::field::{double_at, half_at, word_at};
use crate::header::{HEADER, has_magic, is_little_64, passes};

/// The length of a section header.
const SECTION_HEADER: u16 = 64;

/// The type of a section that is a symbol table.
const SYMBOL_TABLE: u32 = 2;

/// The type of a section that is a string table.
const STRING_TABLE: u32 = 3;

/// A part of an ELF file, by its section header.
#[derive(Clone, Copy)]
pub(crate) struct Section {
    /// Its type.
    pub kind: u32,
    /// Where its bytes begin in the file.
    pub offset: u64,
    /// How many bytes it has.
    pub size: u64,
    /// The number of the section that it is linked to.
    pub link: u32,
}

/// Whether the file is an ELF64 file whose section headers are all there.
pub(crate) fn has_sections(file: &[u8]) -> bool
    ensures { result ≡ has_sections file.now }
{
    if file.len() < HEADER {
        return false;
    }
    let length = u64::from(SECTION_HEADER) * u64::from(half_at(file, 60));
    has_magic(file)
        && is_little_64(file)
        && half_at(file, 58) == SECTION_HEADER
        && !passes(file.len() as u64, double_at(file, 40), length)
}

/// The section of the header at an offset.
fn section_at(file: &[u8], offset: usize) -> Section
    requires { offset + 64 ≤ length file.now }
    ensures { result ≡ section_at file.now offset }
{
    Section {
        kind: word_at(file, offset + 4),
        offset: double_at(file, offset + 24),
        size: double_at(file, offset + 32),
        link: word_at(file, offset + 40),
    }
}

/// The first symbol table.
pub(crate) fn symbols_of(file: &[u8]) -> Option<Section>
    requires { has_sections file.now ≡ true }
    ensures { result ≡ symbols_of file.now }
{
    let mut offset = double_at(file, 40) as usize;
    'headers: for _ in 0..half_at(file, 60) {
        let section = section_at(file, offset);
        if section.kind == SYMBOL_TABLE {
            return Some(section);
        }
        offset += SECTION_HEADER as usize;
    }
    None
}

/// The section of a number, where it is a string table.
pub(crate) fn strings_of(file: &[u8], number: u32) -> Option<Section>
    requires { has_sections file.now ≡ true }
    ensures { result ≡ strings_of file.now number }
{
    if number >= u32::from(half_at(file, 60)) {
        return None;
    }
    let offset = double_at(file, 40) as usize + SECTION_HEADER as usize * number as usize;
    let section = section_at(file, offset);
    (section.kind == STRING_TABLE).then_some(section)
}

/// A section's bytes, where they are all in the file.
pub(crate) fn bytes_of(file: &[u8], section: Section) -> Option<&[u8]>
    ensures { option_copied result ≡ bytes_of file.now section }
{
    if passes(file.len() as u64, section.offset, section.size) {
        return None;
    }
    let start = section.offset as usize;
    Some(&file[start..start + section.size as usize])
}
