ghost use Rattle.std.specs.Prelude.{◌≡◌, option_map};
ghost use Rattle.elf_loader.specs.Offsets.{as_offset, before_zero, function_at, is_mark, is_word, object_offset, offset_in, offset_of};
ghost use Rattle.std.specs.List.{list_all};

use crate::symbol::{FUNCTION, OBJECT, Symbol, holder_among};
use crate::table::table_of;

/// A byte of what a symbol names.
#[derive(Clone, Copy)]
pub struct SymbolOffset<'a> {
    /// The symbol's name, without the byte 0 that ends it in the file.
    pub name: &'a [u8],
    /// How far the byte is from the first one.
    pub offset: u64,
}

/// The bytes before the first 0, and all of them where there is none.
#[tactic(auto, using(crate::proofs::Holding::zero_here, crate::proofs::Holding::no_zero_here))]
fn before_zero(bytes: &[u8]) -> &[u8]
    ensures { result.now ≡ before_zero bytes.now }
{
    for (end, byte) in bytes.iter().enumerate() {
        if *byte == 0 {
            return &bytes[..end];
        }
    }
    bytes
}

/// The offset of a symbol at an address.
fn offset_in<'a>(strings: &'a [u8], address: u64, symbol: Symbol) -> SymbolOffset<'a>
    ensures { as_offset result ≡ offset_in strings.now address symbol }
{
    let rest = strings.get(symbol.name as usize..).unwrap_or(&[]);
    SymbolOffset {
        name: before_zero(rest),
        offset: address.saturating_sub(symbol.value),
    }
}

/// The offset of the first symbol of a type that has an address.
#[tactic(auto, unfolding(crate::specs::Offsets::offset_of))]
fn find_offset(kind: u8, file: &[u8], address: u64) -> Option<SymbolOffset<'_>>
    ensures { option_map as_offset result ≡ offset_of kind file.now address }
{
    let table = table_of(file)?;
    let symbol = holder_among(kind, table.entries, address)?;
    Some(offset_in(table.names, address, symbol))
}

/// The object of the symbol table of an ELF64 file that has the byte at an address: the first of type STT_OBJECT whose bytes have it.
///
/// There is none where `find_object` finds none either, whatever the name.
pub fn find_object_offset(file: &[u8], address: u64) -> Option<SymbolOffset<'_>>
    ensures { option_map as_offset result ≡ object_offset file.now address }
{
    find_offset(OBJECT, file, address)
}

/// Whether a byte is a character that can be printed, and no blank.
fn is_mark(byte: u8) -> bool
    ensures { result ≡ is_mark byte }
{
    byte > 32 && byte < 127
}

fn are_marks(bytes: &[u8]) -> bool
    ensures { result ≡ list_all is_mark bytes.now }
{
    bytes.iter().all(|byte| is_mark(*byte))
}

/// Whether bytes are a word: some characters that can be printed, and no blank.
fn is_word(bytes: &[u8]) -> bool
    ensures { result ≡ is_word bytes.now }
{
    bytes.len() > 0 && are_marks(bytes)
}

/// The function that has the instruction at an address, by the symbol table of an ELF64 file: the first of type STT_FUNC whose bytes
/// have it.
///
/// There is none where the file is no little-endian ELF64 file, a table that is read passes its end, or the name has other bytes
/// than printable ones without blanks.
#[tactic(auto, unfolding(crate::specs::Offsets::function_at))]
pub fn function_at(file: &[u8], address: u64) -> Option<SymbolOffset<'_>>
    ensures { option_map as_offset result ≡ function_at file.now address }
{
    let offset = find_offset(FUNCTION, file, address)?;
    if is_word(offset.name) {
        Some(offset)
    } else {
        None
    }
}
