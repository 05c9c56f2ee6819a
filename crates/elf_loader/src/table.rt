ghost use Rattle.std.specs.Prelude.{◌≡◌, option_map};
ghost use Rattle.elf_loader.specs.Symbols.{as_entries, has_symbol_table, table_of};

use crate::section::{bytes_of, has_sections, strings_of, symbols_of};

/// The symbol table of an ELF64 file.
#[derive(Clone, Copy)]
pub(crate) struct SymbolTable<'a> {
    /// Its entries.
    pub entries: &'a [u8],
    /// The strings that their names are among.
    pub names: &'a [u8],
}

/// Whether an ELF64 file has a symbol table, as one that was stripped hasn't.
pub fn has_symbol_table(file: &[u8]) -> bool
    ensures { result ≡ has_symbol_table file.now }
{
    has_sections(file) && symbols_of(file).is_some()
}

/// The symbol table of an ELF64 file, if it and the names are all in the file.
#[tactic(auto, unfolding(crate::specs::Symbols::table_of))]
pub(crate) fn table_of(file: &[u8]) -> Option<SymbolTable<'_>>
    ensures { option_map as_entries result ≡ table_of file.now }
{
    if !has_sections(file) {
        return None;
    }
    let symbols = symbols_of(file)?;
    let strings = strings_of(file, symbols.link)?;
    let entries = bytes_of(file, symbols)?;
    let names = bytes_of(file, strings)?;
    Some(SymbolTable { entries, names })
}
