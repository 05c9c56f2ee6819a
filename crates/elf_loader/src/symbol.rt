ghost use Rattle.std.specs.Prelude.{◌≡◌, ◌+◌, ◌≤◌, length};
ghost use Rattle.elf_loader.specs.Offsets.{has_address, holder_among};
ghost use Rattle.elf_loader.specs.Symbols.{is_name, is_named, is_of, is_other, object_at, object_among, other_among, symbol_at};

use crate::field::{double_at, word_at};
use crate::object::Object;

/// The length of an entry of a symbol table.
const ENTRY: usize = 24;

/// The type of a symbol that is an object.
pub(crate) const OBJECT: u8 = 1;

/// The type of a symbol that is a function.
pub(crate) const FUNCTION: u8 = 2;

/// What an entry of a symbol table says.
#[derive(Clone, Copy)]
pub(crate) struct Symbol {
    /// Where its name begins among the strings.
    pub name: u32,
    /// Its type, in the low four bits, and its binding.
    pub info: u8,
    /// Its address.
    pub value: u64,
    /// How many bytes it has.
    pub size: u64,
}

/// Whether the string at an offset is this name.
fn is_name(strings: &[u8], start: usize, name: &[u8]) -> bool
    ensures { result ≡ is_name strings.now start name.now }
{
    if start >= strings.len() || strings.len() - start <= name.len() {
        return false;
    }
    let end = start + name.len();
    &strings[start..end] == name && strings[end] == 0
}

impl Symbol {
    /// The symbol of the entry at an offset.
    fn at(entries: &[u8], offset: usize) -> Symbol
        requires { offset + 24 ≤ length entries.now }
        ensures { result ≡ symbol_at entries.now offset }
    {
        Symbol {
            name: word_at(entries, offset),
            info: entries[offset + 4],
            value: double_at(entries, offset + 8),
            size: double_at(entries, offset + 16),
        }
    }

    fn is_of(&self, kind: u8) -> bool
        ensures { result ≡ is_of kind self.now }
    {
        self.info & 15 == kind && self.size > 0
    }

    fn is_named(&self, kind: u8, strings: &[u8], name: &[u8]) -> bool
        ensures { result ≡ is_named kind strings.now name.now self.now }
    {
        self.is_of(kind) && is_name(strings, self.name as usize, name)
    }

    /// Whether it is of a type and a name, and at another address than this one.
    fn is_other(&self, kind: u8, strings: &[u8], name: &[u8], address: u64) -> bool
        ensures { result ≡ is_other kind strings.now name.now address self.now }
    {
        self.is_named(kind, strings, name) && self.value != address
    }

    /// Whether it is of a type and has an address.
    fn has_address(&self, kind: u8, address: u64) -> bool
        ensures { result ≡ has_address kind address self.now }
    {
        self.is_of(kind) && self.value <= address && address - self.value < self.size
    }

    fn object(&self) -> Object
        ensures { result ≡ object_at self.now }
    {
        Object {
            address: self.value,
            length: self.size,
        }
    }
}

/// The first symbol of a type and a name among the entries of a symbol table.
#[tactic(auto, unfolding(crate::specs::Symbols::object_among))]
pub(crate) fn object_among(kind: u8, entries: &[u8], strings: &[u8], name: &[u8]) -> Option<Object>
    ensures { result ≡ object_among kind entries.now strings.now name.now }
{
    let mut offset = 0;
    'entries: for _ in 0..entries.len() / ENTRY {
        let symbol = Symbol::at(entries, offset);
        if symbol.is_named(kind, strings, name) {
            return Some(symbol.object());
        }
        offset += ENTRY;
    }
    None
}

/// Whether a symbol of a type and a name among the entries of a symbol table is at another address than this one.
#[tactic(auto, unfolding(crate::specs::Symbols::other_among))]
pub(crate) fn other_among(
    kind: u8,
    entries: &[u8],
    strings: &[u8],
    name: &[u8],
    address: u64,
) -> bool
    ensures { result ≡ other_among kind entries.now strings.now name.now address }
{
    let mut offset = 0;
    'entries: for _ in 0..entries.len() / ENTRY {
        let symbol = Symbol::at(entries, offset);
        if symbol.is_other(kind, strings, name, address) {
            return true;
        }
        offset += ENTRY;
    }
    false
}

/// The first symbol of a type that has an address among the entries of a symbol table.
#[tactic(auto, unfolding(crate::specs::Offsets::holder_among))]
pub(crate) fn holder_among(kind: u8, entries: &[u8], address: u64) -> Option<Symbol>
    ensures { result ≡ holder_among kind entries.now address }
{
    let mut offset = 0;
    'entries: for _ in 0..entries.len() / ENTRY {
        let symbol = Symbol::at(entries, offset);
        if symbol.has_address(kind, address) {
            return Some(symbol);
        }
        offset += ENTRY;
    }
    None
}
