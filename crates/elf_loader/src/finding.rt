ghost use Rattle.std.specs.Prelude.{◌≡◌};
ghost use Rattle.elf_loader.specs.Symbols.{function_of, has_other, has_other_function, has_other_object, named_of, object_of};

use crate::object::Object;
use crate::symbol::{FUNCTION, OBJECT, object_among, other_among};
use crate::table::table_of;

/// The object of a name in the symbol table of an ELF64 file: of the symbols with this name, the first that is an object of
/// one or more bytes. The name is given without the byte 0 that ends it in the file.
///
/// There is none where the file is no little-endian ELF64 file, or a table that is read passes its end.
pub fn find_object(file: &[u8], name: &[u8]) -> Option<Object>
    ensures { result ≡ object_of file.now name.now }
{
    find_named(OBJECT, file, name)
}

/// The function of a name, likewise.
pub fn find_function(file: &[u8], name: &[u8]) -> Option<Object>
    ensures { result ≡ function_of file.now name.now }
{
    find_named(FUNCTION, file, name)
}

/// What a type and a name stand for.
#[tactic(auto, unfolding(crate::specs::Symbols::named_of))]
fn find_named(kind: u8, file: &[u8], name: &[u8]) -> Option<Object>
    ensures { result ≡ named_of kind file.now name.now }
{
    let table = table_of(file)?;
    object_among(kind, table.entries, table.names, name)
}

/// Whether the symbol table of an ELF64 file has an object of a name, of one or more bytes, at another address than this one: as where
/// static objects of several files of a program share a name, so that `find_object` finds one of several.
///
/// It has none where the file is no little-endian ELF64 file, or a table that is read passes its end.
pub fn has_other_object(file: &[u8], name: &[u8], address: u64) -> bool
    ensures { result ≡ has_other_object file.now name.now address }
{
    has_other_named(OBJECT, file, name, address)
}

/// Whether it has a function of a name at another address than this one, likewise.
pub fn has_other_function(file: &[u8], name: &[u8], address: u64) -> bool
    ensures { result ≡ has_other_function file.now name.now address }
{
    has_other_named(FUNCTION, file, name, address)
}

/// Whether a type and a name stand for another address than this one, too.
#[tactic(auto, unfolding(crate::specs::Symbols::has_other))]
fn has_other_named(kind: u8, file: &[u8], name: &[u8], address: u64) -> bool
    ensures { result ≡ has_other kind file.now name.now address }
{
    match table_of(file) {
        Some(table) => other_among(kind, table.entries, table.names, name, address),
        None => false,
    }
}
