//! Loading guest programs: ELF files and flat files, as pieces of guest memory; and the objects and functions that an ELF file's symbol
//! table names.
#![tactic(auto)]

mod elf;
mod field;
mod finding;
mod flat;
mod header;
mod image;
mod object;
mod offset;
mod section;
mod segment;
mod symbol;
mod table;

pub use elf::load_elf;
pub use finding::{find_function, find_object, has_other_function, has_other_object};
pub use flat::load_flat;
pub use host_io::LoadError;
pub use image::Image;
pub use object::Object;
pub use offset::{SymbolOffset, find_object_offset, function_at};
pub use table::has_symbol_table;
