//! Guest memory: bytes from address 0 on, in pages of 4096 bytes, with code ranges.
#![tactic(auto)]

mod access;
mod code;
mod laws;
mod making;
mod number;
mod out_of_memory;
mod pages;
mod part;
mod prepare;
mod spare;

pub use access::{Fault, Piece, Range, Store, Width};
pub use laws::{code_stays, last_store_wins};
pub use number::{number_in, write_number};
pub use out_of_memory::OutOfMemory;
pub use pages::{MOST_PAGES, Pages};
pub use part::Part;
