//! The CRC-32 of bytes, by which gdb compares memory with a file, and a table of a hunt tells of which program it is.
#![tactic(auto)]

mod checksum;

pub use checksum::checksum_of;
