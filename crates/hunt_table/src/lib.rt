//! Tables of hunts: their text, written and read, and the tables of slices of one hunt merged into that of the whole. A table has the
//! plans of the hunt, and each ending with the plans that lead there.
#![tactic(auto)]

mod fingerprint;
mod header;
mod merge_error;
mod merging;
mod range_name;
mod read_error;
mod reading;
mod seen_range;
mod table;
mod writing;

pub use fingerprint::{Fingerprint, are_same_programs};
pub use header::Header;
pub use merge_error::MergeError;
pub use merging::{harts_of, merge};
pub use range_name::RangeName;
pub use read_error::ReadError;
pub use reading::read_table;
pub use seen_range::{SeenRange, are_alike_ranges, are_same_ranges};
pub use table::Table;
pub use writing::{EndingForm, add_ending, add_output, add_ranges, add_table, write_table};
