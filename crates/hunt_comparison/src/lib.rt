//! Two tables of a hunt, as of an old and of a new build of a program: which endings only one has, and which come more or less often. The
//! command `compare` prints these.
#![tactic(auto)]

mod comparing;
mod status;
mod twins;
mod unlike;
mod writing;

pub use comparing::compare_command;
pub use status::compare_status;
pub use twins::{Compared, Twin, compare_rows};
pub use unlike::unlikeness;
pub use writing::write_comparison;
