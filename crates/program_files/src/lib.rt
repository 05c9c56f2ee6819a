//! What a command of the program has of the world around it, and what a run that its line asks for is given.
//!
//! The world are files by name, standard output, standard error, and the exit status that a command ends with. Nothing can be proved of what
//! a file holds or where a stream's bytes go. So the traits here have relations, and a command, which is proved for every world, can only get
//! them by the call that gives them: that bytes are those of the file of a path, that a file was given a text, that all that was printed is
//! out.
//!
//! A run is given the files of the guest program, the plan, the settings, and the bytes of guest memory that the line names, by their
//! addresses or as objects of the image's symbol table.
#![tactic(auto)]

mod decimals;
mod exit_status;
mod failure;
mod fault;
mod files;
mod flags;
mod headers;
mod naming;
mod needed;
mod objects;
mod output;
mod plan_lines;
mod plans;
mod progress;
mod ranges;
mod reading;
mod reasons;
mod runs;
mod settings;
mod spurious;
mod wording;
mod world;

pub use decimals::tell_of_decimals;
pub use exit_status::ExitStatus;
pub use failure::CommandFailure;
pub use fault::NamingFault;
pub use files::{FileFault, FileText};
pub use flags::tell_of_flags;
pub use naming::{NamedBytes, is_in_memory, named_bytes};
pub use needed::needed_rounds;
pub use objects::{no_object, one_object};
pub use output::Output;
pub use plan_lines::{BadLine, LineFault};
pub use plans::{AskedPlan, family_plan, plan_of, row_of};
pub use progress::ProgressLine;
pub use ranges::seen_ranges;
pub use reading::{ProgramFiles, read_file, read_program, unreadable};
pub use reasons::{Apart, Misplaced, Unlike};
pub use runs::{RunFiles, read_run};
pub use settings::{format_of, guest_files, settings_of};
pub use world::World;
