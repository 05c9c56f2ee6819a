//! The grammar of the command line of `dethart`: its subcommands, and what each of them takes, as `clap` is told them.
#![tactic(auto)]

mod options;
mod rows;
mod tables;

pub use options::{command_for, subcommand_named};
