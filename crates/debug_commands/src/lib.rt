//! The command that serves a debugger: `gdb`.
#![tactic(auto)]

mod debuggee;
mod debugging;

pub use debugging::debug_command;
