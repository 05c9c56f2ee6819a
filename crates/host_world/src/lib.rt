//! The world of the program: the files of the host, its streams, and how far a command is. Nothing can be proved of a host, so the
//! relations of its files and of its output say nothing here: a command is proved for all that they may say.
#![tactic(auto)]

mod output;
mod progress;
mod saving;
mod searches;
mod world;

pub use output::HostOutput;
pub use progress::HostProgress;
pub use world::HostWorld;
