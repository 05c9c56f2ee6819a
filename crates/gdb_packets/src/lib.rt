//! Packets of gdb's remote serial protocol: what a debugger's bytes say, what a payload asks for, and the one text of what is answered.
#![tactic(auto)]

mod command;
mod commands;
mod draft;
mod fields;
mod file_request;
mod files;
mod item;
mod laws;
mod payload;
mod reader;
mod reading;
mod request;
mod steps;
mod telling;
mod writing;

pub use command::Command;
pub use file_request::FileRequest;
pub use files::IMAGE_NAME;
pub use item::Item;
pub use laws::{told_in_any_pieces, written_is_read};
pub use reader::Reader;
pub use reading::request_of;
pub use request::{Request, Watch};
pub use writing::{acknowledge, packet_text, write_packet};
