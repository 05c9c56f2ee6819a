//! What a debugger is answered about a hart of a run at a point.
#![tactic(auto)]

mod answering;
mod commands;
mod comparing;
mod covering;
mod files;
mod noting;
mod threads;

pub use answering::{answer_memory, answer_note, answer_register, answer_registers};
pub use commands::{answer_harts, answer_plan, answer_where};
pub use comparing::answer_checksum;
pub use files::file_reply;
pub use threads::answer_threads;
