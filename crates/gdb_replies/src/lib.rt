//! Replies of gdb's remote serial protocol: what a debugger is told of a recorded run, and the bytes that say it.
#![tactic(auto, using(crate::proofs::Texts::assoc))]

mod command_text;
mod description;
mod file_payload;
mod file_reply;
mod note;
mod payload;
mod registers;
mod reply;
mod stop_reply;
mod text;
mod thread_list;
mod window;
mod writing;

pub use command_text::{
    add_hart_line, add_harts_line, add_plan_head, add_quota, add_reservation_line, add_rounds_line,
    add_store_line, add_where_line, command_help,
};
pub use description::target_description;
pub use file_reply::FileReply;
pub use note::ThreadNote;
pub use registers::Registers;
pub use reply::Reply;
pub use stop_reply::{Reason, StopReply};
pub use text::{put, put_words};
pub use thread_list::{add_thread, begin_thread_list, end_thread_list};
pub use window::Window;
pub use writing::{reply_text, write_reply};
