//! The stores that a hart has done since the round began: bytes over guest memory, in lines of 64.
#![tactic(auto)]

mod laws;
mod line;
mod line_map;
mod lines;
mod slots;
mod store_buffer;
mod stores;

pub use laws::bytes_keep_history;
pub use line::Line;
pub use lines::Lines;
pub use store_buffer::StoreBuffer;
pub use stores::Stores;
