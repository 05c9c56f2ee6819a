//! A debugger is served: what each of its requests is answered, and what its session is then.
#![tactic(auto)]

mod answering;
mod goto;
mod hits;
mod opening;
mod reading;
mod serving;
mod talk;

pub use answering::answer;
pub use opening::open;
pub use serving::serve;
