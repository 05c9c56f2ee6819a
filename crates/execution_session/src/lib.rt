//! A debugger is served that looks at an execution: what each of its requests is answered, and where its session stands then.
#![tactic(auto)]

mod answering;
mod knowing;
mod moving;
mod opening;
mod serving;
mod session;
mod talk;
mod threads;

pub use answering::answer;
pub use opening::{Opened, open};
pub use serving::serve;
pub use session::{Session, Standing};
