//! What a run takes from the host and gives to it: sources of bytes, sinks of text, what a call that answers leaves of its sink, and why a
//! run, an image or a plan is refused.
#![tactic(auto)]

mod adapters;
mod error;
mod history;
mod load_error;
mod plan_error;
mod refusal;
mod sink;
mod source;

pub use adapters::{ReadSource, WriteSink};
pub use error::RunError;
pub use history::History;
pub use load_error::LoadError;
pub use plan_error::PlanError;
pub use refusal::NumberedRefusal;
pub use sink::{Sink, SinkFault, put_all};
pub use source::{Source, SourceFault, read_all};
