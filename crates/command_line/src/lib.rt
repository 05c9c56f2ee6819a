//! The command line of `dethart`: what it may say, and what it says.
#![tactic(auto)]

mod asking;
mod contradictions;
mod given;
mod numbers;
mod parsing;
mod readers;
mod settings;
mod usages;
mod words;

pub use asking::asked_by_options;
pub use numbers::address_in;
pub use parsing::parse_line;
pub use settings::{
    AllEndings, Bytes, Check, Command, Compare, Draw, Execution, FailOn, Fences, FencesFailOn, Gdb,
    Hunt, HuntUntil, Merge, Migrate, Plan, PlanChoice, Print, Program, Record, Replay, Run, Search,
    Shown, Shrink, Watch,
};
pub use usages::with_usage;
