//! Nodes: memory, the stores since then, and where the runs of harts go on from there. Which of them serve the lists of others, and how
//! their stores are laid into memory.
#![tactic(auto)]

mod laying;
mod marking;
mod node;
mod nodes;
mod program;
mod raising;
mod standing;
mod staying;

pub use node::{Node, first_node};
pub use nodes::Nodes;
pub use program::MappedProgram;
pub use raising::next_node;
