//! Runs a guest program, and draws a picture of its run, or writes its trace for viewers of traces; and draws executions: the memory
//! operations of the harts in columns, one below the other in the order of memory, an arrow from each store to what read it, and a line from
//! each operation that is out of its hart's order to where the program has it; as SVG.
#![tactic(auto)]

mod boxes;
mod drawing;
mod drawn_rounds;
mod homes;
mod layout;
mod legend;
mod page;
mod scene;
mod sites;
mod sources;
mod strays;
mod tracing;

pub use drawing::draw_run;
pub use page::write_execution_picture;
pub use picture::View;
pub use scene::ExecutionScene;
pub use sites::object_touched;
pub use tracing::trace_run;
