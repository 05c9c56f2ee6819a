//! Pictures of runs: the events of the harts in columns, and an arrow from each store to what read it, as SVG.
#![tactic(auto)]

mod arrows;
mod bands;
mod boxes;
mod elements;
mod event_box;
mod labels;
mod layout;
mod page;
mod rows;
mod scene;
mod site;
mod style;
mod titles;
mod view;

pub use arrows::{arrow_from as add_arrow_from, opening_arrow as add_opening_arrow};
pub use boxes::lines as add_lines;
pub use elements::{
    Curve, Point, Rectangle, add_curve, add_rectangle, line_down as add_line_down, start_label,
};
pub use event_box::EventBox;
pub use layout::{left_of, width_for};
pub use page::{page as add_page, start as add_start, write_picture};
pub use rows::events_shown;
pub use scene::Scene;
pub use site::Site;
pub use style::style as picture_style;
pub use titles::{object as add_object, pc as add_pc};
pub use view::View;
