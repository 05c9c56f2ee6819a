use crate::point::TimePoint;

/// What is told at a point.
#[derive(Clone, Copy)]
pub struct Told {
    /// The point.
    pub point: TimePoint,
    /// The number of the hart that it is told of.
    pub number: u8,
    /// The watchpoint that tells it, by its index in the list, where one does.
    pub watch: Option<usize>,
}
