ghost use Rattle.std.specs.Prelude.{◌≡◌};
ghost use Rattle.past_harts.specs.Points.{is_behind_move, point_before, same_moment, side_number};

use crate::moment::{Moment, phase_number};

/// On which side of a moment something is told, and of which move, in the order in which a debugger comes by them on the way on.
#[derive(Clone, Copy)]
pub enum Side {
    /// Behind the move of its hart that leads there.
    After,
    /// Behind that move as well, as a rival.
    RivalAfter,
    /// Before the hart's next move.
    Break,
    /// Before that move as well, as a rival.
    Rival,
    /// Before that move, for its access.
    Access,
}

/// Where in a run a debugger stops: a moment, and a side of it. A hart's moment is told of behind its last instruction and before its
/// next one, and other harts may do theirs between.
#[derive(Clone, Copy)]
pub struct Point {
    /// The moment.
    pub moment: Moment,
    /// The side of it.
    pub side: Side,
}

impl Side {
    /// Whether it is that behind a move.
    pub fn is_behind_move(self) -> bool
        ensures { result ≡ is_behind_move self }
    {
        match self {
            Side::After | Side::RivalAfter => true,
            Side::Break | Side::Rival | Side::Access => false,
        }
    }
}

impl Point {
    /// Whether it comes before another one.
    pub fn is_before(&self, other: &Point) -> bool
        ensures { result ≡ point_before self.now other.now }
    {
        self.moment.is_before(&other.moment)
            || (self.moment.is_same(&other.moment)
                && side_number(self.side) < side_number(other.side))
    }
}

impl Moment {
    /// Whether it is another one.
    pub fn is_same(&self, other: &Moment) -> bool
        ensures { result ≡ same_moment self.now other.now }
    {
        self.rounds == other.rounds
            && phase_number(self.place.phase) == phase_number(other.place.phase)
            && self.place.hart == other.place.hart
            && self.place.count == other.place.count
    }
}

/// The order of the sides of a moment.
fn side_number(side: Side) -> u32
    ensures { result ≡ side_number side }
{
    match side {
        Side::After => 0,
        Side::RivalAfter => 1,
        Side::Break => 2,
        Side::Rival => 3,
        Side::Access => 4,
    }
}
