ghost use Rattle.std.specs.Prelude.{◌≡◌};
ghost use Rattle.execution_moments.specs.Points.{later_of, point_before, side_number};

/// On which side of a time something is told, in the order in which a debugger comes by them on the way on.
#[derive(Clone, Copy)]
pub enum TimeSide {
    /// Behind the instruction before it, for that one's access.
    After,
    /// Behind that, and before what follows: nothing is told there.
    Between,
    /// Before the instruction at the time.
    Break,
    /// Before it as well, for its access.
    Access,
}

/// Where in an execution a debugger stands or is told something.
#[derive(Clone, Copy)]
pub struct TimePoint {
    /// The time.
    pub time: usize,
    /// The side of it.
    pub side: TimeSide,
}

impl TimePoint {
    /// Whether it comes before another one.
    pub fn is_before(&self, other: &TimePoint) -> bool
        ensures { result ≡ point_before self.now other.now }
    {
        self.time < other.time
            || (self.time == other.time && side_number(self.side) < side_number(other.side))
    }

    /// The later one of two.
    pub fn or_later(self, other: TimePoint) -> TimePoint
        ensures { result ≡ later_of self other }
    {
        if self.is_before(&other) { other } else { self }
    }
}

/// The order of the sides of a time.
fn side_number(side: TimeSide) -> u32
    ensures { result ≡ side_number side }
{
    match side {
        TimeSide::After => 0,
        TimeSide::Between => 1,
        TimeSide::Break => 2,
        TimeSide::Access => 3,
    }
}
