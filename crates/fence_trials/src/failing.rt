use hart_step::Stop;

/// How an execution fails.
#[derive(Clone, Copy)]
pub enum Failing {
    /// This hart stopped so, which is otherwise than by exit 0.
    Stopped(u8, Stop),
    /// All harts exit with 0, and the output is another than that of the ordinary runs.
    Output,
    /// The same of the bytes that are looked at.
    Seen,
    /// A hart runs on under two plans, where the ordinary runs end.
    Stuck,
}

/// What comes of an execution.
#[derive(Clone, Copy)]
pub(crate) enum Judgement {
    /// It ends as it has to.
    Well,
    /// It fails.
    Fails(Failing),
    /// It is cut off while a hart runs, and whether that one would go on for ever can't be told.
    Cut,
    /// It is none: a store came early that its hart didn't do.
    Void,
}

impl Failing {
    /// Whether two executions fail in one way, whichever hart it is that stops, and how.
    pub(crate) fn is_like(self, other: Failing) -> bool {
        self.way() == other.way()
    }

    /// The number of the way in which an execution fails.
    fn way(self) -> u8 {
        match self {
            Failing::Stopped(_, _) => 0,
            Failing::Output => 1,
            Failing::Seen => 2,
            Failing::Stuck => 3,
        }
    }
}
