/// Whether a guest has other endings than those of a table.
#[derive(Clone, Copy, PartialEq, Eq)]
pub enum Others {
    /// It has none.
    Absent,
    /// It may have some.
    Possible(Why),
}

/// Why a guest may have other endings than those of a table: how far the search for them and its check came.
#[derive(Clone, Copy, PartialEq, Eq)]
pub enum Why {
    /// There was no more time.
    Time,
    /// There were more nodes than were to be gone through.
    Nodes,
    /// A hart may do more instructions than were to be followed.
    Steps,
    /// Several harts read the input.
    Input,
    /// A hart may ask for the number of the round.
    Round,
    /// A hart may make a call whose number isn't known yet when others go on.
    Call,
    /// More may be put out than a console takes.
    Output,
    /// A hart may be in more states than are looked at.
    States,
    /// Nothing stopped the search, but no checker has gone through it.
    Unchecked,
}
