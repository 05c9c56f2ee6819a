use crate::calls::Outcome;
use host_io::RunError;
use std::fmt::{self, Display};

/// What a trial came to.
#[derive(Clone, Copy, PartialEq, Eq)]
pub(crate) enum Ending {
    /// The call wasn't refused, and its outcome is the whole one.
    Done,
    /// The call was refused memory, all stood as it has to, and the same call then had the whole outcome.
    RefusedThenDone,
    /// What the call needs was refused memory before it.
    RefusedBefore,
    /// The call was refused memory, and what has to stand doesn't.
    Changed,
    /// An outcome isn't the whole one.
    Wrong,
    /// There was another refusal than of memory.
    Other,
}

impl Ending {
    /// Of a trial of one call that came to this, and wasn't refused memory.
    pub(crate) fn first(outcome: Outcome) -> Ending {
        match outcome {
            Outcome::Whole => Ending::Done,
            Outcome::Wrong | Outcome::Refused => Ending::Wrong,
            Outcome::RefusedBefore => Ending::RefusedBefore,
            Outcome::Other => Ending::Other,
        }
    }

    /// Of a trial in which the first call was refused memory, by what the second came to.
    pub(crate) fn second(outcome: Outcome) -> Ending {
        match outcome {
            Outcome::Whole => Ending::RefusedThenDone,
            _ => Ending::Wrong,
        }
    }

    /// Of a trial in which this was refused before the call.
    pub(crate) fn before(error: RunError) -> Ending {
        Ending::first(Outcome::before(&error))
    }

    /// Of a trial of several calls, of which this is the next. The first that didn't end well is told.
    pub(crate) fn and(self, next: Ending) -> Ending {
        match self {
            Ending::Done => next,
            Ending::RefusedThenDone if next == Ending::Done => Ending::RefusedThenDone,
            Ending::RefusedThenDone => next,
            _ => self,
        }
    }

    /// Whether nothing was found that must not be.
    pub(crate) fn is_well(self) -> bool {
        matches!(
            self,
            Ending::Done | Ending::RefusedThenDone | Ending::RefusedBefore
        )
    }
}

impl Display for Ending {
    fn fmt<W: fmt::Write>(&self, f: &mut fmt::Formatter<W>) -> fmt::Result {
        f.write_str(match self {
            Ending::Done => "done",
            Ending::RefusedThenDone => "refused, then done",
            Ending::RefusedBefore => "refused before",
            Ending::Changed => "changed",
            Ending::Wrong => "wrong",
            Ending::Other => "other",
        })
    }
}
