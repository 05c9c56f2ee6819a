ghost use Rattle.std.specs.Prelude.{◌≡◌};
ghost use Rattle.host_io.specs.RunErrors.{plan_number};
ghost use Rattle.host_io.specs.declared.plan_error.PlanError.TheVariants.{OutOfMemory};

use std::alloc::{AllocError, AllocFailed};
use thiserror::Error;

/// Why a text is refused as a plan. Where several causes stand in a text, the one of the least number is answered.
#[derive(Clone, Copy, Debug, PartialEq, Eq, Error)]
pub enum PlanError {
    /// The text is not one or more rows, each of one or more decimal numbers with one space between and a line feed.
    #[error("the plan is not rows of decimal numbers with one space between, each row ended by a line feed")]
    NotAPlan,
    /// A number is 0 or over 1,000,000.
    #[error("a quota of the plan is 0 or over 1,000,000")]
    QuotaOutOfRange,
    /// A row has neither one number nor one for each hart.
    #[error("a row of the plan has neither one quota nor one for each hart")]
    RowLength,
    /// There are more than 256 rows.
    #[error("the plan has more than 256 rows")]
    TooManyRows,
    /// A request for memory was refused.
    #[error("a request for memory was refused")]
    OutOfMemory,
}

impl PlanError {
    /// The number of the error: 31 to 34 for what is wrong with the text, in the order above, and 20 for memory.
    pub fn number(self) -> u32
        ensures { result ≡ plan_number self }
    {
        match self {
            PlanError::NotAPlan => 31,
            PlanError::QuotaOutOfRange => 32,
            PlanError::RowLength => 33,
            PlanError::TooManyRows => 34,
            PlanError::OutOfMemory => 20,
        }
    }
}

impl From<AllocError> for PlanError {
    ghost from_gives = { λ _ e. e ≡ OutOfMemory };

    fn from(_error: AllocError) -> PlanError {
        PlanError::OutOfMemory
    }
}

impl<T: Drop> From<AllocFailed<T>> for PlanError {
    ghost from_gives = { λ _ e. e ≡ OutOfMemory };

    fn from(_error: AllocFailed<T>) -> PlanError {
        PlanError::OutOfMemory
    }
}
