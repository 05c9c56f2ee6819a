ghost use Rattle.std.specs.Prelude.{◌≡◌};
ghost use Rattle.host_io.specs.declared.error.RunError.TheVariants as refusals;
ghost use Rattle.hunt_table.specs.Refusals.{merge_number, refusal_of};
ghost use Rattle.hunt_table.specs.declared.merge_error.MergeError.TheVariants.{Run};

use crate::read_error::ReadError;
use host_io::RunError;
use thiserror::Error;

/// Why tables were not merged.
#[derive(Clone, Copy, Debug, PartialEq, Eq, Error)]
pub enum MergeError {
    /// Memory was refused, or the sink failed.
    #[error("{0}")]
    Run(RunError),
    /// A text is not that of a table.
    #[error("a file is not a table of a hunt")]
    NotATable,
    /// The tables are none, or not those of slices of one hunt that follow on one another.
    #[error("the tables are not those of slices of one hunt, one after the other")]
    Apart,
    /// A table is of another program than those before it.
    #[error("the tables are of different programs")]
    OtherProgram,
}

impl MergeError {
    /// The number of the refusal: that of the run's, and else 71, 72 and 78 in the order above.
    pub fn number(self) -> u32
        ensures { result ≡ merge_number self }
    {
        match self {
            MergeError::Run(error) => error.number(),
            MergeError::NotATable => 71,
            MergeError::Apart => 72,
            MergeError::OtherProgram => 78,
        }
    }
}

impl From<RunError> for MergeError {
    ghost from_gives = { λ x e. e ≡ Run x };

    fn from(error: RunError) -> MergeError {
        MergeError::Run(error)
    }
}

impl From<pages::OutOfMemory> for MergeError {
    ghost from_gives = { λ _ e. e ≡ Run refusals.OutOfMemory };

    fn from(_refused: pages::OutOfMemory) -> MergeError {
        MergeError::Run(RunError::OutOfMemory)
    }
}

impl From<ReadError> for MergeError {
    ghost from_gives = { λ x e. e ≡ refusal_of x };

    fn from(error: ReadError) -> MergeError {
        match error {
            ReadError::NotATable => MergeError::NotATable,
            ReadError::OutOfMemory => MergeError::Run(RunError::OutOfMemory),
        }
    }
}
