ghost use Rattle.std.specs.Prelude.{◌≡◌};
ghost use Rattle.fence_table.specs.Accepting.{accept_number};
ghost use Rattle.fence_table.specs.declared.accept_error.AcceptError.TheVariants.{OutOfMemory};

use std::alloc::{AllocError, AllocFailed};
use thiserror::Error;

/// Why a list of gaps was not read.
#[derive(Clone, Copy, Debug, PartialEq, Eq, Error)]
pub enum AcceptError {
    /// Memory was refused.
    #[error("a request for memory was refused")]
    OutOfMemory,
    /// A line, counted from 1, is neither empty nor a comment, and has not two words with one blank between them.
    #[error("line {0} of the places to accept has not two words")]
    NotAGap(u64),
}

impl AcceptError {
    /// The number of the refusal, as the program prints it.
    pub fn number(self) -> u32
        ensures { result ≡ accept_number self }
    {
        match self {
            AcceptError::OutOfMemory => 20,
            AcceptError::NotAGap(_) => 76,
        }
    }
}

impl From<AllocError> for AcceptError {
    ghost from_gives = { λ _ e. e ≡ OutOfMemory };

    fn from(_refused: AllocError) -> AcceptError {
        AcceptError::OutOfMemory
    }
}

impl<T: Drop> From<AllocFailed<T>> for AcceptError {
    ghost from_gives = { λ _ e. e ≡ OutOfMemory };

    fn from(_refused: AllocFailed<T>) -> AcceptError {
        AcceptError::OutOfMemory
    }
}

impl From<pages::OutOfMemory> for AcceptError {
    ghost from_gives = { λ _ e. e ≡ OutOfMemory };

    fn from(_refused: pages::OutOfMemory) -> AcceptError {
        AcceptError::OutOfMemory
    }
}
