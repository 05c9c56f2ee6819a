ghost use Rattle.std.specs.Prelude.{◌≡◌};
ghost use Rattle.execution_file.specs.declared.cause.ReadError.TheVariants.{OutOfMemory};
ghost use Rattle.execution_file.specs.Refusals.{cause_number, refusal_number};

use std::alloc::{AllocError, AllocFailed};
use thiserror::Error;

/// Why a text is refused as an execution.
#[derive(Clone, Copy, Debug, PartialEq, Eq, Error)]
pub enum Cause {
    /// It doesn't begin as an execution does.
    #[error("the file does not begin as an execution")]
    NotAnExecution,
    /// The version is another than 1.
    #[error("the execution has another version than 1")]
    Version,
    /// The text ends in a part.
    #[error("the execution ends before its parts do")]
    Cut,
    /// A part isn't written as it has to be.
    #[error("a part of the execution is not written as it has to be")]
    Malformed,
    /// A number is too large.
    #[error("a number of the execution is too large")]
    OutOfRange,
    /// All parts are there, and text is left.
    #[error("text is left after the execution")]
    TextLeft,
    /// The harts do more steps together than an execution may have.
    #[error("the harts of the execution do more than 16777216 steps together")]
    TooManySteps,
}

impl Cause {
    /// The number of the refusal, as the program prints it.
    pub fn number(self) -> u32
        ensures { result ≡ cause_number self }
    {
        match self {
            Cause::NotAnExecution => 81,
            Cause::Version => 82,
            Cause::Cut => 83,
            Cause::Malformed => 84,
            Cause::OutOfRange => 85,
            Cause::TextLeft => 86,
            Cause::TooManySteps => 89,
        }
    }
}

/// What is wrong with a text, and where.
#[derive(Clone, Copy, Debug, PartialEq, Eq)]
pub struct Refusal {
    /// The first cause in the order of the parts.
    pub cause: Cause,
    /// How many bytes of the text stand from the position on where it was met.
    pub left: usize,
}

/// Why a text was not read.
#[derive(Clone, Copy, Debug, PartialEq, Eq, Error)]
pub enum ReadError {
    /// What is wrong with the text.
    #[error("{}", .0.cause)]
    Refused(Refusal),
    /// A request for memory was refused.
    #[error("a request for memory was refused")]
    OutOfMemory,
}

impl ReadError {
    /// The number of the refusal, as the program prints it: 81 to 86 and 89 for the text, and 20 for memory.
    pub fn number(self) -> u32
        ensures { result ≡ refusal_number self }
    {
        match self {
            ReadError::Refused(refusal) => refusal.cause.number(),
            ReadError::OutOfMemory => 20,
        }
    }
}

impl From<AllocError> for ReadError {
    ghost from_gives = { λ _ e. e ≡ OutOfMemory };

    fn from(_error: AllocError) -> ReadError {
        ReadError::OutOfMemory
    }
}

impl<T: Drop> From<AllocFailed<T>> for ReadError {
    ghost from_gives = { λ _ e. e ≡ OutOfMemory };

    fn from(_error: AllocFailed<T>) -> ReadError {
        ReadError::OutOfMemory
    }
}
