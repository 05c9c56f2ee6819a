ghost use Rattle.std.specs.Prelude.{◌≡◌};
ghost use Rattle.recording.specs.declared.cause.ReadError.TheVariants.{OutOfMemory};
ghost use Rattle.recording.specs.Refusals.{refusal_number};

use std::alloc::{AllocError, AllocFailed};
use thiserror::Error;

/// Why a text is refused as a recording.
#[derive(Clone, Copy, Debug, PartialEq, Eq, Error)]
pub enum Cause {
    /// The first eight bytes are not there, or are not those of a recording.
    #[error("the file does not begin as a recording")]
    NotARecording,
    /// The version is another than 1 and 2.
    #[error("the recording has another version than 1 and 2")]
    Version,
    /// The text ends in a field.
    #[error("the recording ends before its fields do")]
    Cut,
    /// A field is out of range.
    #[error("a field of the recording is out of range")]
    OutOfRange,
    /// All fields are there, and bytes are left.
    #[error("bytes are left after the recording")]
    BytesLeft,
}

/// Why a text was not read.
#[derive(Clone, Copy, Debug, PartialEq, Eq, Error)]
pub enum ReadError {
    /// What is wrong with the text: the first cause in the order of its fields.
    #[error("{0}")]
    Refused(Cause),
    /// A request for memory was refused.
    #[error("a request for memory was refused")]
    OutOfMemory,
}

impl ReadError {
    /// The number of the refusal, as the program prints it: 41 to 45 for the text, and 20 for memory.
    pub fn number(self) -> u32
        ensures { result ≡ refusal_number self }
    {
        match self {
            ReadError::Refused(Cause::NotARecording) => 41,
            ReadError::Refused(Cause::Version) => 42,
            ReadError::Refused(Cause::Cut) => 43,
            ReadError::Refused(Cause::OutOfRange) => 44,
            ReadError::Refused(Cause::BytesLeft) => 45,
            ReadError::OutOfMemory => 20,
        }
    }
}

impl From<AllocError> for ReadError {
    ghost from_gives = { λ _ e. e ≡ OutOfMemory };

    fn from(_error: AllocError) -> ReadError {
        ReadError::OutOfMemory
    }
}

impl<T: Drop> From<AllocFailed<T>> for ReadError {
    ghost from_gives = { λ _ e. e ≡ OutOfMemory };

    fn from(_error: AllocFailed<T>) -> ReadError {
        ReadError::OutOfMemory
    }
}
