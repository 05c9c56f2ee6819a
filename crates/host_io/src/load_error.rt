ghost use Rattle.std.specs.Prelude.{◌≡◌};
ghost use Rattle.host_io.specs.RunErrors.{image_number};
ghost use Rattle.host_io.specs.declared.load_error.LoadError.TheVariants.{OutOfMemory};

use std::alloc::{AllocError, AllocFailed};
use thiserror::Error;

/// Why a file is refused. Where several causes stand in a file, the one of the least number is answered.
#[derive(Clone, Copy, Debug, PartialEq, Eq, Error)]
pub enum LoadError {
    /// An ELF file is shorter than its header of 64 bytes.
    #[error("the file is shorter than an ELF header")]
    TooShort,
    /// The first four bytes are not those of an ELF file.
    #[error("the file is not an ELF file")]
    Magic,
    /// The class is not 64 bits, the data not little-endian, or the version not 1.
    #[error("the file is not a little-endian ELF64 file of version 1")]
    Class,
    /// The file is not an executable.
    #[error("the ELF file is not an executable")]
    Type,
    /// The machine is not RISC-V.
    #[error("the ELF file is not for RISC-V")]
    Machine,
    /// The program headers have not 56 bytes each, are none or over 64, or pass the file's end.
    #[error("the program headers are not those of an ELF64 file, are none or over 64, or pass the file's end")]
    HeaderTable,
    /// A segment passes the file's end, or has more bytes in the file than in memory.
    #[error("a segment passes the file's end, or has more bytes in the file than in memory")]
    SegmentPastFile,
    /// A segment, or a flat file, passes the end of guest memory.
    #[error("a segment or the flat file passes the end of guest memory")]
    PastMemory,
    /// Two segments share an address.
    #[error("two segments share an address")]
    SharedAddress,
    /// A segment is both code and writable.
    #[error("a segment is both code and writable")]
    WritableCode,
    /// The entry is not a multiple of 4, or its four bytes are not code.
    #[error("the entry is not a multiple of 4, or its four bytes are not code")]
    Entry,
    /// The length of a flat file is 0 or not a multiple of 4.
    #[error("the length of the flat file is 0 or not a multiple of 4")]
    FlatLength,
    /// A request for memory was refused.
    #[error("a request for memory was refused")]
    OutOfMemory,
}

impl LoadError {
    /// The number of the error: 1 to 12 for what is wrong with the file, in the order above, and 20 for memory.
    pub fn number(self) -> u32
        ensures { result ≡ image_number self }
    {
        match self {
            LoadError::TooShort => 1,
            LoadError::Magic => 2,
            LoadError::Class => 3,
            LoadError::Type => 4,
            LoadError::Machine => 5,
            LoadError::HeaderTable => 6,
            LoadError::SegmentPastFile => 7,
            LoadError::PastMemory => 8,
            LoadError::SharedAddress => 9,
            LoadError::WritableCode => 10,
            LoadError::Entry => 11,
            LoadError::FlatLength => 12,
            LoadError::OutOfMemory => 20,
        }
    }
}

impl From<AllocError> for LoadError {
    ghost from_gives = { λ _ e. e ≡ OutOfMemory };

    fn from(_error: AllocError) -> LoadError {
        LoadError::OutOfMemory
    }
}

impl<T: Drop> From<AllocFailed<T>> for LoadError {
    ghost from_gives = { λ _ e. e ≡ OutOfMemory };

    fn from(_error: AllocFailed<T>) -> LoadError {
        LoadError::OutOfMemory
    }
}
