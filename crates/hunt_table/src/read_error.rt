ghost use Rattle.std.specs.Prelude.{◌≡◌};
ghost use Rattle.hunt_table.specs.Refusals.{read_number};
ghost use Rattle.hunt_table.specs.declared.read_error.ReadError.TheVariants.{OutOfMemory};

use thiserror::Error;

/// Why a text was not read as a table.
#[derive(Clone, Copy, Debug, PartialEq, Eq, Error)]
pub enum ReadError {
    /// It is not the text of a table.
    #[error("the file is not a table of a hunt")]
    NotATable,
    /// A request for memory was refused.
    #[error("a request for memory was refused")]
    OutOfMemory,
}

impl ReadError {
    /// The number of the refusal, as the program prints it: 71 for the text, and 20 for memory.
    pub fn number(self) -> u32
        ensures { result ≡ read_number self }
    {
        match self {
            ReadError::NotATable => 71,
            ReadError::OutOfMemory => 20,
        }
    }
}

impl From<pages::OutOfMemory> for ReadError {
    ghost from_gives = { λ _ e. e ≡ OutOfMemory };

    fn from(_refused: pages::OutOfMemory) -> ReadError {
        ReadError::OutOfMemory
    }
}
