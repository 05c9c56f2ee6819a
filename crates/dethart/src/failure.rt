ghost use Rattle.std.specs.Prelude.{◌≡◌};
ghost use Rattle.dethart.specs.Status.{status_of};
ghost use Rattle.host_io.specs.declared.error.RunError.TheVariants as refusals;
ghost use Rattle.dethart.specs.declared.failure.Failure.TheVariants as failures;

use crate::refusal::tell;
use host_io::RunError;
use program_files::{CommandFailure, ExitStatus};
use std::alloc::{AllocError, AllocFailed};
use std::io;

/// Why the words of a line come to no command.
#[derive(Drop)]
pub(crate) enum Failure {
    /// The command line is bad; the error has the text for the user.
    Line(clap::Error),
    /// An argument isn't UTF-8.
    NotText,
    /// Memory was refused, or the help that was asked for couldn't be printed.
    Refused(RunError),
    /// What reads standard output has gone, as `head` does.
    ReaderGone,
}

impl<T: Drop> From<AllocFailed<T>> for Failure {
    ghost from_gives = { λ _ failure. failure ≡ failures.Refused refusals.OutOfMemory };

    fn from(_refused: AllocFailed<T>) -> Failure {
        Failure::Refused(RunError::OutOfMemory)
    }
}

impl From<AllocError> for Failure {
    ghost from_gives = { λ _ failure. failure ≡ failures.Refused refusals.OutOfMemory };

    fn from(_refused: AllocError) -> Failure {
        Failure::Refused(RunError::OutOfMemory)
    }
}

impl Failure {
    /// The exit status of the program: 1 for a refusal, and 2 for a bad command line.
    pub(crate) fn status(&self) -> ExitStatus
        ensures { result ≡ status_of self.now }
    {
        match self {
            Failure::Line(_) | Failure::NotText => ExitStatus::BadLine,
            Failure::Refused(_) | Failure::ReaderGone => ExitStatus::Refused,
        }
    }

    /// Says on standard error what it is.
    pub(crate) fn print(&self, rt: &HostRuntime) -> io::Result<()> {
        match self {
            Failure::Line(error) => error.print(rt),
            Failure::NotText => rt.eprintln("error: an argument isn't UTF-8"),
            Failure::Refused(error) => tell(rt, &CommandFailure::Refused(*error)),
            Failure::ReaderGone => Ok(()),
        }
    }
}
