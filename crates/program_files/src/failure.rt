ghost use Rattle.std.specs.Prelude.{◌≡◌};
ghost use Rattle.program_files.specs.Failures.{failure_number, merging_failure, out_of_memory};
ghost use Rattle.program_files.specs.declared.failure.CommandFailure.TheVariants as failures;
ghost use Rattle.weak_hunter.specs.declared.error.WeakHuntError.TheVariants as hunts;

use crate::fault::NamingFault;
use crate::files::FileFault;
use crate::plan_lines::BadLine;
use crate::reasons::{Apart, Misplaced, Unlike};
use execution_file::Cause;
use fence_table::AcceptError;
use host_io::{NumberedRefusal, RunError};
use hunt_table::MergeError;
use hunter::HuntError;
use recording::ReadError;
use std::alloc::{AllocError, AllocFailed};
use weak_hunter::WeakHuntError;

/// Why a command isn't done. Which of these a command ends for, and when, its contract says.
#[derive(Drop)]
pub enum CommandFailure {
    /// A run was refused, memory was, or the output couldn't be written.
    Refused(RunError),
    /// A run was refused for the plan of a file, of which this line is bad.
    Plan(RunError, BadLine),
    /// The file of this path couldn't be read.
    File(String, FileFault),
    /// The file of this path couldn't be made or written.
    Unwritten(String),
    /// Waits were to return without a signal, and the image has no object `dethart_spurious`.
    NoSpurious,
    /// The bytes that the line names can't be looked at.
    Naming(NamingFault),
    /// The file that was read is no recording.
    Unread(ReadError),
    /// The text of a file is no execution: why, and in which line.
    NoExecution(Cause, usize),
    /// An execution was asked about rounds.
    NoRounds,
    /// A hunt was refused.
    Hunt(WeakHuntError),
    /// The file of this path has no table.
    NotATable(String),
    /// The tables of these files aren't of two slices of a hunt that follow on one another.
    Apart(String, String, Apart),
    /// A merge was refused: there are too many plans, or no tables.
    Merge(MergeError),
    /// Two tables can't be compared.
    Unlike(Unlike),
    /// The list of places that are accepted wasn't read.
    Accept(AcceptError),
    /// A fence was to be assumed before the instruction that this word names, and it names none, for this reason.
    NoPlace(String, Misplaced),
}

impl NumberedRefusal for CommandFailure {
    ghost refusal_number = { failure_number };

    fn number(&self) -> u32 {
        match self {
            CommandFailure::Refused(error) | CommandFailure::Plan(error, _) => error.number(),
            CommandFailure::File(_, FileFault::TooLarge) => 62,
            CommandFailure::File(_, FileFault::OutOfMemory) => RunError::OutOfMemory.number(),
            CommandFailure::File(_, _) => RunError::SourceFailed.number(),
            CommandFailure::Unwritten(_) => RunError::SinkFailed.number(),
            CommandFailure::NoSpurious => 79,
            CommandFailure::Naming(fault) => fault.number(),
            CommandFailure::Unread(error) => error.number(),
            CommandFailure::NoExecution(cause, _) => cause.number(),
            CommandFailure::NoRounds => 88,
            CommandFailure::Hunt(error) => error.number(),
            CommandFailure::NotATable(_) => MergeError::NotATable.number(),
            CommandFailure::Apart(_, _, Apart::Program) => MergeError::OtherProgram.number(),
            CommandFailure::Apart(_, _, _) | CommandFailure::Unlike(_) =>
                MergeError::Apart.number(),
            CommandFailure::Merge(error) => error.number(),
            CommandFailure::Accept(error) => error.number(),
            CommandFailure::NoPlace(_, _) => 77,
        }
    }
}

impl From<RunError> for CommandFailure {
    ghost from_gives = { λ error failure. failure ≡ failures.Refused error };

    fn from(error: RunError) -> CommandFailure {
        CommandFailure::Refused(error)
    }
}

impl From<HuntError> for CommandFailure {
    ghost from_gives = { λ error failure. failure ≡ failures.Hunt (hunts.Hunt error) };

    fn from(error: HuntError) -> CommandFailure {
        CommandFailure::Hunt(WeakHuntError::Hunt(error))
    }
}

impl From<WeakHuntError> for CommandFailure {
    ghost from_gives = { λ error failure. failure ≡ failures.Hunt error };

    fn from(error: WeakHuntError) -> CommandFailure {
        CommandFailure::Hunt(error)
    }
}

impl From<MergeError> for CommandFailure {
    ghost from_gives = { λ error failure. failure ≡ merging_failure error };

    fn from(error: MergeError) -> CommandFailure {
        match error {
            MergeError::Run(error) => CommandFailure::Refused(error),
            error => CommandFailure::Merge(error),
        }
    }
}

impl From<AcceptError> for CommandFailure {
    ghost from_gives = { λ error failure. failure ≡ failures.Accept error };

    fn from(error: AcceptError) -> CommandFailure {
        CommandFailure::Accept(error)
    }
}

impl From<pages::OutOfMemory> for CommandFailure {
    ghost from_gives = { λ _ failure. failure ≡ out_of_memory };

    fn from(_refused: pages::OutOfMemory) -> CommandFailure {
        CommandFailure::Refused(RunError::OutOfMemory)
    }
}

impl<T: Drop> From<AllocFailed<T>> for CommandFailure {
    ghost from_gives = { λ _ failure. failure ≡ out_of_memory };

    fn from(_refused: AllocFailed<T>) -> CommandFailure {
        CommandFailure::Refused(RunError::OutOfMemory)
    }
}

impl From<AllocError> for CommandFailure {
    ghost from_gives = { λ _ failure. failure ≡ out_of_memory };

    fn from(_refused: AllocError) -> CommandFailure {
        CommandFailure::Refused(RunError::OutOfMemory)
    }
}
