ghost use Rattle.std.specs.Prelude.{◌≡◌};
ghost use Rattle.execution_scripts.specs.declared.fault.Halt.TheVariants as halts;

use pages::OutOfMemory;
use std::alloc::{AllocError, AllocFailed};
use thiserror::Error;

/// Why what a file says of a hart is no step of it.
#[derive(Clone, Copy, Debug, PartialEq, Eq, Error)]
pub enum Misfit {
    /// The hart has no such step.
    #[error("there is no such hart, or it has stopped")]
    NoStep,
    /// The instruction reads a number, and the hart's line has no more.
    #[error("it reads a number, and its line has no more")]
    NoNumber,
    /// The instruction doesn't read the number that stands there.
    #[error("it reads {read}, and its line has {said}")]
    OtherNumber {
        /// The number that it reads; of an SC 1 where it succeeds and 0 where it fails.
        read: u64,
        /// The number that the line has.
        said: u64,
    },
    /// The hart stops before it has done so many steps, or after them where it is to run on.
    #[error("the hart stops here")]
    Stops,
    /// The hart doesn't stop after so many steps.
    #[error("the hart doesn't stop here")]
    RunsOn,
    /// The hart exits with another value than it is said, or isn't said to exit.
    #[error("the hart exits here, and its line has another end than 'stop 1 {value}'")]
    OtherExit {
        /// The value of the exit call.
        value: u64,
    },
    /// The hart is stopped otherwise than it is said.
    #[error("the hart stops here, and its line has another end than 'stop {code}'")]
    OtherStop {
        /// The stop code.
        code: u8,
    },
    /// A hart that runs on is said to stop with a value.
    #[error("the hart is to run on, and its line has the value of an exit call")]
    RunsOnWithValue,
    /// Numbers are left after the last step.
    #[error("the hart is done, and its line has more numbers")]
    NumbersLeft,
    /// A call is listed that the hart doesn't make.
    #[error("the hart makes no further call, and the calls have one")]
    NoCall,
    /// The round of a call is before that of an earlier one, or no round.
    #[error("the round of its call is before that of an earlier one, or too large")]
    NoRound,
    /// A hart does otherwise than is said, in a way that nothing else here names.
    #[error("a hart does otherwise than the file says")]
    Otherwise,
    /// An order has a memory operation that the hart doesn't do.
    #[error("the hart does no further memory operation, and the order has one")]
    NoOperation,
}

/// Where what a file says is no execution, and why.
#[derive(Clone, Copy, Debug, PartialEq, Eq, Error)]
#[error("step {step} of hart {hart}: {misfit}")]
pub struct Fault {
    /// The hart.
    pub hart: u8,
    /// How many instructions it had done.
    pub step: u64,
    /// Why.
    pub misfit: Misfit,
}

/// Why a file wasn't followed to its end.
#[derive(Clone, Copy)]
pub enum Halt {
    /// What it says is no execution.
    Fault(Fault),
    /// A request for memory was refused.
    OutOfMemory,
}

impl From<OutOfMemory> for Halt {
    ghost from_gives = { λ _ halt. halt ≡ halts.OutOfMemory };

    fn from(_error: OutOfMemory) -> Halt {
        Halt::OutOfMemory
    }
}

impl From<AllocError> for Halt {
    ghost from_gives = { λ _ halt. halt ≡ halts.OutOfMemory };

    fn from(_error: AllocError) -> Halt {
        Halt::OutOfMemory
    }
}

impl<T: Drop> From<AllocFailed<T>> for Halt {
    ghost from_gives = { λ _ halt. halt ≡ halts.OutOfMemory };

    fn from(_error: AllocFailed<T>) -> Halt {
        Halt::OutOfMemory
    }
}
