ghost use Rattle.std.specs.Prelude.{◌≡◌};
ghost use Rattle.host_io.specs.declared.error.RunError.TheVariants as refusals;
ghost use Rattle.hunter.specs.Refusals.{hunt_number};
ghost use Rattle.hunter.specs.declared.error.HuntError.TheVariants.{Run};

use host_io::RunError;
use thiserror::Error;

/// Why a hunt was refused.
#[derive(Clone, Copy, Debug, PartialEq, Eq, Error)]
pub enum HuntError {
    /// What refuses a run refuses the hunt.
    #[error("{0}")]
    Run(RunError),
    /// There is no plan, or a plan has a number over 4,294,967,294.
    #[error("a hunt has 1 or more plans, with numbers up to 4294967294")]
    PlansOutOfRange,
    /// A range of bytes that is looked at is empty, or one of its bytes lies outside guest memory.
    #[error("a range of bytes that is to be seen is empty, or isn't all in guest memory")]
    SeenOutside,
}

impl HuntError {
    /// The number of the refusal: that of the run's, and else 73 and 74 in the order above.
    pub fn number(self) -> u32
        ensures { result ≡ hunt_number self }
    {
        match self {
            HuntError::Run(error) => error.number(),
            HuntError::PlansOutOfRange => 73,
            HuntError::SeenOutside => 74,
        }
    }
}

impl From<RunError> for HuntError {
    ghost from_gives = { λ x e. e ≡ Run x };

    fn from(error: RunError) -> HuntError {
        HuntError::Run(error)
    }
}

impl From<pages::OutOfMemory> for HuntError {
    ghost from_gives = { λ _ e. e ≡ Run refusals.OutOfMemory };

    fn from(_refused: pages::OutOfMemory) -> HuntError {
        HuntError::Run(RunError::OutOfMemory)
    }
}
