ghost use Rattle.std.specs.Prelude.{◌≡◌};
ghost use Rattle.host_io.specs.declared.error.RunError.TheVariants as refusals;
ghost use Rattle.hunter.specs.declared.error.HuntError.TheVariants as hunting;
ghost use Rattle.weak_hunter.specs.Refusals.{weak_hunt_number};
ghost use Rattle.weak_hunter.specs.declared.error.WeakHuntError.TheVariants.{Hunt};

use host_io::RunError;
use hunter::HuntError;
use thiserror::Error;

/// Why a weak hunt was refused.
#[derive(Clone, Copy, Debug, PartialEq, Eq, Error)]
pub enum WeakHuntError {
    /// What refuses a hunt refuses a weak one.
    #[error("{0}")]
    Hunt(HuntError),
    /// The checker of executions finds something else than the machine that made the execution of this number.
    #[error("the checker refuses execution {0}: this is a fault of dethart, and this line, with the command, is a bug report")]
    Unconfirmed(u32),
}

impl WeakHuntError {
    /// The number of the refusal: that of the hunt's, and 87 for an execution that isn't confirmed.
    pub fn number(self) -> u32
        ensures { result ≡ weak_hunt_number self }
    {
        match self {
            WeakHuntError::Hunt(error) => error.number(),
            WeakHuntError::Unconfirmed(_) => 87,
        }
    }
}

impl From<HuntError> for WeakHuntError {
    ghost from_gives = { λ x e. e ≡ Hunt x };

    fn from(error: HuntError) -> WeakHuntError {
        WeakHuntError::Hunt(error)
    }
}

impl From<RunError> for WeakHuntError {
    ghost from_gives = { λ x e. e ≡ Hunt (hunting.Run x) };

    fn from(error: RunError) -> WeakHuntError {
        WeakHuntError::Hunt(HuntError::Run(error))
    }
}

impl From<pages::OutOfMemory> for WeakHuntError {
    ghost from_gives = { λ _ e. e ≡ Hunt (hunting.Run refusals.OutOfMemory) };

    fn from(_refused: pages::OutOfMemory) -> WeakHuntError {
        WeakHuntError::Hunt(HuntError::Run(RunError::OutOfMemory))
    }
}
