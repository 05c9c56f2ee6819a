ghost use Rattle.std.specs.Prelude.{◌≡◌};
ghost use Rattle.host_io.specs.RunErrors.{number_of};
ghost use Rattle.host_io.specs.declared.error.RunError.TheVariants as refusals;

use crate::load_error::LoadError;
use crate::plan_error::PlanError;
use crate::refusal::NumberedRefusal;
use thiserror::Error;

/// Why a call was refused.
#[derive(Clone, Copy, Debug, PartialEq, Eq, Error)]
pub enum RunError {
    /// The image is refused.
    #[error("{0}")]
    Image(LoadError),
    /// The plan is refused.
    #[error("{0}")]
    Plan(PlanError),
    /// A request for memory was refused in this call.
    #[error("a request for memory was refused")]
    OutOfMemory,
    /// The sink failed in this call; a beginning of the text is out.
    #[error("the output could not be written")]
    SinkFailed,
    /// The number of harts is not 1 to 64.
    #[error("the number of harts is not 1 to 64")]
    HartsOutOfRange,
    /// The number of pages is not 1 to 16,384.
    #[error("the number of pages is not 1 to 16384")]
    PagesOutOfRange,
    /// The number of workers is not 1 to 16.
    #[error("the number of workers is not 1 to 16")]
    WorkersOutOfRange,
    /// 4,294,967,295 rounds were done before.
    #[error("4294967295 rounds were done before")]
    RoundsExhausted,
    /// The budget of a serial turn is not 1 to 1,000.
    #[error("the budget of a serial turn is not 1 to 1000")]
    BudgetOutOfRange,
    /// The source failed in this call.
    #[error("the input could not be read")]
    SourceFailed,
}

impl From<pages::OutOfMemory> for RunError {
    ghost from_gives = { λ _ e. e ≡ refusals.OutOfMemory };

    fn from(_refused: pages::OutOfMemory) -> RunError {
        RunError::OutOfMemory
    }
}

impl RunError {
    /// The number of the refusal, as the program prints it.
    pub fn number(self) -> u32
        ensures { result ≡ number_of self }
    {
        match self {
            RunError::Image(error) => error.number(),
            RunError::Plan(error) => error.number(),
            RunError::OutOfMemory => 20,
            RunError::SinkFailed => 21,
            RunError::HartsOutOfRange => 51,
            RunError::PagesOutOfRange => 52,
            RunError::WorkersOutOfRange => 53,
            RunError::RoundsExhausted => 54,
            RunError::BudgetOutOfRange => 55,
            RunError::SourceFailed => 61,
        }
    }
}

impl NumberedRefusal for RunError {
    ghost refusal_number = { number_of };

    fn number(&self) -> u32 {
        RunError::number(*self)
    }
}
