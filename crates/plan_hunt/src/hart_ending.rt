ghost use Rattle.std.specs.Prelude.{◌≡◌};
ghost use Rattle.std.specs.List.{list_all};
ghost use Rattle.plan_hunt.specs.Endings.{ends_well};

use hart_step::Stop;

/// How a hart's part of a run ended.
#[derive(Clone, Copy, PartialEq, Eq)]
pub enum HartEnding {
    /// It still ran when the rounds were over.
    Runs,
    /// It runs for ever under this plan, since the run goes round.
    Loops,
    /// It stopped.
    Stopped(Stop),
}

impl HartEnding {
    /// Whether the hart exited with 0.
    pub fn is_well(self) -> bool
        ensures { result ≡ ends_well self }
    {
        match self {
            HartEnding::Stopped(stop) => stop.code == 1 && stop.value == 0,
            _ => false,
        }
    }
}

/// Whether each hart exited with 0: none runs on, was stopped by a fault, or exited with another value.
pub fn are_well(harts: &[HartEnding]) -> bool
    ensures { result ≡ list_all ends_well harts.now }
{
    harts.iter().all(|hart| hart.is_well())
}
