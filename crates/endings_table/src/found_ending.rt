ghost use Rattle.std.specs.Prelude.{◌≡◌};
ghost use Rattle.std.specs.List.{list_all};
ghost use Rattle.endings_table.specs.Endings.{ends_well, is_bad};

use crate::hart_end::HartEnd;

/// An ending of a guest.
#[derive(Drop)]
pub struct FoundEnding {
    /// How each hart ends.
    pub ends: Vec<HartEnd>,
    /// What each hart put out.
    pub outputs: Vec<Vec<u8>>,
    /// The bytes of each range of memory that is looked at.
    pub seen: Vec<Vec<u8>>,
}

/// Whether each hart exits with 0.
fn are_well(ends: &[HartEnd]) -> bool
    ensures { result ≡ list_all ends_well ends.now }
{
    ends.iter().all(|end| end.is_well())
}

impl FoundEnding {
    /// Whether a hart waits for ever, is stopped by a fault, or exits with another value than 0.
    pub fn is_bad(&self) -> bool
        ensures { result ≡ is_bad self.now }
    {
        !are_well(&self.ends)
    }
}
