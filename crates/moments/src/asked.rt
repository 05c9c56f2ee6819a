ghost use Rattle.std.specs.Prelude.{◌≡◌};
ghost use Rattle.moments.specs.Hits.{is_fault, is_hart, tells};

use hart_step::{Hart, Stop};

/// At which moments of a hart something is told.
#[derive(Drop)]
pub struct Asked {
    /// At each moment of this hart.
    pub each: Option<u32>,
    /// Where a fault has stopped the hart. The exit call is none.
    pub faults: bool,
    /// Where the hart's pc is one of these addresses.
    pub stops: Vec<u64>,
}

impl Asked {
    /// Whether something is told where hart `number` is as this one.
    #[inline(always)]
    pub fn tells(&self, number: u32, hart: &Hart) -> bool
        ensures { result ≡ tells self.now number hart.now }
    {
        is_hart(self.each, number)
            || (self.faults && is_fault(hart.stop))
            || self.stops.contains(&hart.pc)
    }
}

/// Whether this is the hart, where there is one.
#[inline(always)]
pub(crate) fn is_hart(hart: Option<u32>, number: u32) -> bool
    ensures { result ≡ is_hart hart number }
{
    match hart {
        Some(hart) => hart == number,
        None => false,
    }
}

/// Whether a hart was stopped by a fault.
#[inline(always)]
fn is_fault(stop: Option<Stop>) -> bool
    ensures { result ≡ is_fault stop }
{
    match stop {
        Some(stop) => stop.code != 1,
        None => false,
    }
}
