ghost use Rattle.std.specs.Prelude.{◌≡◌, ◌↔◌, IsTrue};
ghost use Rattle.plan_hunt.specs.Endings.{ended};

use crate::hart_ending::HartEnding;
use std::marker::Model;

/// How a run ended: how each hart did, the output, and the bytes of memory that are looked at.
///
/// It has no registers and no counts of instructions: they differ from plan to plan where nothing else does.
pub struct Ending {
    stops: Vec<HartEnding>,
    output: Vec<u8>,
    seen: Vec<u8>,
}

// By hand, so that a proof has one step for it wherever one is dropped, in this crate and above.
impl Drop for Ending {
    fn drop(self) {
        let Ending {
            stops,
            output,
            seen,
        } = self;
        drop(stops);
        drop(output);
        drop(seen);
    }
}

impl Model for Ending {
    ghost use Rattle.plan_hunt.specs.Endings.{Ended};

    ghost Value = { Ended };

    ghost view = { λ e.
        record { stops = e.stops.items; output = e.output.items; seen = e.seen.items } };
}

impl Ending {
    /// The ending with these stops, hart by hart, this output and these bytes.
    pub fn new(stops: Vec<HartEnding>, output: Vec<u8>, seen: Vec<u8>) -> Self
        ensures { result ≡ ended stops.items output.items seen.items }
    {
        Ending {
            stops,
            output,
            seen,
        }
    }

    /// How each hart ended.
    pub fn stops(&self) -> &[HartEnding]
        ensures { result.now ≡ self.now.stops }
    {
        self.stops.as_slice()
    }

    /// The bytes that the guest wrote.
    pub fn output(&self) -> &[u8]
        ensures { result.now ≡ self.now.output }
    {
        self.output.as_slice()
    }

    /// The bytes of memory that are looked at, range after range.
    pub fn seen(&self) -> &[u8]
        ensures { result.now ≡ self.now.seen }
    {
        self.seen.as_slice()
    }

    /// Whether two endings are the same.
    pub fn is_same(&self, other: &Ending) -> bool
        ensures { IsTrue result ↔ (self.now ≡ other.now) }
    {
        are_same_stops(&self.stops, &other.stops)
            && are_same_bytes(&self.output, &other.output)
            && are_same_bytes(&self.seen, &other.seen)
    }
}

fn are_same_stops(stops: &[HartEnding], others: &[HartEnding]) -> bool
    ensures { IsTrue result ↔ (stops.now ≡ others.now) }
{
    stops == others
}

fn are_same_bytes(bytes: &[u8], others: &[u8]) -> bool
    ensures { IsTrue result ↔ (bytes.now ≡ others.now) }
{
    bytes == others
}
