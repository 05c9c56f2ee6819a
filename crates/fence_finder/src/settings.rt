ghost use Rattle.std.specs.Prelude.{◌≡◌};

use fence_table::Accepted;
use hunt_table::SeenRange;
use hunter::HuntSettings;
use timed_machine::AssumedFence;

/// What a search for missing fences is asked for.
#[derive(Drop)]
pub struct FenceSettings {
    /// The guest, and the numbers of its executions: as of a weak hunt.
    pub hunt: HuntSettings,
    /// How many steps an execution has at most.
    pub steps: u32,
    /// Which fences are assumed.
    pub assumed: Vec<AssumedFence>,
    /// Gaps of which is known that a fence is missing there.
    pub accepted: Accepted,
    /// Whether the executions that are shown are kept.
    pub keeps: bool,
}

impl FenceSettings {
    /// The ranges of bytes that are looked at.
    pub(crate) fn into_ranges(self) -> Vec<SeenRange>
        ensures { result.items ≡ self.hunt.header.ranges.items }
    {
        let FenceSettings { hunt, .. } = self;
        hunt.header.ranges
    }
}
