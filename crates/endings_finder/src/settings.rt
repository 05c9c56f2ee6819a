ghost use Rattle.std.specs.Prelude.{◌≡◌};

use hunt_table::SeenRange;
use hunter::HuntSettings;

/// What a search for all endings is asked for.
#[derive(Drop)]
pub struct EndingsSettings {
    /// The guest, and the bytes that are looked at: as of a hunt. Its rounds and its numbers are not looked at. Its workers look through
    /// the nodes of the check; the search is one thread's.
    pub hunt: HuntSettings,
    /// How many instructions of each hart are followed.
    pub steps: u32,
    /// How many nodes are gone through.
    pub nodes: u32,
    /// Whether the execution of each ending is kept.
    pub keeps: bool,
    /// Whether it is asked which fences the guest needs, where it has no other endings.
    pub fences: bool,
}

impl EndingsSettings {
    /// The ranges of bytes that are looked at.
    pub(crate) fn into_ranges(self) -> Vec<SeenRange>
        ensures { result.items ≡ self.hunt.header.ranges.items }
    {
        let EndingsSettings { hunt, .. } = self;
        hunt.header.ranges
    }
}
