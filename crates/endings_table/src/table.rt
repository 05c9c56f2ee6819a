use crate::fence_need::FenceNeed;
use crate::found_ending::FoundEnding;
use crate::others::Others;
use hunt_table::SeenRange;

/// The endings that were found of a guest, and whether it has others.
#[derive(Drop)]
pub struct EndingsTable {
    /// How many harts there are.
    pub harts: u32,
    /// How many nodes were gone through.
    pub nodes: u64,
    /// How many instructions of each hart were followed at most.
    pub steps: u32,
    /// The bytes that are looked at.
    pub ranges: Vec<SeenRange>,
    /// The endings.
    pub endings: Vec<FoundEnding>,
    /// Whether there are others.
    pub others: Others,
    /// Which fences it needs, as far as that was looked at.
    pub fences: Vec<FenceNeed>,
}
