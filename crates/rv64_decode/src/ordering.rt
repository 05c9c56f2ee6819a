/// The two ordering bits of an LR, SC or AMO (manual, section 8.1).
#[derive(Clone, Copy, Debug, PartialEq, Eq)]
pub struct AcquireRelease {
    /// The bit `aq`.
    pub acquire: bool,
    /// The bit `rl`.
    pub release: bool,
}

/// The memory accesses that a fence orders on one of its sides (manual, section 2.7).
#[derive(Clone, Copy, Debug, PartialEq, Eq)]
pub struct FenceSet {
    /// The bit `R`: loads.
    pub reads: bool,
    /// The bit `W`: stores.
    pub writes: bool,
}

/// The two modes of a fence (manual, section 2.7).
#[derive(Clone, Copy, Debug, PartialEq, Eq)]
pub enum FenceMode {
    /// A fence that orders all of its first set before all of its second.
    Normal,
    /// FENCE.TSO, which leaves out stores before loads.
    Tso,
}
