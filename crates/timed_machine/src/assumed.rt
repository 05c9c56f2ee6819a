use rv64_decode::FenceSet;

/// A fence that is assumed where the program has none.
#[derive(Clone, Copy, PartialEq, Eq)]
pub struct AssumedFence {
    /// The address of the instruction that it stands before.
    pub pc: u64,
    /// What it keeps before it.
    pub before: FenceSet,
    /// What it keeps behind it.
    pub after: FenceSet,
}
