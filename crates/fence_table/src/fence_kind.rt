/// Memory operations on one side of a fence.
#[derive(Clone, Copy)]
pub enum Side {
    /// Loads, LRs and AMOs.
    Loads,
    /// Stores, SCs and AMOs.
    Stores,
    /// All of them.
    Both,
}

/// What a fence orders: the operations of one side that are before it, before those of the other side that are after it.
#[derive(Clone, Copy)]
pub struct FenceKind {
    pub before: Side,
    pub after: Side,
}

/// A fence that was tried: executions were made as if it stood before an instruction.
#[derive(Clone, Copy)]
pub struct TriedFence {
    pub kind: FenceKind,
    /// The address of the instruction.
    pub pc: u64,
    /// How many executions.
    pub executions: u32,
}
