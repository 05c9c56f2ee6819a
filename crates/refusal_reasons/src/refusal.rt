use order_rules::OrderRule;

/// Why RVWMO refuses what was done, in an order of its memory operations.
///
/// Indexes are those of events, counted from 0.
#[derive(Clone, Copy, PartialEq, Eq)]
pub enum Refusal {
    /// At this position the order has the index of no memory operation.
    NoOperation {
        position: usize,
    },
    /// The order has this index twice.
    Twice {
        index: usize,
    },
    /// The order leaves out the memory operation at this index.
    LeftOut {
        index: usize,
    },
    /// A rule of preserved program order orders the first of two operations of a hart before the second, and the order has the
    /// second first. No two indexes break a rule of which the second is lower, or the same and the first lower.
    OutOfOrder {
        rule: OrderRule,
        first: usize,
        second: usize,
    },
    /// The byte at an address that the load at an index read is not the one that its source wrote (the load value axiom).
    WrongByte {
        load: usize,
        address: u64,
    },
    /// Between an LR and the SC that it is paired with another hart stores to a byte that the LR read (the atomicity axiom).
    NotAtomic {
        reserve: usize,
        conditional: usize,
    },
}
