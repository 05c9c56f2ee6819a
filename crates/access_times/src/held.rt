use crate::doubleword::{Bytes, laid_over};
use crate::operation::Operation;
use pages::Store;
use rv64_decode::{FenceMode, FenceSet};

/// How many stores a hart holds at most.
pub const MOST_HELD: usize = 4;

/// A plain store that its hart has done, and that is not in memory yet.
#[derive(Clone, Copy)]
pub struct HeldStore {
    /// The store.
    pub store: Store,
    /// The time that its address and its data depend on.
    pub depends: u32,
    /// It goes to memory once the other harts have done so many operations.
    pub until: u64,
    /// A fence keeps it before later loads of its hart.
    pub before_reads: bool,
    /// A fence keeps it before later stores of its hart.
    pub before_writes: bool,
    /// The number of its deed in the record.
    pub deed: usize,
}

impl HeldStore {
    /// Its bytes.
    #[inline]
    pub fn bytes(&self) -> Bytes {
        Bytes::of(self.store.address, self.store.width)
    }

    /// Whether it has to be in memory before an operation of its hart is done.
    pub fn goes_before(&self, operation: &Operation) -> bool {
        operation.releases()
            || self.before_reads && operation.loads()
            || operation.stores()
                && (self.before_writes
                    || self
                        .bytes()
                        .meet(Bytes::of(operation.address, operation.width)))
    }

    /// The same store where its hart has done a fence.
    pub fn behind_fence(self, before: FenceSet, after: FenceSet, mode: FenceMode) -> HeldStore {
        let is_normal = matches!(mode, FenceMode::Normal);
        HeldStore {
            before_reads: self.before_reads || before.writes && after.reads && is_normal,
            before_writes: self.before_writes || before.writes && after.writes,
            ..self
        }
    }

    /// A doubleword as its hart sees it.
    pub fn over(&self, bytes: Bytes, doubleword: u64) -> u64 {
        if self.store.address / 8 == bytes.doubleword {
            laid_over(
                doubleword,
                self.store.address,
                self.store.width,
                self.store.value,
            )
        } else {
            doubleword
        }
    }
}
