use crate::doubleword::Bytes;
use crate::operation::{Kind, Operation};
use pages::Store;

/// A store that comes early, as an ordinary execution by the same plan has it.
#[derive(Clone, Copy, PartialEq, Eq)]
pub struct Early {
    /// It is put in memory once its hart has done so many instructions, before the next one.
    pub before: u64,
    /// Whether it is a plain store, an SC or an AMO.
    pub kind: Kind,
    /// What it writes.
    pub store: Store,
    /// For how many operations of the other harts its hart waits then.
    pub wait: u64,
}

impl Early {
    /// Its bytes.
    #[inline]
    pub fn bytes(&self) -> Bytes {
        Bytes::of(self.store.address, self.store.width)
    }

    /// Whether an operation is of just its bytes.
    pub fn is_at(&self, operation: &Operation) -> bool {
        operation.address == self.store.address && operation.width == self.store.width
    }

    /// Whether it is an SC, and an operation its LR.
    pub fn is_reserved_by(&self, operation: &Operation) -> bool {
        self.kind == Kind::StoreConditional
            && operation.kind == Kind::LoadReserved
            && self.is_at(operation)
    }

    /// Whether an operation that its hart does before it, when it is in memory already, makes no difference to it: one that is of other
    /// bytes, and none that makes or takes a reservation where it is an SC.
    pub fn lets_pass(&self, operation: &Operation) -> bool {
        let reserves = matches!(operation.kind, Kind::LoadReserved | Kind::StoreConditional);
        let meets = Bytes::of(operation.address, operation.width).meet(self.bytes());
        !meets && !(reserves && self.kind == Kind::StoreConditional)
    }
}

/// An early store that is in memory.
#[derive(Clone, Copy)]
pub struct PutStore {
    /// Its time.
    pub time: u32,
    /// The doubleword before it.
    pub before: u64,
    /// Its hart waits until the others have done so many operations, or all harts so many steps.
    pub until: u64,
    pub until_step: u64,
    /// Whether it is an SC whose hart has no reservation for it yet.
    pub lacks_reservation: bool,
}

/// How far an early store has come.
#[derive(Clone, Copy)]
pub enum Stage {
    /// Its hart hasn't come to where it is put in memory.
    Ahead,
    /// It is in memory, and its hart hasn't come to it.
    Put(PutStore),
    /// Its hart has done it.
    Fulfilled,
    /// Its hart does something else, or can't do it so early: this is no execution.
    Broken,
}

/// A store that is to come early, and how far it has come.
#[derive(Clone, Copy)]
pub struct Promise {
    /// Its hart.
    pub hart: u8,
    /// How many instructions its hart has done before it.
    pub step: u64,
    pub early: Early,
    pub stage: Stage,
}

impl Promise {
    /// Whether its hart has done it.
    pub fn is_fulfilled(&self) -> bool {
        matches!(self.stage, Stage::Fulfilled)
    }

    /// Whether it is in memory, and its hart hasn't come to it.
    pub fn is_open(&self) -> bool {
        matches!(self.stage, Stage::Put(_))
    }

    /// Whether its hart didn't do it though it should have.
    pub fn is_broken(&self) -> bool {
        matches!(self.stage, Stage::Broken)
    }

    /// The same at another stage.
    pub fn at(self, stage: Stage) -> Promise {
        Promise { stage, ..self }
    }

    /// The same where a hart has stopped.
    pub fn stopped(self, hart: u8) -> Promise {
        if self.hart == hart && self.is_open() {
            self.at(Stage::Broken)
        } else {
            self
        }
    }

    /// As of which time a hart's operation reads that is the LR of an SC which is in memory already: from right before that.
    pub fn read_at(&self, hart: u8, operation: &Operation) -> Option<u32> {
        match self.stage {
            Stage::Put(put) if hart == self.hart && self.early.is_reserved_by(operation) => {
                Some(put.time.saturating_sub(1))
            }
            _ => None,
        }
    }
}
