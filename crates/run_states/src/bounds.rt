//! The thirteen rules of preserved program order (manual, section 14.1), each as a bound: before which time an operation of a hart can't
//! be, in terms of the times of the operations before it in the hart's program. What isn't known has time LATER.
use crate::known_bytes::{KnownByte, KnownDoubleword};
use access_times::Operation;
use memory_order::Registers;
use rv64_decode::{FenceMode, FenceSet, Reg};
use store_lists::{LATER, Time, has_place};

/// The times of a hart's operations so far, as far as they bound later ones.
#[derive(Clone, Copy)]
pub struct Bounds {
    /// Of each register, the latest operation that it depends on. That of x0 is 0.
    pub registers: [Time; 32],
    /// The latest of its loads.
    pub loads: Time,
    /// The latest of its stores.
    pub stores: Time,
    /// The latest of its operations with an annotation.
    pub annotated: Time,
    /// What fences and acquires keep before its next loads.
    pub before_loads: Time,
    /// What they keep before its next stores.
    pub before_stores: Time,
    /// What its branches, its indirect jumps and the addresses of its operations depend on.
    pub steering: Time,
}

impl Bounds {
    /// Of a hart of which each operation has a time.
    pub fn at(time: Time) -> Bounds {
        let mut registers = [time; 32];
        registers[0] = 0;
        Bounds {
            registers,
            loads: time,
            stores: time,
            annotated: time,
            before_loads: time,
            before_stores: time,
            steering: time,
        }
    }

    /// What a register depends on.
    #[inline]
    pub fn of(&self, register: Reg) -> Time {
        self.registers[register.index()]
    }

    /// Whether what a register holds is known.
    #[inline]
    pub fn is_known(&self, register: Reg) -> bool {
        self.of(register) != LATER
    }

    // The bounds.

    /// Before which time a load or an LR can't be.
    pub fn of_load(
        &self,
        registers: &Registers,
        operation: &Operation,
        known: &KnownDoubleword,
        mask: u8,
    ) -> Time {
        let mut bound = self
            .by_address(registers)
            .max(self.by_order_of_loads())
            .max(self.by_release(operation))
            .max(self.by_annotations(operation));
        for k in 0..8 {
            if has_place(mask, k) {
                bound = bound.max(by_reads(&known.bytes[k]));
            }
        }
        bound
    }

    /// Before which time a store, an SC or an AMO can't be, but for rule 8.
    pub fn of_store(
        &self,
        registers: &Registers,
        operation: &Operation,
        known: &KnownDoubleword,
        mask: u8,
    ) -> Time {
        let mut bound = self
            .by_address(registers)
            .max(self.by_data(registers))
            .max(self.by_steering())
            .max(self.by_order_of_stores())
            .max(self.by_release(operation))
            .max(self.by_annotations(operation));
        if operation.loads() {
            bound = bound.max(self.by_order_of_loads());
        }
        for k in 0..8 {
            if has_place(mask, k) {
                bound = bound.max(by_overlap(&known.bytes[k]));
            }
        }
        bound
    }

    // Of rules 4 to 7, 9 to 11 and 13. Those of 1, 2, 3 and 12 stand below, of one byte each.

    /// Rules 4 and 5, of loads: the fences before a load, and the acquires.
    fn by_order_of_loads(&self) -> Time {
        self.before_loads
    }

    /// Rules 4 and 5, of stores.
    fn by_order_of_stores(&self) -> Time {
        self.before_stores
    }

    /// Rule 6: a release stands behind all operations before it.
    fn by_release(&self, operation: &Operation) -> Time {
        if operation.releases() {
            self.loads.max(self.stores)
        } else {
            0
        }
    }

    /// Rule 7: an operation with an annotation stands behind those with one before it.
    fn by_annotations(&self, operation: &Operation) -> Time {
        if operation.acquires() || operation.releases() {
            self.annotated
        } else {
            0
        }
    }

    /// Rule 9: an operation stands behind those that its address depends on.
    fn by_address(&self, registers: &Registers) -> Time {
        self.of(registers.address)
    }

    /// Rule 10: a store stands behind the operations that its data depend on.
    fn by_data(&self, registers: &Registers) -> Time {
        self.of(registers.value)
    }

    /// Rules 11 and 13: a store stands behind the operations that a branch or an indirect jump before it depends on, and behind
    /// those that the address of an operation before it depends on.
    fn by_steering(&self) -> Time {
        self.steering
    }

    // What an instruction leaves.

    /// A fence (rule 4).
    pub fn pass_fence(&mut self, before: FenceSet, after: FenceSet, mode: FenceMode) {
        let loads = if before.reads { self.loads } else { 0 };
        let stores = if before.writes { self.stores } else { 0 };
        if after.reads {
            self.before_loads = self.before_loads.max(loads);
            if let FenceMode::Normal = mode {
                self.before_loads = self.before_loads.max(stores);
            }
        }
        if after.writes {
            self.before_stores = self.before_stores.max(loads).max(stores);
        }
    }

    /// An operation with annotations, at a time (rules 5 and 7).
    fn annotate(&mut self, operation: &Operation, time: Time) {
        if operation.acquires() {
            self.before_loads = self.before_loads.max(time);
            self.before_stores = self.before_stores.max(time);
        }
        if operation.acquires() || operation.releases() {
            self.annotated = self.annotated.max(time);
        }
    }

    /// Something that later stores stand behind: what a branch, an indirect jump or an address depends on (rules 11 and 13).
    pub fn steer(&mut self, time: Time) {
        self.steering = self.steering.max(time);
    }

    /// What a register depends on from now on. Nothing is asked of x0.
    pub fn set(&mut self, register: Reg, time: Time) {
        if register.index() != 0 {
            self.registers[register.index()] = time;
        }
    }

    /// A load or an LR at a time.
    pub fn load(&mut self, registers: &Registers, operation: &Operation, time: Time) {
        self.set(registers.destination, time);
        self.loads = self.loads.max(time);
        self.annotate(operation, time);
    }

    /// A store, an SC that writes or an AMO at a time.
    pub fn store(&mut self, registers: &Registers, operation: &Operation, time: Time) {
        self.set(registers.destination, time);
        self.stores = self.stores.max(time);
        if operation.loads() {
            self.loads = self.loads.max(time);
        }
        self.annotate(operation, time);
    }
}

/// Rule 1: a store stands behind all operations before it at a byte of its own.
fn by_overlap(byte: &KnownByte) -> Time {
    byte.last
}

/// What a load's byte asks of it. It may be read from the hart's own last store before that is in memory, unless a later source was
/// seen since.
fn by_reads(byte: &KnownByte) -> Time {
    let place = if byte.is_own { byte.place } else { 0 };
    if byte.seen > place {
        by_earlier_load(byte)
    } else if !byte.is_own {
        0
    } else if byte.is_exclusive {
        by_exclusive(byte)
    } else {
        by_forwarded(byte)
    }
}

/// Rule 2: a load doesn't read from before the source of an earlier load of the byte, unless the hart stored between. Of shared bytes
/// an AMO or an SC counts as such a source, which is rule 3.
fn by_earlier_load(byte: &KnownByte) -> Time {
    byte.seen
}

/// Rule 3: a load that reads from the hart's own AMO or SC stands behind it.
fn by_exclusive(byte: &KnownByte) -> Time {
    byte.place
}

/// Rule 12: a load that reads from the hart's own store stands behind what that one's address and data depend on.
fn by_forwarded(byte: &KnownByte) -> Time {
    byte.depends
}

/// Rule 8: an SC stands behind the LR that it is paired with.
pub fn by_pairing(reserved: Time) -> Time {
    reserved
}
