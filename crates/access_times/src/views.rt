//! The times of a hart: before which time what it does next cannot be.
use crate::operation::Operation;
use crate::paged_times::PagedTimes;
use memory_order::Registers;
use pages::{OutOfMemory, Width};
use rv64_decode::{FenceMode, FenceSet, Reg};
use std::alloc::Global;

/// The times of a hart. A time is a number of stores in memory; what has a time stands behind the store of that number in the
/// global memory order.
#[derive(Drop)]
pub struct Views {
    /// Of each register, the latest operation that it depends on. That of x0 is 0.
    registers: [u32; 32],
    /// The latest of its loads.
    reads: u32,
    /// The latest of its stores.
    writes: u32,
    /// Behind what fences and acquires keep its next loads.
    next_read: u32,
    /// Behind what they keep its next stores.
    next_write: u32,
    /// What its branches and the addresses of its operations depend on: no later store of it is before.
    control: u32,
    /// The latest of its operations with an annotation.
    annotated: u32,
    /// Of each four bytes, the latest store that it put or read there.
    met: PagedTimes,
}

impl Views {
    /// The times of a hart that has done nothing, in a memory of so many pages.
    pub fn new(alloc: Global, pages: u32) -> Result<Views, OutOfMemory> {
        Ok(Views {
            registers: [0; 32],
            reads: 0,
            writes: 0,
            next_read: 0,
            next_write: 0,
            control: 0,
            annotated: 0,
            met: PagedTimes::new(alloc, pages)?,
        })
    }

    /// The time of a register.
    #[inline]
    pub fn of(&self, register: Reg) -> u32 {
        self.registers[register.index()]
    }

    /// Sets the time of a register; x0 keeps time 0.
    #[inline]
    fn set(&mut self, register: Reg, time: u32) {
        if register.index() != 0 {
            self.registers[register.index()] = time;
        }
    }

    /// The latest store that the hart has met at an access's bytes.
    #[inline]
    pub fn met_at(&self, address: u64, width: Width) -> u32 {
        let here = self.met.get(address / 4);
        match width {
            Width::W8 => here.max(self.met.get(address / 4 + 1)),
            Width::W1 | Width::W2 | Width::W4 => here,
        }
    }

    /// The hart meets a store at an access's bytes.
    #[inline]
    fn meet(&mut self, address: u64, width: Width, time: u32) -> Result<(), OutOfMemory> {
        self.meet_four(address / 4, time)?;
        match width {
            Width::W8 => self.meet_four(address / 4 + 1, time),
            Width::W1 | Width::W2 | Width::W4 => Ok(()),
        }
    }

    #[inline]
    fn meet_four(&mut self, cell: u64, time: u32) -> Result<(), OutOfMemory> {
        if time > self.met.get(cell) {
            self.met.set(cell, time)?;
        }
        Ok(())
    }

    /// Before which time a load or an LR cannot be, but for what it reads.
    #[inline]
    pub fn least_of_load(&self, address: Reg, operation: &Operation) -> u32 {
        let mut least = self.of(address).max(self.next_read);
        if operation.releases() {
            least = least.max(self.reads).max(self.writes);
        }
        if operation.acquires() || operation.releases() {
            least = least.max(self.annotated);
        }
        least
    }

    /// Behind which time a store, an SC or an AMO has to be.
    pub fn least_of_store(&self, registers: &Registers, operation: &Operation) -> u32 {
        let mut least = self
            .of(registers.address)
            .max(self.of(registers.value))
            .max(self.next_write)
            .max(self.control)
            .max(self.met_at(operation.address, operation.width));
        if operation.loads() {
            least = least.max(self.next_read);
        }
        if operation.releases() {
            least = least.max(self.reads).max(self.writes);
        }
        if operation.acquires() || operation.releases() {
            least = least.max(self.annotated);
        }
        least
    }

    /// An instruction without a memory operation was done.
    #[inline]
    pub fn compute(&mut self, registers: &Registers) {
        let time = self.of(registers.first).max(self.of(registers.second));
        if registers.steers {
            self.control = self.control.max(time);
        }
        self.set(
            registers.destination,
            if registers.carries { time } else { 0 },
        );
    }

    /// A fence was done.
    pub fn fence(&mut self, before: FenceSet, after: FenceSet, mode: FenceMode) {
        let reads = if before.reads { self.reads } else { 0 };
        let writes = if before.writes { self.writes } else { 0 };
        let is_normal = matches!(mode, FenceMode::Normal);
        if after.reads {
            self.next_read = self.next_read.max(reads);
        }
        if after.reads && is_normal {
            self.next_read = self.next_read.max(writes);
        }
        if after.writes {
            self.next_write = self.next_write.max(reads).max(writes);
        }
    }

    /// A load or an LR was done at a time; the latest store to its bytes that it met.
    #[inline]
    pub fn load(
        &mut self,
        registers: &Registers,
        operation: &Operation,
        time: u32,
        latest: u32,
    ) -> Result<(), OutOfMemory> {
        self.address(registers.address);
        self.set(registers.destination, time);
        self.reads = self.reads.max(time);
        self.annotate(operation, time);
        self.meet(operation.address, operation.width, latest)
    }

    /// What the address of an operation depends on holds later stores back.
    #[inline]
    pub fn address(&mut self, address: Reg) {
        self.control = self.control.max(self.of(address));
    }

    /// An operation's annotations hold later ones back.
    #[inline]
    fn annotate(&mut self, operation: &Operation, time: u32) {
        if operation.acquires() {
            self.next_read = self.next_read.max(time);
            self.next_write = self.next_write.max(time);
        }
        if operation.acquires() || operation.releases() {
            self.annotated = self.annotated.max(time);
        }
    }

    /// A store of the hart went to memory.
    #[inline]
    pub fn store(&mut self, address: u64, width: Width, time: u32) -> Result<(), OutOfMemory> {
        self.writes = self.writes.max(time);
        self.meet(address, width, time)
    }

    /// An AMO, or an SC that wrote, was done.
    pub fn exchange(
        &mut self,
        registers: &Registers,
        operation: &Operation,
        time: u32,
    ) -> Result<(), OutOfMemory> {
        self.address(registers.address);
        self.set(registers.destination, time);
        if operation.loads() {
            self.reads = self.reads.max(time);
        }
        self.annotate(operation, time);
        self.store(operation.address, operation.width, time)
    }

    /// A held store went to memory, behind which fences of then keep later operations.
    pub fn order_behind(&mut self, reads: bool, writes: bool, time: u32) {
        if reads {
            self.next_read = self.next_read.max(time);
        }
        if writes {
            self.next_write = self.next_write.max(time);
        }
    }
}
