use crate::bounds::Bounds;
use crate::known_bytes::KnownBytes;
use hart_step::Hart;
use pages::OutOfMemory;
use rv64_decode::Reg;
use std::alloc::Global;
use store_lists::{LATER, ListedStore, Reserved, Time};

/// Where a hart has come to in a run against a list of stores. Of a register whose time is LATER nothing is known; it holds 0 here.
pub struct RunState {
    /// The registers, the pc, and how many instructions it has done.
    pub hart: Hart,
    /// The times of its operations.
    pub bounds: Bounds,
    /// What it knows of memory.
    pub known: KnownBytes,
    /// Its reservation.
    pub reserved: Option<Reserved>,
    /// The places of those of its stores of the list that it has still to do, in rising order.
    pub owed: Vec<Time>,
    /// How many stores to shared bytes it has done, those that come later too.
    pub stores: u32,
    /// The store that it does next, where that one comes before others of the list that it owes.
    pub next: Option<ListedStore>,
    /// How many bytes of the input it has taken.
    pub taken: usize,
    /// What it has put out.
    pub output: Vec<u8>,
    /// Its last operation, where nothing is unknown so far.
    pub last_deed: Option<usize>,
    /// How it stands in its walk.
    pub course: Course,
}

/// How a state stands in the walk that it is of.
#[derive(Clone, Copy)]
pub struct Course {
    /// Whether nothing is unknown, comes later or comes next so far.
    pub is_pure: bool,
    /// If something is, the number of the settled state that it left.
    pub origin: usize,
    /// Whether it was followed from here already when the list was one store shorter: then only what is new is.
    pub is_resumed: bool,
    /// The number of the state before its last access of shared bytes.
    pub past: Option<usize>,
}

// By hand, so that a proof has one step for it wherever one is dropped, in this crate and above.
impl Drop for RunState {
    fn drop(self) {
        let RunState {
            hart: _,
            bounds: _,
            known,
            reserved: _,
            owed,
            stores: _,
            next: _,
            taken: _,
            output,
            last_deed: _,
            course: _,
        } = self;
        drop(known);
        drop(owed);
        drop(output);
    }
}

impl RunState {
    /// Of a hart that has done nothing.
    pub fn new(alloc: Global, hart: Hart) -> RunState {
        RunState {
            hart,
            bounds: Bounds::at(0),
            known: KnownBytes::new(Vec::new(alloc)),
            reserved: None,
            owed: Vec::new(alloc),
            stores: 0,
            next: None,
            taken: 0,
            output: Vec::new(alloc),
            last_deed: None,
            course: Course {
                is_pure: true,
                origin: 0,
                is_resumed: false,
                past: None,
            },
        }
    }

    /// The same once more.
    ///
    /// # Errors
    ///
    /// `OutOfMemory` alone.
    pub fn copy(&self) -> Result<RunState, OutOfMemory> {
        let alloc = *self.owed.allocator();
        Ok(RunState {
            hart: self.hart,
            bounds: self.bounds,
            known: self.known.copy()?,
            reserved: self.reserved,
            owed: Vec::from_slice(alloc, &self.owed)?,
            stores: self.stores,
            next: self.next,
            taken: self.taken,
            output: Vec::from_slice(alloc, &self.output)?,
            last_deed: self.last_deed,
            course: self.course,
        })
    }

    /// Whether it has done all of its stores of the list.
    #[inline]
    pub fn owes_none(&self) -> bool {
        self.owed.is_empty()
    }

    /// Has a register hold a number of a time, which isn't known where that is LATER.
    pub fn set_register(&mut self, register: Reg, number: u64, time: Time) {
        let held = if time == LATER { 0 } else { number };
        self.hart.set_reg(register, held);
        self.bounds.set(register, time);
    }
}
