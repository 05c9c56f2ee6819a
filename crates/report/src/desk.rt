//! The desk of a report's workers: which blocks are claimed, and those that are formatted and not yet put.

ghost use Rattle.std.specs.Prelude.{◌<◌, ◌≤◌};

use crate::block::{Block, PutBody};
use pages::OutOfMemory;
use report_lines::Line;
use std::{array, mem};

/// How many slots there are: two for each of 16 workers.
const SLOTS: usize = 32;

/// What lies in a slot.
#[derive(Drop)]
enum Slot<B: PutBody> {
    /// Nothing.
    Empty,
    /// A line that was put, for its capacity.
    Spare(Line),
    /// A block that is still to be put, or that memory for it was refused.
    Formatted(Result<Block<B>, OutOfMemory>),
}

/// A block that one worker is to format, and a spare line if there is one.
#[derive(Drop)]
pub(crate) struct Claim {
    number: usize,
    spare: Option<Line>,
}

impl Claim {
    /// Which block it is, and the spare line.
    pub(crate) fn into_fields(self) -> (usize, Option<Line>) {
        (self.number, self.spare)
    }
}

/// Which blocks are claimed, formatted and put. The slot of a block is that of the one a whole window before it, so no block is
/// claimed until that one was put, and no more than a window of them is in memory.
#[derive(Drop)]
pub(crate) struct Desk<B: PutBody> {
    blocks: usize,
    window: usize,
    claimed: usize,
    put: usize,
    over: bool,
    slots: [Slot<B>; SLOTS],
    ghost some: { 0 < window },
    ghost few: { window ≤ 32 },
}

impl<B: PutBody> Desk<B> {
    /// A desk for so many blocks, of which none is claimed.
    pub(crate) fn new(blocks: usize, window: usize) -> Desk<B>
        requires some { 0 < window }
        requires few { window ≤ 32 }
    {
        Desk {
            blocks,
            window,
            claimed: 0,
            put: 0,
            over: false,
            slots: array::from_fn(|_| Slot::Empty),
        }
    }

    fn slot_of(&self, number: usize) -> usize
        ensures { result < 32 }
    {
        number % self.window
    }

    /// Whether no block is left to be claimed, now and later.
    fn is_claimed(&self) -> bool {
        self.over || self.claimed >= self.blocks
    }

    /// Whether a block is left, but too far ahead of those that were put.
    pub(crate) fn is_full(&self) -> bool {
        !self.is_claimed() && self.claimed.saturating_sub(self.put) >= self.window
    }

    /// Whether the next block to be put is not formatted, and none can be claimed.
    pub(crate) fn is_idle(&self) -> bool {
        match self.slots[self.slot_of(self.put)] {
            Slot::Formatted(_) => false,
            _ => self.is_claimed() || self.is_full(),
        }
    }

    /// Claims the next block that nobody has, if it is near enough to those that were put.
    pub(crate) fn claim(&mut self) -> Option<Claim> {
        let number = self.claimed;
        if self.over || number >= self.blocks || self.is_full() {
            return None;
        }
        self.claimed = number + 1;
        let spare = self.spare(number);
        Some(Claim { number, spare })
    }

    /// The line that lies in the slot of a block, for its capacity.
    fn spare(&mut self, number: usize) -> Option<Line> {
        match self.take(number) {
            Slot::Spare(line) => Some(line),
            _ => None,
        }
    }

    /// Empties the slot of a block.
    fn take(&mut self, number: usize) -> Slot<B> {
        let slot = self.slot_of(number);
        mem::replace(&mut self.slots[slot], Slot::Empty)
    }

    /// Lays a block that was claimed into its slot.
    pub(crate) fn lay(&mut self, number: usize, block: Result<Block<B>, OutOfMemory>) {
        let slot = self.slot_of(number);
        self.slots[slot] = Slot::Formatted(block);
    }

    /// The next block to be put, if it is formatted.
    pub(crate) fn next(&mut self) -> Option<Result<Block<B>, OutOfMemory>> {
        let put = self.put;
        match self.take(put) {
            Slot::Formatted(block) => Some(block),
            // The spare line is for who claims that block.
            other => {
                let slot = self.slot_of(put);
                self.slots[slot] = other;
                None
            }
        }
    }

    /// Counts the next block as put, and leaves its line as a spare one.
    pub(crate) fn count(&mut self, line: Line) {
        let slot = self.slot_of(self.put);
        self.slots[slot] = Slot::Spare(line);
        self.put = self.put.saturating_add(1);
    }

    /// Says that no further block is to be claimed.
    pub(crate) fn end(&mut self) {
        self.over = true;
    }
}
