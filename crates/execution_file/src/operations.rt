//! The memory operations of harts, and which of them are named.

ghost use Rattle.std.specs.Prelude.{◌≡◌, ◌⊎◌, ◌<◌, ◌≤◌, ℕ, List, [], ◌∷◌, ◌++◌, false, true, length, slice_index, slice_index_or, slice_set, IfOk, MatchOption, OnOk};
ghost use Rattle.round_schedule.specs.declared.event.Event.{Event};
ghost use Rattle.execution_file.specs.Recorded.{Turn as TurnSaid};
ghost use Rattle.execution_file.specs.Views.{turn_view};
ghost use Rattle.execution_file.specs.Turns.{Names};
ghost use Rattle.execution_file.specs.Sorting.{AreOf, IsAdded};

use crate::file::Turn;
use pages::OutOfMemory;
use std::alloc::Global;

/// The memory operations of a hart in program order, and which of them turns have named.
#[derive(Drop)]
pub(crate) struct Operations {
    /// The index of each in the list of events.
    pub(crate) indexes: Vec<usize>,
    /// Whether a turn named it.
    pub(crate) named: Vec<bool>,
    /// All before this one are named.
    pub(crate) next: usize,
}

impl Operations {
    /// No operations.
    pub(crate) fn new(alloc: Global) -> Operations
        ensures indexes { result.indexes.items ≡ [] }
        ensures named { result.named.items ≡ [] }
        ensures next { result.next ≡ 0 }
    {
        Operations {
            indexes: Vec::new(alloc),
            named: Vec::new(alloc),
            next: 0,
        }
    }

    /// Adds one, by its index.
    pub(crate) fn add(&mut self, index: usize) -> Result<(), OutOfMemory>
        ensures { OnOk result (IsAdded index self.old self.new) }
    {
        self.indexes.push(index)?;
        self.named.push(false)?;
        Ok(())
    }

    /// The number of the first one that isn't named.
    pub(crate) fn first_left(&mut self) -> usize
        ensures indexes { self.new.indexes.items ≡ self.old.indexes.items }
        ensures named { self.new.named.items ≡ self.old.named.items }
        ensures passed { (k : ℕ) → self.old.next ≤ k → k < result →
            slice_index_or self.old.named.items k false ≡ true }
        ensures left { result < length self.old.named.items →
            slice_index_or self.old.named.items result false ≡ false }
        ensures next { (self.new.next ≡ self.old.next) ⊎ (self.new.next ≡ result) }
    {
        for number in self.next..self.named.len() {
            if !self.named[number] {
                self.next = number;
                return number;
            }
        }
        self.named.len()
    }

    /// Names the one of a number: its index, where there is one.
    pub(crate) fn name(&mut self, number: u64) -> Option<usize>
        ensures indexes { self.new.indexes.items ≡ self.old.indexes.items }
        ensures next { self.new.next ≡ self.old.next }
        ensures named { MatchOption result (length self.old.indexes.items ≤ number) (λ index.
            (number < length self.old.indexes.items) ×
            (index ≡ slice_index self.old.indexes.items number) ×
            (self.new.named.items ≡ slice_set self.old.named.items number true)) }
    {
        if number >= self.indexes.len() as u64 {
            return None;
        }
        let number = number as usize;
        if let Some(named) = self.named.get_mut(number) {
            *named = true;
        }
        Some(self.indexes[number])
    }

    /// Names the one that a turn of its hart names.
    pub(crate) fn take(&mut self, turn: &Turn) -> Option<usize>
        ensures { (t : List Event) (g : List ℕ) → AreOf t g turn.now.hart self.old →
            MatchOption result ((a : ℕ) → Names (turn_view turn.now) t g a → ⊥)
            (λ a. Names (turn_view turn.now) t g a × AreOf t (g ++ a ∷ []) turn.now.hart self.new) }
    {
        match turn.number {
            Some(number) => self.name(number),
            None => {
                let number = self.first_left();
                self.name(number as u64)
            }
        }
    }
}
