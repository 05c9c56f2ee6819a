//! Lines by their numbers.

ghost use Rattle.std.specs.Prelude.{◌≡◌, ◌≤◌, ◌+◌, ◌^◌, ◌<◌, ℕ, [], All, Some, None, IsSome, IsOk, IsTrue, IfOk, OnOk, OnErr, MatchOption, get_or, length, vec_capacity, vec_len};
ghost use Rattle.std.specs.Ordering.{nat_cmp};
ghost use Rattle.std.specs.BTreeMap.{IsOrdered};
ghost use Rattle.std.specs.Iterator.{YieldsFirstBy, item_count};
ghost use Rattle.std.specs.Map.{keys_of};
ghost use Rattle.pages.specs.Memory.{width_bytes};
ghost use Rattle.store_buffer.specs.Held.{AllNear, RisingLines};
ghost use Rattle.store_buffer.specs.LineMaps.{ArePlaced, HasAdded, HasAppended, HasTaken, IsOpen, listed_at};
ghost use Rattle.store_buffer.specs.Slots.{AreChained};
ghost use Rattle.store_buffer.specs.Lines.{line_of};

use crate::Line;
use crate::slots::{Numbered, chain, find, slot_of};
use pages::{OutOfMemory, Width};
use std::alloc::Global;
use std::collections::{BTreeMap, btree_map};
use std::marker::Model;

/// Lines, each with a number of its own.
// docs/decisions/storage.md
#[derive(Drop)]
pub(crate) struct LineMap {
    /// The lines as they came.
    lines: Vec<Numbered>,
    /// For each slot of numbers, the index of the line that came last in it: where to look for a line.
    latest: Vec<Option<usize>>,
    /// The index of each line by its number: the order in which they are lent.
    indices: BTreeMap<u64, usize>,
}

impl Model for LineMap {
    ghost use Rattle.std.specs.Prelude.{ℕ, List};
    ghost use Rattle.store_buffer.specs.declared.line.Line.{Line as LineOf};
    ghost use Rattle.store_buffer.specs.LineMaps.{IsLineMap, lines_in};

    ghost Value = { List (ℕ × LineOf) };

    ghost view = { λ m. lines_in m.lines.items m.indices.entries };

    ghost invariant = { λ m. IsLineMap m.lines.items m.latest.items m.indices };
}

impl LineMap {
    /// No lines. It takes no memory.
    #[inline]
    pub(crate) fn new(alloc: Global) -> LineMap
        ensures { result ≡ [] }
    {
        LineMap {
            lines: Vec::new(alloc),
            latest: Vec::new(alloc),
            indices: BTreeMap::new(alloc),
        }
    }

    /// The line of a number.
    #[inline]
    pub(crate) fn get(&self, number: u64) -> Option<&Line>
        ensures { MatchOption result (None ≡ line_of self.now number) (λ line. Some line.now ≡
            line_of self.now number) }
    {
        let index = find(&self.lines, &self.latest, number)?;
        Some(&self.lines[index].line)
    }

    /// Writes a number from a index of a line on, which is a new one where there is none of that number. A line that is
    /// there takes no memory.
    #[inline]
    pub(crate) fn put(
        &mut self,
        number: u64,
        at: u64,
        width: Width,
        value: u64,
    ) -> Result<(), OutOfMemory>
        requires number { number < 2 ^ 58 }
        requires at { at + width_bytes width ≤ 64 }
        ensures ok { OnOk result (HasTaken number at width value self.old self.new) }
        ensures err { OnErr result (self.new ≡ self.old) }
        ensures room { IsSome (line_of self.old number) → IsOk result }
        ensures rising { RisingLines 0 self.new }
        ensures near { AllNear self.new }
    {
        let index = index_for(&mut self.lines, &mut self.latest, &mut self.indices, number)?;
        self.lines[index].line.put(at, width, value);
        Ok(())
    }

    /// The lines in rising order of their numbers.
    #[inline]
    pub(crate) fn iter(&self) -> InOrder<'_>
        ensures { result ≡ self.now }
    {
        InOrder {
            indices: self.indices.iter(),
            lines: &self.lines,
        }
    }

    /// Whether there are no lines.
    #[inline]
    pub(crate) fn is_empty(&self) -> bool
        ensures { IsTrue result → self.now ≡ [] }
    {
        self.lines.is_empty()
    }

    /// Takes all lines out.
    pub(crate) fn clear(&mut self)
        ensures { self.new ≡ [] }
    {
        self.lines.clear();
        self.latest.clear();
        self.indices.clear();
    }
}

/// The index of the line of a number, an empty one where there was none.
#[inline(always)]
fn index_for(
    lines: &mut Vec<Numbered>,
    latest: &mut Vec<Option<usize>>,
    indices: &mut BTreeMap<u64, usize>,
    number: u64,
) -> Result<usize, OutOfMemory>
    requires placed { ArePlaced lines.old.items indices.old.entries }
    requires chained { AreChained (length lines.old.items) lines.old.items latest.old.items }
    ensures ok { IfOk result (λ index.
        IsOpen number index lines.old.items lines.new.items indices.old.entries
        indices.new.entries) }
    ensures chained { AreChained (length lines.new.items) lines.new.items latest.new.items }
    ensures ordered { IsOrdered nat_cmp indices.old → IsOrdered nat_cmp indices.new }
    ensures near { number < 2 ^ 58 → All (λ k. k < 2 ^ 58) (keys_of indices.old.entries) →
        All (λ k. k < 2 ^ 58) (keys_of indices.new.entries) }
    ensures err_lines { OnErr result (lines.new.items ≡ lines.old.items) }
    ensures err_indices { OnErr result (indices.new.entries ≡ indices.old.entries) }
    ensures room { IsSome (listed_at indices.old.entries number) → IsOk result }
{
    match find(lines, latest, number) {
        Some(index) => Ok(index),
        None => add_line(lines, latest, indices, number),
    }
}

/// Adds an empty line, and answers its index.
#[inline(never)]
fn add_line(
    lines: &mut Vec<Numbered>,
    latest: &mut Vec<Option<usize>>,
    indices: &mut BTreeMap<u64, usize>,
    number: u64,
) -> Result<usize, OutOfMemory>
    requires chained { AreChained (length lines.old.items) lines.old.items latest.old.items }
    ensures ok { IfOk result (λ index. HasAdded number index lines.old.items lines.new.items
        indices.old.entries indices.new.entries) }
    ensures chained { AreChained (length lines.new.items) lines.new.items latest.new.items }
    ensures ordered { IsOrdered nat_cmp indices.old → IsOrdered nat_cmp indices.new }
    ensures near { number < 2 ^ 58 → All (λ k. k < 2 ^ 58) (keys_of indices.old.entries) →
        All (λ k. k < 2 ^ 58) (keys_of indices.new.entries) }
    ensures err_lines { OnErr result (lines.new.items ≡ lines.old.items) }
    ensures err_indices { OnErr result (indices.new.entries ≡ indices.old.entries) }
{
    let index = lines.len();
    lines.reserve(1)?;
    let wider = wider_slots(latest, index)?;
    indices.insert(number, index)?;
    if let Some(slots) = wider {
        *latest = slots;
        chain(lines, latest);
    }
    append(lines, latest, number);
    Ok(index)
}

/// A list of more slots, all of them empty, where there are no more slots than lines.
fn wider_slots(
    latest: &Vec<Option<usize>>,
    lines: usize,
) -> Result<Option<Vec<Option<usize>>>, OutOfMemory>
    requires { lines ≤ length latest.now.items }
    ensures { IfOk result (λ o. MatchOption o (lines < length latest.now.items) (λ slots.
        (lines < length slots.items) × ((i : ℕ) → get_or slots.items i None ≡ None))) }
{
    if lines < latest.len() {
        return Ok(None);
    }
    let count = latest.len().max(4).saturating_mul(4);
    Ok(Some(vec![in *latest.allocator(); None; count]?))
}

/// Puts an empty line behind the others, and into its slot.
fn append(lines: &mut Vec<Numbered>, latest: &mut [Option<usize>], number: u64)
    requires chained { AreChained (length lines.old.items) lines.old.items latest.old }
    requires slots { length lines.old.items < length latest.old }
    requires room { vec_len lines.old < vec_capacity lines.old }
    ensures appended { HasAppended number lines.old.items lines.new.items }
    ensures chained { AreChained (length lines.new.items) lines.new.items latest.new }
{
    let index = lines.len();
    let slot = slot_of(number, latest.len());
    let before = latest[slot];
    latest[slot] = Some(index);
    lines.push_reserved(Numbered {
        number,
        before,
        line: Line::empty(),
    });
}

/// The lines of a map that are left to give, each with its number, which rises.
#[derive(Drop)]
pub(crate) struct InOrder<'a> {
    indices: btree_map::Iter<'a, u64, usize>,
    lines: &'a [Numbered],
}

impl<'a> Model for InOrder<'a> {
    ghost use Rattle.std.specs.Prelude.{ℕ, List, ◌<◌, All, length};
    ghost use Rattle.std.specs.Map.{values_of};
    ghost use Rattle.store_buffer.specs.declared.line.Line.{Line as LineOf};
    ghost use Rattle.store_buffer.specs.LineMaps.{lines_in};

    ghost Value = { List (ℕ × LineOf) };

    ghost view = { λ i. lines_in i.lines.now i.indices };

    ghost invariant = { λ i. All (λ p. p < length i.lines.now) (values_of i.indices) };
}

impl<'a> Iterator for InOrder<'a> {
    type Item = (u64, &'a Line);

    ghost next_gives = { YieldsFirstBy (λ item. (item.0, item.1.now)) (λ rest. rest) };

    ghost remaining = { item_count (λ rest. rest) };

    #[inline]
    fn next(&mut self) -> Option<(u64, &'a Line)> {
        let (number, index) = self.indices.next()?;
        let lines: &'a [Numbered] = self.lines;
        Some((*number, &lines[*index].line))
    }
}
