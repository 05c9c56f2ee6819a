ghost use Rattle.std.specs.Prelude.{◌≡◌, List, Contains, OnOk, IfOk, IsTrue};
ghost use Rattle.all_endings.specs.Endings.{Ending};
ghost use Rattle.all_endings.specs.Walking.{AreEndsOf, HartEnding, ending_with};
ghost use Rattle.hart_ends.specs.Told.{bytes_told, end_told, ending_told, ends_told, table_told, ways_told};

use crate::choices::choices_of_ends;
use crate::ends::{HartEnd, TableEnding};
use pages::OutOfMemory;
use std::alloc::Global;

/// Adds to a table the ending of each choice of an end of each hart, over the bytes that are looked at.
///
/// # Errors
///
/// `OutOfMemory` alone.
pub fn add_endings(
    alloc: Global,
    table: &mut Vec<TableEnding>,
    ways: &[Vec<HartEnd>],
    seen: &[Vec<u8>],
) -> Result<(), OutOfMemory>
    ensures kept { OnOk result ((e : Ending) → Contains (table_told table.old.items) e →
        Contains (table_told table.new.items) e) }
    ensures added { OnOk result ((es : List HartEnding) → AreEndsOf (ways_told ways.now) es →
        Contains (table_told table.new.items) (ending_with es (bytes_told seen.now))) }
{
    for harts in choices_of_ends(alloc, ways)? {
        let ending = TableEnding {
            harts,
            seen: copied(alloc, seen)?,
        };
        if !has_ending(table, &ending) {
            table.push(ending)?;
        }
    }
    Ok(())
}

/// The same bytes once more.
fn copied(alloc: Global, seen: &[Vec<u8>]) -> Result<Vec<Vec<u8>>, OutOfMemory>
    ensures { IfOk result (λ v. bytes_told v.items ≡ bytes_told seen.now) }
{
    let mut copy = Vec::new(alloc);
    for bytes in seen {
        copy.push(Vec::from_slice(alloc, bytes)?)?;
    }
    Ok(copy)
}

/// Whether the table has the ending already.
fn has_ending(table: &[TableEnding], ending: &TableEnding) -> bool
    ensures { IsTrue result → Contains (table_told table.now) (ending_told ending.now) }
{
    for other in table {
        if same_ending(other, ending) {
            return true;
        }
    }
    false
}

/// Whether an end of a hart is among some.
pub fn has_end(ends: &[HartEnd], end: &HartEnd) -> bool
    ensures { IsTrue result → Contains (ends_told ends.now) (end_told end.now) }
{
    for other in ends {
        if same_end(other, end) {
            return true;
        }
    }
    false
}

/// Whether two endings are the same.
fn same_ending(a: &TableEnding, b: &TableEnding) -> bool
    ensures { IsTrue result → ending_told a.now ≡ ending_told b.now }
{
    same_harts(&a.harts, &b.harts) && same_seen(&a.seen, &b.seen)
}

fn same_harts(a: &[HartEnd], b: &[HartEnd]) -> bool
    ensures { IsTrue result → ends_told a.now ≡ ends_told b.now }
{
    if a.len() != b.len() {
        return false;
    }
    for index in 0..a.len() {
        if !same_end(&a[index], &b[index]) {
            return false;
        }
    }
    true
}

fn same_end(a: &HartEnd, b: &HartEnd) -> bool
    ensures { IsTrue result → end_told a.now ≡ end_told b.now }
{
    a.stop == b.stop && same_bytes(&a.output, &b.output)
}

fn same_bytes(a: &[u8], b: &[u8]) -> bool
    ensures { IsTrue result → a.now ≡ b.now }
{
    a == b
}

fn same_seen(a: &[Vec<u8>], b: &[Vec<u8>]) -> bool
    ensures { IsTrue result → bytes_told a.now ≡ bytes_told b.now }
{
    if a.len() != b.len() {
        return false;
    }
    for index in 0..a.len() {
        if !same_bytes(&a[index], &b[index]) {
            return false;
        }
    }
    true
}
