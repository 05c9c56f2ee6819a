mod cursor;
mod endings;
mod growing;
mod output;
mod program;
mod seen;
mod stops;

ghost use Rattle.std.specs.Prelude.{◌≡◌, ◌≢◌, ◌↔◌, IfErr, IfOk, IsTrue, List};
ghost use Rattle.hunt_table.specs.Text.{IsTextOf, table_text_by};
ghost use Rattle.hunt_table.specs.declared.header.Header.{Header as TableHeader};
ghost use Rattle.plan_hunt.specs.declared.row.Row.{Row as TableRow};
ghost use Rattle.hunt_table.specs.Reading.{contents, table_at, weak_at};
ghost use Rattle.hunt_table.specs.Told.{IsReadAs, IsTold};

use crate::header::Header;
use crate::read_error::ReadError;
use crate::reading::cursor::{byte_at, number_at, skip, word_at};
use crate::reading::endings::endings_at;
use crate::reading::program::program_at;
use crate::table::Table;
use crate::writing::add_table;
use pages::OutOfMemory;
use report_lines::Line;
use std::alloc::Global;

/// Whether the word of a weak hunt is there, and what follows.
fn weak_at(text: &[u8]) -> (bool, &[u8])
    ensures is_weak { result.0 ≡ (weak_at text.now).0 }
    ensures rest { result.1.now ≡ (weak_at text.now).1 }
{
    if byte_at(text, 0) == b' ' {
        (true, skip(text, " weak".len()))
    } else {
        (false, text)
    }
}

/// What a text would be as a table. Whether it is one is not looked at: each part is read as if it were there.
#[tactic(auto, unfolding(crate::specs::Reading::table_at))]
fn table_at(alloc: Global, text: &[u8]) -> Result<Table, OutOfMemory>
    ensures { IfOk result (λ t. contents t ≡ table_at text.now) }
{
    let (first, rest) = word_at(skip(text, "plans ".len()));
    let (count, rest) = word_at(skip(rest, 1));
    let (seed, rest) = number_at(skip(rest, " seed ".len()));
    let (is_weak, rest) = weak_at(rest);
    let (program, rest) = program_at(skip(rest, 1));
    let (endings, rest) = number_at(skip(rest, "endings ".len()));
    let endings = endings_at(alloc, skip(rest, 1), endings)?;
    Ok(Table {
        header: Header {
            is_weak,
            seed,
            first,
            count,
            program,
            ranges: endings.ranges,
        },
        rows: endings.rows,
    })
}

fn is_same(text: &[u8], other: &[u8]) -> bool
    ensures { IsTrue result ↔ (text.now ≡ other.now) }
{
    text == other
}

/// Whether a text is that of a table, with bad endings marked or without.
fn is_text_of(alloc: Global, text: &[u8], marked: bool, table: &Table) -> Result<bool, OutOfMemory>
    ensures { IfOk result (λ same. IsTrue same ↔
        (text.now ≡ table_text_by marked table.now.header table.now.rows.items)) }
{
    let mut line = Line::new(alloc);
    let header = &table.header;
    add_table(&mut line, marked, header, header.count, &table.rows)?;
    Ok(is_same(text, line.as_bytes()))
}

/// Reads the table of a hunt from its text: with bad endings marked, or, as it was once written, without.
///
/// # Errors
///
/// `NotATable` where the text is not that of a table, byte for byte, and `OutOfMemory`.
pub fn read_table(alloc: Global, text: &[u8]) -> Result<Table, ReadError>
    // The text is that of the table.
    ensures found { IfOk result (λ t. IsTextOf t.header t.rows.items text.now) }
    // Each table is read from its text, unless memory runs out.
    ensures only { (h : TableHeader) (rows : List TableRow) → IsTold h rows →
        IsTextOf h rows text.now → IsReadAs h rows result }
{
    // Each part was read as if it were there: the text is a table's where it is the text of what was read.
    let table = table_at(alloc, text)?;
    if is_text_of(alloc, text, true, &table)? {
        return Ok(table);
    }
    if is_text_of(alloc, text, false, &table)? {
        return Ok(table);
    }
    Err(ReadError::NotATable)
}
