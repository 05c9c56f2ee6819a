//! The endings of a table, each with the same ending of another table.
ghost use Rattle.std.specs.Prelude.{◌≡◌, IfOk, map};
ghost use Rattle.hunt_comparison.specs.Twins.{AreCompared, IsTwinOf, row_of};

use plan_hunt::{Ending, Row, index_of};
use std::alloc::{AllocError, Global};

/// The row of the same ending in another table.
#[derive(Clone, Copy, Drop)]
pub struct Twin {
    /// Its number there, from 1 on.
    pub number: u64,
    /// How many plans lead there.
    pub plans: u32,
}

/// A row of a table, and its twin in another table, where that has one.
#[derive(Clone, Copy, Drop)]
pub struct Compared<'a> {
    pub row: &'a Row,
    pub twin: Option<Twin>,
}

/// The row of an ending, where a table has it.
fn twin_of(rows: &[Row], ending: &Ending) -> Option<Twin>
    ensures { IsTwinOf rows.now ending.now result }
{
    match index_of(rows, ending) {
        Some(place) => Some(Twin {
            number: place as u64 + 1,
            plans: rows[place].plans,
        }),
        None => None,
    }
}

/// The rows of a table, each with its twin among those of another.
///
/// # Errors
///
/// The allocator's alone.
pub fn compare_rows<'a>(
    alloc: Global,
    rows: &'a [Row],
    others: &[Row],
) -> Result<Vec<Compared<'a>>, AllocError>
    ensures { IfOk result (λ v. AreCompared rows.now others.now v.items) }
{
    let mut compared = Vec::new(alloc);
    for row in rows {
        let twin = twin_of(others, &row.ending);
        compared.push(Compared { row, twin })?;
    }
    Ok(compared)
}
