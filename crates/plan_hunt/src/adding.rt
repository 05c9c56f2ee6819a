ghost use Rattle.std.specs.Prelude.{◌≡◌, ◌+◌, ◌<◌, ◌^◌, All, MatchOption, OnOk, length, slice_index_or};
ghost use Rattle.std.specs.List.{HoldsAt};
ghost use Rattle.plan_hunt.specs.Adding.{Adds, IsNew};

use crate::ending::Ending;
use crate::row::Row;
use pages::OutOfMemory;

/// The place among some rows of the row of an ending, where there is one.
pub fn index_of(rows: &[Row], ending: &Ending) -> Option<usize>
    ensures { MatchOption result (IsNew rows.now ending.now) (λ i. (i < length rows.now) ×
        HoldsAt (λ r. r.ending ≡ ending.now) rows.now i) }
{
    for (index, row) in rows.iter().enumerate() {
        if row.ending.is_same(ending) {
            return Some(index);
        }
    }
    None
}

/// Counts one more plan, with its ending, after those with lower numbers.
pub(crate) fn add(rows: &mut Vec<Row>, number: u32, ending: Ending) -> Result<(), OutOfMemory>
    requires { All (λ r. r.plans + 1 < 2 ^ 32) rows.old.items }
    ensures { OnOk result (Adds rows.old.items number ending rows.new.items) }
{
    match index_of(rows, &ending) {
        Some(index) => {
            rows[index].plans += 1;
            Ok(())
        }
        None => match rows.push(Row {
            ending,
            first: number,
            plans: 1,
        }) {
            Ok(()) => Ok(()),
            Err(_) => Err(OutOfMemory),
        },
    }
}
