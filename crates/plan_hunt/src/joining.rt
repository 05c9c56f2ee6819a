ghost use Rattle.std.specs.Prelude.{OnOk};
ghost use Rattle.plan_hunt.specs.Joining.{JoinIsTable, Joins};

use crate::adding::index_of;
use crate::row::Row;
use pages::OutOfMemory;

/// Joins one row.
fn join_row(rows: &mut Vec<Row>, other: Row) -> Result<(), OutOfMemory>
    ensures { OnOk result (Joins rows.old.items other rows.new.items) }
{
    match index_of(rows, &other.ending) {
        Some(index) => {
            // Counts of tables of one hunt never add up to more than there are numbers.
            rows[index].plans = rows[index].plans.saturating_add(other.plans);
            Ok(())
        }
        None => match rows.push(other) {
            Ok(()) => Ok(()),
            Err(_) => Err(OutOfMemory),
        },
    }
}

/// Joins to the table of some plans that of the plans which follow.
///
/// # Errors
///
/// The rows were refused memory; they are of no use then.
pub fn join(rows: &mut Vec<Row>, others: Vec<Row>) -> Result<(), OutOfMemory>
    // Where both are tables of one hunt, it is the table of all their plans.
    ensures { OnOk result (JoinIsTable rows.old.items others.items rows.new.items) }
{
    for other in others {
        join_row(rows, other)?;
    }
    Ok(())
}
