ghost use Rattle.std.specs.Prelude.{◌≡◌, ◌∷◌, ◌++◌, List, [], OnOk, map};
ghost use Rattle.std.specs.Fmt.{decimal};
ghost use Rattle.round_planner.specs.Grammar.{row_text};
ghost use Rattle.round_planner.specs.PlanText.{plan_text, rest_text};

use itoa::write_digits;
use pages::OutOfMemory;

/// Adds bytes to a text.
fn write_bytes(text: &mut Vec<u8>, bytes: &[u8]) -> Result<(), OutOfMemory>
    ensures { OnOk result (text.new.items ≡ text.old.items ++ bytes.now) }
{
    match text.extend_from_slice(bytes) {
        Ok(()) => Ok(()),
        Err(_) => Err(OutOfMemory),
    }
}

/// Adds a number in decimal.
fn write_number(text: &mut Vec<u8>, number: u32) -> Result<(), OutOfMemory>
    ensures { OnOk result (text.new.items ≡ text.old.items ++ decimal number) }
{
    let mut digits = [0; 20];
    let start = write_digits(u64::from(number), &mut digits, 20);
    write_bytes(text, &digits[start..])
}

/// Adds what follows the first number of a row: the other numbers, and the row's end.
fn write_rest(text: &mut Vec<u8>, numbers: &[u32]) -> Result<(), OutOfMemory>
    ensures { OnOk result (text.new.items ≡ text.old.items ++ rest_text numbers.now) }
{
    for number in numbers {
        write_bytes(text, b" ")?;
        write_number(text, *number)?;
    }
    write_bytes(text, b"\n")
}

/// Adds a row.
fn write_row(text: &mut Vec<u8>, row: &[u32]) -> Result<(), OutOfMemory>
    ensures { OnOk result (text.new.items ≡ text.old.items ++ row_text (map decimal row.now)) }
{
    match row {
        [] => write_bytes(text, b"\n"),
        [first, ..] => {
            write_number(text, *first)?;
            write_rest(text, &row[1..])
        }
    }
}

/// Adds the rows of a plan.
pub(crate) fn write_rows(text: &mut Vec<u8>, rows: &[Vec<u32>]) -> Result<(), OutOfMemory>
    ensures { OnOk result (text.new.items ≡
        text.old.items ++ plan_text (map (λ r. r.items) rows.now)) }
{
    for row in rows {
        write_row(text, row)?;
    }
    Ok(())
}
