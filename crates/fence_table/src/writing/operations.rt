ghost use Rattle.std.specs.Prelude.{◌≡◌, ◌≤◌, ◌*◌, ◌++◌, OnOk, Option, Some, None, codes};
ghost use Rattle.std.specs.Fmt.{decimal};
ghost use Rattle.pages.specs.Memory.{width_bytes};
ghost use Rattle.report_lines.specs.Text.{hex, number_text};
ghost use Rattle.fence_table.specs.Text.{access_words, bytes_words, operation_words};

use crate::moved::Operation;
use pages::{OutOfMemory, Width};
use report_lines::Line;
use round_schedule::Access;

/// Adds a number of as many bytes as the operation has.
fn add_number(line: &mut Line, width: Width, number: u64) -> Result<(), OutOfMemory>
    ensures { OnOk result (line.new ≡ line.old ++ number_text width (Some number)) }
{
    match width {
        Width::W1 => line.hex(number, 2),
        Width::W2 => line.hex(number, 4),
        Width::W4 => line.hex(number, 8),
        Width::W8 => line.hex(number, 16),
    }
}

/// Adds the number that an SC wrote, or a dash where it failed.
fn add_written(line: &mut Line, width: Width, written: Option<u64>) -> Result<(), OutOfMemory>
    ensures { OnOk result (line.new ≡ line.old ++ number_text width written) }
{
    match written {
        Some(number) => add_number(line, width, number),
        None => line.text("-"),
    }
}

/// Adds the kind of an operation, and its bytes.
fn add_bytes(line: &mut Line, kind: &str, address: u64, width: Width) -> Result<(), OutOfMemory>
    ensures { OnOk result (line.new ≡ line.old ++ bytes_words kind.now address width) }
{
    line.text(kind)?;
    line.hex(address, 8)?;
    line.text(" ")?;
    line.decimal(width.bytes())?;
    line.text(" ")
}

/// Adds what was done.
#[tactic(auto, unfolding(crate::specs::Text::access_words))]
fn add_access(line: &mut Line, access: &Access) -> Result<(), OutOfMemory>
    ensures { OnOk result (line.new ≡ line.old ++ access_words access.now) }
{
    match *access {
        Access::Load {
            width,
            address,
            read,
            ..
        } => {
            add_bytes(line, " load ", address, width)?;
            add_number(line, width, read)
        }
        Access::Store {
            width,
            address,
            written,
            ..
        } => {
            add_bytes(line, " store ", address, width)?;
            add_number(line, width, written)
        }
        Access::LoadReserved {
            width,
            address,
            read,
            ..
        } => {
            add_bytes(line, " lr ", address, width)?;
            add_number(line, width, read)
        }
        Access::StoreConditional {
            width,
            address,
            written,
            ..
        } => {
            add_bytes(line, " sc ", address, width)?;
            add_written(line, width, written)
        }
        Access::Atomic {
            width,
            address,
            read,
            written,
            ..
        } => {
            add_bytes(line, " amo ", address, width)?;
            add_number(line, width, read)?;
            line.text(" ")?;
            add_number(line, width, written)
        }
        Access::Fence { .. } => line.text(" fence"),
    }
}

/// Adds an operation of a hart.
pub(crate) fn add_operation(line: &mut Line, operation: &Operation) -> Result<(), OutOfMemory>
    ensures { OnOk result (line.new ≡ line.old ++ operation_words operation.now) }
{
    line.text(" hart ")?;
    line.decimal(u64::from(operation.hart))?;
    add_access(line, &operation.access)
}
