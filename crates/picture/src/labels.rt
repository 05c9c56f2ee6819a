ghost use Rattle.std.specs.Prelude.{◌≡◌, ◌≤◌, ◌*◌, ◌++◌, OnOk, codes};
ghost use Rattle.report_lines.specs.Text.{hex};
ghost use Rattle.round_schedule.specs.Accesses.{bytes_of, read_of};
ghost use Rattle.picture.specs.Boxes.{access_text, mode_text, operand_text, ordering_text, read_text, set_text, times_text, value_text, written_text};

use pages::{OutOfMemory, Width};
use report_lines::Line;
use round_schedule::Access;
use rv64_decode::{AcquireRelease, FenceMode, FenceSet};

fn ordering(order: AcquireRelease) -> &'static str
    ensures { result.now ≡ ordering_text order }
{
    match (order.acquire, order.release) {
        (true, true) => ".aqrl",
        (true, false) => ".aq",
        (false, true) => ".rl",
        (false, false) => "",
    }
}

fn fence_set(set: FenceSet) -> &'static str
    ensures { result.now ≡ set_text set }
{
    match (set.reads, set.writes) {
        (true, true) => "rw",
        (true, false) => "r",
        (false, true) => "w",
        (false, false) => "-",
    }
}

fn fence_mode(mode: FenceMode) -> &'static str
    ensures { result.now ≡ mode_text mode }
{
    match mode {
        FenceMode::Normal => "",
        FenceMode::Tso => " tso",
    }
}

/// Adds how many bytes an access has, its ordering bits and its address.
fn operand(line: &mut Line, width: Width, ordering: &str, address: u64) -> Result<(), OutOfMemory>
    ensures { OnOk result (line.new ≡ line.old ++ operand_text width ordering.now address) }
{
    line.decimal(width.bytes())?;
    line.text(ordering)?;
    line.text(" ")?;
    line.hex(address, 8)
}

/// Adds what was done, and where.
#[tactic(auto, unfolding(crate::specs::Boxes::access_text))]
pub(crate) fn access(line: &mut Line, access: &Access) -> Result<(), OutOfMemory>
    ensures { OnOk result (line.new ≡ line.old ++ access_text access.now) }
{
    match *access {
        Access::Load { width, address, .. } => {
            line.text("load.")?;
            operand(line, width, "", address)
        }
        Access::Store { width, address, .. } => {
            line.text("store.")?;
            operand(line, width, "", address)
        }
        Access::LoadReserved {
            width,
            ordering: order,
            address,
            ..
        } => {
            line.text("lr.")?;
            operand(line, width, ordering(order), address)
        }
        Access::StoreConditional {
            width,
            ordering: order,
            address,
            ..
        } => {
            line.text("sc.")?;
            operand(line, width, ordering(order), address)
        }
        Access::Atomic {
            width,
            ordering: order,
            address,
            ..
        } => {
            line.text("amo.")?;
            operand(line, width, ordering(order), address)
        }
        Access::Fence {
            before,
            after,
            mode,
            ..
        } => fence(line, before, after, mode),
    }
}

fn fence(
    line: &mut Line,
    before: FenceSet,
    after: FenceSet,
    mode: FenceMode,
) -> Result<(), OutOfMemory>
    ensures { OnOk result (line.new ≡ line.old ++
        (codes "fence " ++ set_text before ++ codes " " ++ set_text after ++ mode_text mode)) }
{
    line.text("fence ")?;
    line.text(fence_set(before))?;
    line.text(" ")?;
    line.text(fence_set(after))?;
    line.text(fence_mode(mode))
}

/// Adds a number of so many bytes.
fn number(line: &mut Line, count: u64, value: u64) -> Result<(), OutOfMemory>
    requires { count ≤ 8 }
    ensures { OnOk result (line.new ≡ line.old ++ hex (2 * count) value) }
{
    line.hex(value, 2 * count as usize)
}

/// Adds what an access of so many bytes read.
fn number_read(line: &mut Line, count: u64, value: Option<u64>) -> Result<(), OutOfMemory>
    requires { count ≤ 8 }
    ensures { OnOk result (line.new ≡ line.old ++ read_text count value) }
{
    match value {
        None => Ok(()),
        Some(value) => {
            line.text("read ")?;
            number(line, count, value)
        }
    }
}

/// What an access read, where it is a load, an LR or an AMO.
fn value_read(access: &Access) -> Option<u64>
    ensures { result ≡ read_of access.now }
{
    match *access {
        Access::Load { read, .. }
        | Access::LoadReserved { read, .. }
        | Access::Atomic { read, .. } => Some(read),
        Access::Store { .. } | Access::StoreConditional { .. } | Access::Fence { .. } => None,
    }
}

/// Adds what was read.
pub(crate) fn read(line: &mut Line, access: &Access) -> Result<(), OutOfMemory>
    ensures { OnOk result (line.new ≡ line.old
        ++ read_text (bytes_of access.now) (read_of access.now)) }
{
    number_read(line, access.byte_count(), value_read(access))
}

fn value_written(line: &mut Line, width: Width, value: u64) -> Result<(), OutOfMemory>
    ensures { OnOk result (line.new ≡ line.old ++ value_text width value) }
{
    line.text("wrote ")?;
    number(line, width.bytes(), value)
}

/// Adds what was written, or that an SC failed.
#[tactic(auto, unfolding(crate::specs::Boxes::written_text))]
pub(crate) fn written(line: &mut Line, access: &Access) -> Result<(), OutOfMemory>
    ensures { OnOk result (line.new ≡ line.old ++ written_text access.now) }
{
    match *access {
        Access::Load { .. } | Access::LoadReserved { .. } | Access::Fence { .. } => Ok(()),
        Access::Store { width, written, .. } | Access::Atomic { width, written, .. } => {
            value_written(line, width, written)
        }
        Access::StoreConditional { width, written, .. } => match written {
            None => line.text("failed"),
            Some(value) => value_written(line, width, value),
        },
    }
}

/// Adds how many in a row are the same load, where they are several.
pub(crate) fn times(line: &mut Line, count: u64) -> Result<(), OutOfMemory>
    ensures { OnOk result (line.new ≡ line.old ++ times_text count) }
{
    if count == 1 {
        return Ok(());
    }
    line.decimal(count)?;
    line.text(" times")
}
