ghost use Rattle.std.specs.Prelude.{◌≡◌, ◌+◌, ◌≤◌, ◌++◌, OnOk, Option, Some, None, length, codes};
ghost use Rattle.std.specs.Fmt.{decimal};
ghost use Rattle.pages.specs.Memory.{width_bytes};
ghost use Rattle.report_lines.specs.Text.{event_text, access_text, hex, phase_text, ordering_text, number_text, set_number, mode_text};

use crate::line::Line;
use crate::tail::Tail;
use pages::{OutOfMemory, Width};
use round_schedule::{Access, Event, Phase};
use rv64_decode::{AcquireRelease, FenceMode, FenceSet};

fn ordering(order: AcquireRelease) -> &'static str
    ensures text { result.now ≡ ordering_text order }
    ensures length { length result.now ≤ 4 }
{
    match (order.acquire, order.release) {
        (true, true) => "aqrl",
        (true, false) => "aq",
        (false, true) => "rl",
        (false, false) => "-",
    }
}

fn phase(phase: Phase) -> &'static str
    ensures text { result.now ≡ phase_text phase }
    ensures length { length result.now ≡ 1 }
{
    match phase {
        Phase::Parallel => "p",
        Phase::Serial => "s",
    }
}

fn set_number(set: FenceSet) -> u64
    ensures { result ≡ set_number set }
{
    let reads = if set.reads { 2 } else { 0 };
    let writes = if set.writes { 1 } else { 0 };
    reads + writes
}

/// A number of as many bytes as the access has, or a dash.
#[inline(always)]
fn number(tail: &mut Tail, width: Width, number: Option<u64>)
    requires { 16 + length tail.old ≤ 256 }
    ensures text { tail.new ≡ number_text width number ++ tail.old }
    ensures length { length tail.new ≤ 16 + length tail.old }
{
    match number {
        None => tail.text("-"),
        Some(value) => match width {
            Width::W1 => tail.hex(value, 2),
            Width::W2 => tail.hex(value, 4),
            Width::W4 => tail.hex(value, 8),
            Width::W8 => tail.hex(value, 16),
        },
    }
}

/// How many bytes an access has, which is one digit.
fn bytes(width: Width) -> &'static str
    ensures text { result.now ≡ decimal (width_bytes width) }
    ensures length { length result.now ≡ 1 }
{
    match width {
        Width::W1 => "1",
        Width::W2 => "2",
        Width::W4 => "4",
        Width::W8 => "8",
    }
}

/// What follows the ordering bits of an access that is no fence: its bytes, and the numbers that it read and wrote.
#[inline(always)]
fn operands(tail: &mut Tail, address: u64, width: Width, numbers: (Option<u64>, Option<u64>))
    requires { length tail.old ≤ 129 }
    ensures text { tail.new ≡
        (codes " " ++ hex 8 address ++ codes " " ++ decimal (width_bytes width) ++ codes " " ++
        number_text width numbers.0 ++ codes " " ++ number_text width numbers.1) ++ tail.old }
    ensures length { length tail.new ≤ 174 }
{
    number(tail, width, numbers.1);
    tail.text(" ");
    number(tail, width, numbers.0);
    tail.text(" ");
    tail.text(bytes(width));
    tail.text(" ");
    tail.hex(address, 8);
    tail.text(" ");
}

/// The ordering bits of an access, and what follows them. It stands apart, so that the line of a plain access stays short.
#[inline(never)]
fn ordered(
    tail: &mut Tail,
    order: AcquireRelease,
    address: u64,
    width: Width,
    numbers: (Option<u64>, Option<u64>),
)
    requires { length tail.old ≤ 129 }
    ensures text { tail.new ≡ (ordering_text order ++ codes " " ++ hex 8 address ++ codes " " ++
        decimal (width_bytes width) ++ codes " " ++ number_text width numbers.0 ++ codes " " ++
        number_text width numbers.1) ++ tail.old }
    ensures length { length tail.new ≤ 178 }
{
    operands(tail, address, width, numbers);
    tail.text(ordering(order));
}

/// A fence. It stands apart as well.
#[inline(never)]
fn fence(tail: &mut Tail, before: FenceSet, after: FenceSet, mode: FenceMode)
    requires { length tail.old ≤ 129 }
    ensures text { tail.new ≡ (codes "fence " ++ decimal (set_number before) ++ codes " " ++
        decimal (set_number after) ++ codes " " ++ mode_text mode) ++ tail.old }
    ensures length { length tail.new ≤ 184 }
{
    tail.text(match mode {
        FenceMode::Normal => "normal",
        FenceMode::Tso => "tso",
    });
    tail.text(" ");
    tail.decimal(set_number(after));
    tail.text(" ");
    tail.decimal(set_number(before));
    tail.text("fence ");
}

/// What an event did.
#[inline(always)]
#[tactic(auto, unfolding(crate::specs::Text::access_text))]
fn access(tail: &mut Tail, access: &Access)
    requires { length tail.old ≤ 129 }
    ensures text { tail.new ≡ access_text access.now ++ tail.old }
    ensures length { length tail.new ≤ 184 }
{
    match *access {
        Access::Load {
            width,
            address,
            read,
            ..
        } => {
            operands(tail, address, width, (Some(read), None));
            tail.text("load -");
        }
        Access::Store {
            width,
            address,
            written,
            ..
        } => {
            operands(tail, address, width, (None, Some(written)));
            tail.text("store -");
        }
        Access::LoadReserved {
            width,
            ordering: order,
            address,
            read,
            ..
        } => {
            ordered(tail, order, address, width, (Some(read), None));
            tail.text("lr ");
        }
        Access::StoreConditional {
            width,
            ordering: order,
            address,
            written,
            ..
        } => {
            ordered(tail, order, address, width, (None, written));
            tail.text("sc ");
        }
        Access::Atomic {
            width,
            ordering: order,
            address,
            read,
            written,
            ..
        } => {
            ordered(tail, order, address, width, (Some(read), Some(written)));
            tail.text("amo ");
        }
        Access::Fence {
            before,
            after,
            mode,
            ..
        } => fence(tail, before, after, mode),
    }
}

/// An event's line, in a tail with no text yet.
#[inline(always)]
fn columns(tail: &mut Tail, event: &Event)
    requires { length tail.old ≡ 128 }
    ensures text { tail.new ≡ event_text event.now ++ tail.old }
    ensures length { length tail.new ≤ 256 }
{
    tail.text("\n");
    access(tail, &event.access);
    tail.text(" ");
    tail.text(phase(event.phase));
    tail.text(" ");
    tail.decimal(event.access.place());
    tail.text(" ");
    tail.decimal(event.hart as u64);
    tail.text(" ");
    tail.decimal(event.round as u64);
}

/// An event's line. What a plain access needs of it is inlined into the loops over events, so that an event isn't put together
/// in memory first.
#[inline(always)]
pub fn event_line(line: &mut Line, tail: &mut Tail, event: &Event) -> Result<(), OutOfMemory>
    ensures { OnOk result (line.new ≡ line.old ++ event_text event.now) }
{
    tail.clear();
    columns(tail, event);
    line.first_bytes(tail.block(), tail.len())
}
