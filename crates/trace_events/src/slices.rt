//! The slices of a trace, as text.

ghost use Rattle.std.specs.Prelude.{◌≡◌, ◌+◌, ◌++◌, OnOk};
ghost use Rattle.std.specs.Fmt.{decimal};
ghost use Rattle.std.specs.Option.{option_copied};
ghost use Rattle.pages.specs.Memory.{width_bytes};
ghost use Rattle.report_lines.specs.Text.{mode_text, number_text, ordering_text, phase_text, set_number};
ghost use Rattle.trace_events.specs.Slices.{arguments_text, count_of_slice, event_text, fence_text, name_text, operands_text, opens, ordering_member, round_text, same_round, same_serial, serial_text, slice_start};

use pages::{OutOfMemory, Width};
use report_lines::Line;
use round_schedule::{Access, Event, Phase};
use rv64_decode::{AcquireRelease, FenceMode, FenceSet};

fn name(access: &Access) -> &'static str
    ensures { result.now ≡ name_text access.now }
{
    match access {
        Access::Load { .. } => "load",
        Access::Store { .. } => "store",
        Access::LoadReserved { .. } => "lr",
        Access::StoreConditional { .. } => "sc",
        Access::Atomic { .. } => "amo",
        Access::Fence { .. } => "fence",
    }
}

fn phase(phase: Phase) -> &'static str
    ensures { result.now ≡ phase_text phase }
{
    match phase {
        Phase::Parallel => "p",
        Phase::Serial => "s",
    }
}

fn ordering(order: AcquireRelease) -> &'static str
    ensures { result.now ≡ ordering_text order }
{
    match (order.acquire, order.release) {
        (true, true) => "aqrl",
        (true, false) => "aq",
        (false, true) => "rl",
        (false, false) => "-",
    }
}

fn mode(mode: FenceMode) -> &'static str
    ensures { result.now ≡ mode_text mode }
{
    match mode {
        FenceMode::Normal => "normal",
        FenceMode::Tso => "tso",
    }
}

fn set_number(set: FenceSet) -> u64
    ensures { result ≡ set_number set }
{
    let reads = if set.reads { 2 } else { 0 };
    let writes = if set.writes { 1 } else { 0 };
    reads + writes
}

/// Adds a text, and a number in decimal after it.
pub(crate) fn add_with_number(line: &mut Line, text: &str, number: u64) -> Result<(), OutOfMemory>
    ensures { OnOk result (line.new ≡ line.old ++ text.now ++ decimal number) }
{
    line.text(text)?;
    line.decimal(number)
}

/// Adds a number of as many bytes as the access has, or a dash.
fn add_number(line: &mut Line, width: Width, number: Option<u64>) -> Result<(), OutOfMemory>
    ensures { OnOk result (line.new ≡ line.old ++ number_text width number) }
{
    match number {
        None => line.text("-"),
        Some(value) => match width {
            Width::W1 => line.hex(value, 2),
            Width::W2 => line.hex(value, 4),
            Width::W4 => line.hex(value, 8),
            Width::W8 => line.hex(value, 16),
        },
    }
}

fn byte_count(width: Width) -> &'static str
    ensures { result.now ≡ decimal (width_bytes width) }
{
    match width {
        Width::W1 => "1",
        Width::W2 => "2",
        Width::W4 => "4",
        Width::W8 => "8",
    }
}

/// Adds the address, the number of bytes, and the numbers that were read and written.
#[tactic(auto, unfolding(crate::specs::Slices::operands_text))]
fn add_operands(
    line: &mut Line,
    width: Width,
    address: u64,
    numbers: (Option<u64>, Option<u64>),
) -> Result<(), OutOfMemory>
    ensures { OnOk result (line.new ≡ line.old ++ operands_text width address numbers.0 numbers.1) }
{
    line.text(",\"address\":\"")?;
    line.hex(address, 8)?;
    line.text("\",\"bytes\":")?;
    line.text(byte_count(width))?;
    line.text(",\"read\":\"")?;
    add_number(line, width, numbers.0)?;
    line.text("\",\"written\":\"")?;
    add_number(line, width, numbers.1)?;
    line.text("\"")
}

#[tactic(auto, unfolding(crate::specs::Slices::ordering_member))]
fn add_ordering(line: &mut Line, order: AcquireRelease) -> Result<(), OutOfMemory>
    ensures { OnOk result (line.new ≡ line.old ++ ordering_member order) }
{
    line.text(",\"ordering\":\"")?;
    line.text(ordering(order))?;
    line.text("\"")
}

/// Adds what a fence orders.
#[tactic(auto, unfolding(crate::specs::Slices::fence_text))]
fn add_fence(
    line: &mut Line,
    before: FenceSet,
    after: FenceSet,
    fence_mode: FenceMode,
) -> Result<(), OutOfMemory>
    ensures { OnOk result (line.new ≡ line.old ++ fence_text before after fence_mode) }
{
    add_with_number(line, ",\"before\":", set_number(before))?;
    add_with_number(line, ",\"after\":", set_number(after))?;
    line.text(",\"mode\":\"")?;
    line.text(mode(fence_mode))?;
    line.text("\"")
}

/// Adds the arguments of a slice.
#[tactic(auto, unfolding(crate::specs::Slices::arguments_text))]
fn add_arguments(line: &mut Line, access: &Access) -> Result<(), OutOfMemory>
    ensures { OnOk result (line.new ≡ line.old ++ arguments_text access.now) }
{
    match *access {
        Access::Load {
            width,
            address,
            read,
            ..
        } => add_operands(line, width, address, (Some(read), None)),
        Access::Store {
            width,
            address,
            written,
            ..
        } => add_operands(line, width, address, (None, Some(written))),
        Access::LoadReserved {
            width,
            ordering,
            address,
            read,
            ..
        } => {
            add_ordering(line, ordering)?;
            add_operands(line, width, address, (Some(read), None))
        }
        Access::StoreConditional {
            width,
            ordering,
            address,
            written,
            ..
        } => {
            add_ordering(line, ordering)?;
            add_operands(line, width, address, (None, written))
        }
        Access::Atomic {
            width,
            ordering,
            address,
            read,
            written,
            ..
        } => {
            add_ordering(line, ordering)?;
            add_operands(line, width, address, (Some(read), Some(written)))
        }
        Access::Fence {
            before,
            after,
            mode,
            ..
        } => add_fence(line, before, after, mode),
    }
}

/// Adds the start of a slice on a track.
#[tactic(auto, unfolding(crate::specs::Slices::slice_start))]
fn add_slice(line: &mut Line, track: u64, time: u64, count: u64) -> Result<(), OutOfMemory>
    ensures { OnOk result (line.new ≡ line.old ++ slice_start track time count) }
{
    add_with_number(line, ",\n{\"ph\":\"X\",\"pid\":0,\"tid\":", track)?;
    add_with_number(line, ",\"ts\":", time)?;
    add_with_number(line, ",\"dur\":", count)?;
    line.text(",\"name\":\"")
}

/// The track of a hart.
pub(crate) fn track_of(hart: u8) -> u64
    ensures { result ≡ hart + 1 }
{
    u64::from(hart) + 1
}

/// Adds the slice of the event at an index.
#[tactic(auto, unfolding(crate::specs::Slices::event_text))]
pub(crate) fn add_event(line: &mut Line, index: u64, event: &Event) -> Result<(), OutOfMemory>
    ensures { OnOk result (line.new ≡ line.old ++ event_text index event.now) }
{
    add_slice(line, track_of(event.hart), index, 1)?;
    line.text(name(&event.access))?;
    add_with_number(line, "\",\"args\":{\"round\":", u64::from(event.round))?;
    line.text(",\"phase\":\"")?;
    line.text(phase(event.phase))?;
    add_with_number(line, "\",\"place\":", event.access.place())?;
    add_arguments(line, &event.access)?;
    line.text("}}")
}

fn same_round(event: &Event, other: &Event) -> bool
    ensures { result ≡ same_round event.now other.now }
{
    event.round == other.round
}

fn same_serial(event: &Event, other: &Event) -> bool
    ensures { result ≡ same_serial event.now other.now }
{
    event.round == other.round && event.phase == Phase::Serial && other.phase == Phase::Serial
}

/// Whether an event is the first of its round.
fn opens_round(before: Option<&Event>, event: &Event) -> bool
    ensures { result ≡ opens same_round (option_copied before.entry) event.now }
{
    match before {
        None => true,
        Some(before) => !same_round(before, event),
    }
}

/// Whether a serial event is the first of its phase.
fn opens_serial(before: Option<&Event>, event: &Event) -> bool
    ensures { result ≡ opens same_serial (option_copied before.entry) event.now }
{
    match before {
        None => true,
        Some(before) => !same_serial(before, event),
    }
}

/// How many events the round has that begins with this one.
fn count_of_round(event: &Event, rest: &[Event]) -> u64
    ensures { result ≡ count_of_slice same_round event.now rest.now }
{
    let mut count = 1;
    for other in rest {
        if !same_round(event, other) {
            return count;
        }
        count += 1;
    }
    count
}

/// How many events the serial phase has that begins with this one.
fn count_of_serial(event: &Event, rest: &[Event]) -> u64
    ensures { result ≡ count_of_slice same_serial event.now rest.now }
{
    let mut count = 1;
    for other in rest {
        if !same_serial(event, other) {
            return count;
        }
        count += 1;
    }
    count
}

/// Adds the slice of the round that begins with an event, where one does.
#[tactic(auto, unfolding(crate::specs::Slices::round_text))]
pub(crate) fn add_round(
    line: &mut Line,
    index: u64,
    before: Option<&Event>,
    event: &Event,
    rest: &[Event],
) -> Result<(), OutOfMemory>
    ensures { OnOk result (line.new ≡
        line.old ++ round_text index (option_copied before.entry) event.now rest.now) }
{
    if !opens_round(before, event) {
        return Ok(());
    }
    add_slice(line, 0, index, count_of_round(event, rest))?;
    add_with_number(line, "round ", u64::from(event.round))?;
    line.text("\"}")
}

/// Adds the slice of the serial phase that begins with an event, where one does.
#[tactic(auto, unfolding(crate::specs::Slices::serial_text))]
pub(crate) fn add_serial(
    line: &mut Line,
    index: u64,
    before: Option<&Event>,
    event: &Event,
    rest: &[Event],
) -> Result<(), OutOfMemory>
    ensures { OnOk result (line.new ≡
        line.old ++ serial_text index (option_copied before.entry) event.now rest.now) }
{
    if event.phase != Phase::Serial || !opens_serial(before, event) {
        return Ok(());
    }
    add_slice(line, 0, index, count_of_serial(event, rest))?;
    line.text("serial phase\"}")
}
