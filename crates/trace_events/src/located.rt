//! The line of an event with the pc of its instruction.

ghost use Rattle.std.specs.Prelude.{◌≡◌, ◌++◌, OnOk};
ghost use Rattle.trace_events.specs.Located.{located_text};

use pages::OutOfMemory;
use report_lines::{Line, Tail, event_line};
use round_schedule::Event;
use std::alloc::Global;

/// Adds an event's line as the report has it, which ends in ` pc` and the pc of its instruction, in 16 digits.
///
/// # Errors
///
/// `OutOfMemory` alone.
#[tactic(auto, unfolding(crate::specs::Located::located_text))]
pub fn located_line(
    alloc: Global,
    line: &mut Line,
    event: &Event,
    pc: u64,
) -> Result<(), OutOfMemory>
    ensures { OnOk result (line.new ≡ line.old ++ located_text event.now pc) }
{
    let mut words = Line::new(alloc);
    event_line(&mut words, &mut Tail::new(), event)?;
    let text = words.as_bytes();
    line.bytes(&text[..text.len().saturating_sub(1)])?;
    line.text(" pc ")?;
    line.hex(pc, 16)?;
    line.text("\n")
}
