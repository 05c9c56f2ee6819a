ghost use Rattle.std.specs.Prelude.{◌≡◌, ◌<◌, ℕ, All, IfOk, MatchOption, length, slice_index};
ghost use Rattle.round_schedule.specs.Positions.{event};
ghost use Rattle.trace.specs.Traced.{HasForm};
ghost use Rattle.memory_order.specs.Operations.{is_lr_or_sc};
ghost use Rattle.memory_order.specs.Rvwmo.{IsPaired};
ghost use Rattle.memory_order.specs.Checking.{AreReserved};

use crate::checking::harts::{of_hart, set_of_hart};
use crate::checking::kinds::{event_at, is_lr_or_sc, is_sc};
use pages::OutOfMemory;
use round_schedule::Event;
use std::alloc::Global;

/// For each event, one more than the index of the last LR or SC of its hart before it; 0 where there is none.
pub fn last_reserved(alloc: Global, events: &[Event]) -> Result<Vec<usize>, OutOfMemory>
    requires { All HasForm events.now }
    ensures { IfOk result (λ v. AreReserved events.now (length events.now) v.items) }
{
    let mut reserved = Vec::new(alloc);
    // of each hart so far
    let mut last = vec![in alloc; 0; 256]?;
    for i in 0..events.len() {
        let event = event_at(events, i);
        reserved.push(of_hart(&last, event.hart))?;
        if is_lr_or_sc(&event.access) {
            set_of_hart(&mut last, event.hart, i + 1);
        }
    }
    Ok(reserved)
}

/// The index of the LR that the event at an index is paired with, if it is an SC that has one.
pub fn paired(events: &[Event], reserved: &[usize], i: usize) -> Option<usize>
    requires within { i < length events.now }
    requires formed { All HasForm events.now }
    requires reserved { AreReserved events.now (length events.now) reserved.now }
    ensures { MatchOption result ((l : ℕ) → IsPaired events.now l i →
        ⊥) (λ l. (l < length events.now) × IsPaired events.now l i) }
{
    let last = reserved[i];
    if last == 0 || !is_sc(&event_at(events, i).access) {
        return None;
    }
    if is_sc(&event_at(events, last - 1).access) {
        return None;
    }
    Some(last - 1)
}
