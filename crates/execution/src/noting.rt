//! What is noted of a step.

ghost use Rattle.std.specs.Prelude.{◌≡◌, ◌<◌, ◌++◌, [], ◌∷◌, OnOk, vec_capacity, vec_len};
ghost use Rattle.round_schedule.specs.Held.{held_after_own};
ghost use Rattle.execution.specs.Progressing.{step_event};

use pages::OutOfMemory;
use round_schedule::{Access, Event, Phase, Span};
use rv64_decode::{FenceMode, FenceSet, Instr};

/// Makes room for one more instruction and its event.
pub(crate) fn reserve_one(
    instructions: &mut Vec<Instr>,
    events: &mut Vec<Event>,
) -> Result<(), OutOfMemory>
    ensures instructions { instructions.new.items ≡ instructions.old.items }
    ensures events { events.new.items ≡ events.old.items }
    ensures room { OnOk result (vec_len instructions.new < vec_capacity instructions.new) }
    ensures room_of_events { OnOk result (vec_len events.new < vec_capacity events.new) }
{
    instructions.reserve(1)?;
    events.reserve(1)?;
    Ok(())
}

/// Notes an instruction and its event, where there is room.
pub(crate) fn note(
    instructions: &mut Vec<Instr>,
    events: &mut Vec<Event>,
    instruction: Instr,
    event: Event,
)
    requires room { vec_len instructions.old < vec_capacity instructions.old }
    requires room_of_events { vec_len events.old < vec_capacity events.old }
    ensures instructions { instructions.new.items ≡ instructions.old.items ++ instruction ∷ [] }
    ensures events { events.new.items ≡ events.old.items ++ event ∷ [] }
{
    instructions.push(instruction).unwrap();
    events.push(event).unwrap();
}

/// What a hart's own access leaves of its reservation.
pub(crate) fn own_held_after(access: Option<Access>, own: Option<Span>) -> Option<Span>
    ensures { result ≡ held_after_own (step_event 0 access).access own }
{
    match access {
        Some(Access::LoadReserved { width, address, .. }) => Some(Span { address, width }),
        Some(Access::StoreConditional { .. }) => None,
        _ => own,
    }
}

/// The event of a step of a hart.
pub(crate) fn event_of(hart: u8, access: Option<Access>) -> Event
    ensures { result ≡ step_event hart access }
{
    let none = FenceSet {
        reads: false,
        writes: false,
    };
    let access = match access {
        Some(access) => access,
        None => Access::Fence {
            before: none,
            after: none,
            mode: FenceMode::Normal,
            place: 0,
        },
    };
    Event {
        access,
        round: 0,
        hart,
        phase: Phase::Parallel,
    }
}
