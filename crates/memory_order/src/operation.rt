ghost use Rattle.std.specs.Prelude.{◌≡◌, ◌≤◌};
ghost use Rattle.round_schedule.specs.Positions.{event};
ghost use Rattle.memory_order.specs.Operations.{is_operation};
ghost use Rattle.memory_order.specs.RoundOrder.{stage, rank};

use round_schedule::{Access, Event, Phase};

/// Whether an event is an operation of the memory model: a load, a store, an LR, an SC that succeeded or an AMO.
pub fn is_operation(event: &Event) -> bool
    ensures { result ≡ is_operation event.now }
{
    match event.access {
        Access::Load { .. }
        | Access::Store { .. }
        | Access::LoadReserved { .. }
        | Access::Atomic { .. } => true,
        Access::StoreConditional { written, .. } => written.is_some(),
        Access::Fence { .. } => false,
    }
}

/// Whether there is a memory operation at an index of a trace.
pub fn is_operation_at(events: &[Event], index: usize) -> bool
    ensures { result ≡ is_operation (event events.now index) }
{
    match events.get(index) {
        Some(event) => is_operation(event),
        None => false,
    }
}

/// The rank of the event at an index of a trace: three times its round, and 0 for a parallel load, 1 for a parallel
/// store, 2 for what is serial. Past the trace's end it is 0.
pub(crate) fn rank_at(events: &[Event], index: usize) -> u64
    ensures { result ≡ rank (event events.now index) }
{
    match events.get(index) {
        Some(event) => rank(event),
        None => 0,
    }
}

fn rank(event: &Event) -> u64
    ensures { result ≡ rank event.now }
{
    let round = event.round;
    3 * u64::from(round) + stage(event)
}

fn stage(event: &Event) -> u64
    ensures stage { result ≡ stage event.now.phase event.now.access }
    ensures small { result ≤ 2 }
{
    match (event.phase, event.access) {
        (Phase::Serial, _) => 2,
        (Phase::Parallel, Access::Store { .. }) => 1,
        (Phase::Parallel, _) => 0,
    }
}
