//! The phases of rounds that events are of.

ghost use Rattle.std.specs.Prelude.{◌≡◌};
ghost use Rattle.round_schedule.specs.Events.{is_serial};
ghost use Rattle.byte_sources.specs.Phases.{one_phase, same_turn};

use round_schedule::{Event, Phase};

pub fn is_serial(phase: Phase) -> bool
    ensures { result ≡ is_serial phase }
{
    match phase {
        Phase::Parallel => false,
        Phase::Serial => true,
    }
}

/// Whether two events are of the same phase of the same round.
pub fn is_same_phase(one: &Event, other: &Event) -> bool
    ensures { result ≡ one_phase one.now other.now }
{
    one.round == other.round && is_serial(one.phase) == is_serial(other.phase)
}

/// Whether they are of the same hart too.
pub fn is_same_turn(one: &Event, other: &Event) -> bool
    ensures { result ≡ same_turn one.now other.now }
{
    is_same_phase(one, other) && one.hart == other.hart
}
