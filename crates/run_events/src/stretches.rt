//! Stretches of events, and how far they go.

ghost use Rattle.std.specs.Prelude.{◌≡◌, ◌≤◌, ◌==◌, drop, length};
ghost use Rattle.std.specs.List.{prefix_len};
ghost use Rattle.run_events.specs.Parts.{is_of_part};

use round_schedule::{Event, Phase};

/// The events from an index on.
pub(crate) fn events_from(events: &[Event], index: usize) -> &[Event]
    requires { index ≤ length events.now }
    ensures { result.now ≡ drop index events.now }
{
    &events[index..]
}

/// How many events, from the first on, are of a round.
pub(crate) fn count_of_round(events: &[Event], round: u32) -> usize
    ensures count { result ≡ prefix_len (λ e. e.round == round) events.now }
    ensures within { result ≤ length events.now }
{
    for (number, event) in events.iter().enumerate() {
        if event.round != round {
            return number;
        }
    }
    events.len()
}

/// How many events, from the first on, are of a hart's part of the parallel phase.
pub(crate) fn count_of_part(events: &[Event], hart: u8) -> usize
    ensures count { result ≡ prefix_len (is_of_part hart) events.now }
    ensures within { result ≤ length events.now }
{
    for (number, event) in events.iter().enumerate() {
        if !is_of_part(event, hart) {
            return number;
        }
    }
    events.len()
}

/// Whether an event is of a hart's part of the parallel phase.
fn is_of_part(event: &Event, hart: u8) -> bool
    ensures { result ≡ is_of_part hart event.now }
{
    match event.phase {
        Phase::Parallel => event.hart == hart,
        Phase::Serial => false,
    }
}
