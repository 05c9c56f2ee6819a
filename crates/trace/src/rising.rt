ghost use Rattle.std.specs.Prelude.{◌≡◌, ◌<◌, ◌≤◌, ◌↔◌, IsTrue, length, replicate, None};
ghost use Rattle.round_schedule.specs.Places.{PlacesRise};
ghost use Rattle.trace.specs.LastPlaces.{AreLast, IsAbove, noted};

use round_schedule::Event;

/// One more than the greatest number of a hart.
const HARTS: usize = 256;

/// Whether the places of each hart rise through a list of events, by a step an event. This takes no memory.
pub(crate) fn places_rise(events: &[Event]) -> bool
    ensures { IsTrue result ↔ PlacesRise events.now }
{
    let mut last = [None; HARTS];
    for i in 0..events.len() {
        if !is_above(events, i, &last) {
            return false;
        }
        note(&mut last, &events[i]);
    }
    true
}

/// Whether the place of event `i` is above those of its hart before it, where `last` has the last place of each hart before
/// it.
fn is_above(events: &[Event], i: usize, last: &[Option<u64>]) -> bool
    requires within { i < length events.now }
    requires all { length last.now ≡ 256 }
    requires last { AreLast events.now i last.now }
    ensures { IsTrue result ↔ IsAbove events.now i }
{
    let event = &events[i];
    match &last[event.hart as usize] {
        Some(below) => *below < event.access.place(),
        None => true,
    }
}

/// Notes the place of an event as the last one of its hart.
fn note(last: &mut [Option<u64>], event: &Event)
    requires { length last.old ≡ 256 }
    ensures { last.new ≡ noted last.old event.now }
{
    last[event.hart as usize] = Some(event.access.place());
}
