ghost use Rattle.std.specs.Prelude.{◌≡◌, filter, IfOk};
ghost use Rattle.run_events.specs.Hits.{is_chosen, is_of_hart};

use pages::OutOfMemory;
use round_schedule::Event;
use std::alloc::Global;

/// The events of a hart alone, where one is told, and with `only_stores` those alone that wrote, in their order.
///
/// # Errors
///
/// `OutOfMemory` alone.
pub fn choose(
    alloc: Global,
    events: Vec<Event>,
    hart: Option<u32>,
    only_stores: bool,
) -> Result<Vec<Event>, OutOfMemory>
    ensures { IfOk result (λ chosen. chosen.items
        ≡ filter (is_chosen hart only_stores) events.items) }
{
    let mut chosen = Vec::new(alloc);
    for event in events {
        if is_chosen(hart, only_stores, &event) {
            chosen.push(event)?;
        }
    }
    Ok(chosen)
}

/// Whether the event is of that hart, where one is told.
fn is_of_hart(hart: Option<u32>, event: &Event) -> bool
    ensures { result ≡ is_of_hart hart event.now }
{
    match hart {
        None => true,
        Some(hart) => u32::from(event.hart) == hart,
    }
}

/// Whether the event stays.
fn is_chosen(hart: Option<u32>, only_stores: bool, event: &Event) -> bool
    ensures { result ≡ is_chosen hart only_stores event.now }
{
    is_of_hart(hart, event) && (!only_stores || event.access.stores())
}
