//! The reservations of harts, by the events of a trace.

ghost use Rattle.std.specs.Prelude.{◌≡◌, ◌<◌, ◌^◌, ◌++◌, [], List, length, IfOk};
ghost use Rattle.pages.specs.Memory.{in_range, width_bytes};
ghost use Rattle.round_schedule.specs.declared.event.Event.{Event};
ghost use Rattle.round_schedule.specs.Accesses.{writes};
ghost use Rattle.round_schedule.specs.Held.{any_byte, held_after, held_from, held_after_own, unless};
ghost use Rattle.round_schedule.specs.Reservations.{Tied};

use pages::OutOfMemory;
use round_schedule::{Access, Event, Span};
use std::alloc::Global;

/// Those of so many harts where there was no event: none.
pub(crate) fn no_reservations(alloc: Global, harts: u32) -> Result<Vec<Option<Span>>, OutOfMemory>
    ensures count { IfOk result (λ v. length v.items ≡ harts) }
    ensures tied { IfOk result (λ v. Tied v.items []) }
{
    let mut reservations = Vec::new(alloc);
    for _i in 0..harts {
        reservations.push(None)?;
    }
    Ok(reservations)
}

/// Those behind some events more.
pub(crate) fn note(reservations: &mut Vec<Option<Span>>, events: &[Event])
    requires few { length reservations.old.items < 2 ^ 32 }
    ensures count { length reservations.new.items ≡ length reservations.old.items }
    ensures tied { (t : List Event) → Tied reservations.old.items t →
        Tied reservations.new.items (t ++ events.now) }
{
    for hart in 0..reservations.len() {
        reservations[hart] = held_from(hart as u32, events, reservations[hart]);
    }
}

/// The reservation of a hart behind some events more.
#[tactic(auto, using(crate::proofs::Behind::held_more))]
fn held_from(hart: u32, events: &[Event], before: Option<Span>) -> Option<Span>
    ensures { result ≡ held_from hart before events.now }
{
    let mut held = before;
    for event in events {
        held = held_after(hart, event, held);
    }
    held
}

/// The same behind one event.
fn held_after(hart: u32, event: &Event, before: Option<Span>) -> Option<Span>
    ensures { result ≡ held_after hart event.now before }
{
    if u32::from(event.hart) == hart {
        held_after_own(&event.access, before)
    } else {
        unless_written(&event.access, before)
    }
}

/// What a hart's own access leaves of its reservation.
fn held_after_own(access: &Access, before: Option<Span>) -> Option<Span>
    ensures { result ≡ held_after_own access.now before }
{
    match *access {
        Access::LoadReserved { width, address, .. } => Some(Span { address, width }),
        Access::StoreConditional { .. } => None,
        _ => before,
    }
}

/// What another hart's access leaves of it.
fn unless_written(access: &Access, before: Option<Span>) -> Option<Span>
    ensures { result ≡ unless (writes access.now) before }
{
    match before {
        None => None,
        Some(held) => {
            if is_written(access, held) {
                None
            } else {
                Some(held)
            }
        }
    }
}

/// Whether an access writes one of some bytes.
fn is_written(access: &Access, held: Span) -> bool
    ensures { result ≡ any_byte (writes access.now) held.address (width_bytes held.width) }
{
    access.stores() && shares_byte(access.address(), access.byte_count(), held)
}

/// Whether one of so many bytes from an address on is one of the others. Sums of addresses are not formed, so none wraps.
fn shares_byte(address: u64, count: u64, held: Span) -> bool
    ensures { result ≡ any_byte (in_range address count) held.address (width_bytes held.width) }
{
    if address <= held.address {
        held.address - address < count
    } else {
        count > 0 && address - held.address < held.width.bytes()
    }
}
