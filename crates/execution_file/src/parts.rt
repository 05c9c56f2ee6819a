//! What the harts of an execution did, as a file says it.

ghost use Rattle.std.specs.Prelude.{◌≡◌, ◌↔◌, ℕ, [], IfOk, OnOk, map, true};
ghost use Rattle.execution_file.specs.Views.{hart_view};
ghost use Rattle.execution_file.specs.Deeds.{code_of, deeds, number_shown, part_of, value_of, with_event};

use crate::file::HartDeeds;
use hart_step::{Hart, Stop};
use pages::OutOfMemory;
use round_schedule::{Access, Event};
use std::alloc::Global;

/// The number that an access shows of what was read: of an SC 1 where it succeeded, and 0 where it failed.
pub fn number_shown(access: &Access) -> Option<u64>
    ensures { result ≡ number_shown access.now }
{
    match *access {
        Access::Load { read, .. }
        | Access::LoadReserved { read, .. }
        | Access::Atomic { read, .. } => Some(read),
        Access::StoreConditional { written, .. } => match written {
            Some(_) => Some(1),
            None => Some(0),
        },
        Access::Store { .. } | Access::Fence { .. } => None,
    }
}

/// What the harts did.
///
/// # Errors
///
/// `OutOfMemory` alone.
pub fn deeds(alloc: Global, harts: &[Hart], events: &[Event]) -> Result<Vec<HartDeeds>, OutOfMemory>
    ensures { IfOk result (λ v. map hart_view v.items ≡ deeds harts.now events.now) }
{
    let mut parts = unread_parts(alloc, harts)?;
    for i in 0..events.len() {
        add_number(&mut parts, &events[i])?;
    }
    Ok(parts)
}

/// What the harts did, without the numbers that they read.
fn unread_parts(alloc: Global, harts: &[Hart]) -> Result<Vec<HartDeeds>, OutOfMemory>
    ensures { IfOk result (λ v. map hart_view v.items ≡ deeds harts.now []) }
{
    let mut parts = Vec::new(alloc);
    for number in 0..harts.len() {
        parts.push(unread_part(alloc, &harts[number]))?;
    }
    Ok(parts)
}

/// What a hart did, without the numbers that it read.
fn unread_part(alloc: Global, hart: &Hart) -> HartDeeds
    ensures { (number : ℕ) → hart_view result ≡ part_of number hart.now [] }
{
    HartDeeds {
        steps: hart.done,
        code: code_of(&hart.stop),
        value: value_of(&hart.stop),
        reads: Vec::new(alloc),
    }
}

/// Adds the number that an event shows to those of its hart.
fn add_number(parts: &mut Vec<HartDeeds>, event: &Event) -> Result<(), OutOfMemory>
    ensures { OnOk result (map hart_view parts.new.items
        ≡ with_event 0 (map hart_view parts.old.items) event.now) }
{
    if let Some(number) = number_shown(&event.access) {
        if let Some(part) = parts.get_mut(usize::from(event.hart)) {
            part.reads.push(number)?;
        }
    }
    Ok(())
}

fn code_of(stop: &Option<Stop>) -> u8
    ensures { result ≡ code_of stop.now }
{
    match *stop {
        Some(stop) => stop.code,
        None => 0,
    }
}

/// The value of the exit call.
fn value_of(stop: &Option<Stop>) -> Option<u64>
    ensures { result ≡ value_of stop.now }
{
    match *stop {
        Some(stop) => {
            if stop.code == 1 {
                Some(stop.value)
            } else {
                None
            }
        }
        None => None,
    }
}

/// Whether harts did what is said of them.
pub fn are_said(parts: &[HartDeeds], did: &[HartDeeds]) -> bool
    ensures { result ≡ true ↔ map hart_view parts.now ≡ map hart_view did.now }
{
    if parts.len() != did.len() {
        return false;
    }
    for i in 0..parts.len() {
        if !is_said(&parts[i], &did[i]) {
            return false;
        }
    }
    true
}

/// Whether a hart did what is said of it.
fn is_said(part: &HartDeeds, did: &HartDeeds) -> bool
    ensures { result ≡ true ↔ hart_view part.now ≡ hart_view did.now }
{
    part.steps == did.steps
        && part.code == did.code
        && part.value == did.value
        && part.reads.as_slice() == did.reads.as_slice()
}
