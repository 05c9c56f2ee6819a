//! Which fences of a guest can be left out.

ghost use Rattle.std.specs.Prelude.{◌≡◌, ◌↔◌, [], All, Contains, IfOk, IfSome, IsTrue, false, is_some, map, true};
ghost use Rattle.ending_judge.specs.JudgedEndings.{ending_in, stop_of};
ghost use Rattle.endings_finder.specs.AllEndings.{AreAllowed, HasAll, guest_from, scripted_image};
ghost use Rattle.endings_finder.specs.Checked.{AreNews};
ghost use Rattle.endings_finder.specs.Fences.{IsNeedOf, IsToldFence};
ghost use Rattle.hart_ends.specs.Told.{bytes_told};

use crate::guest::Guest;
use crate::others::{Reach, others_than, same_bytes};
use crate::program::Program;
use crate::proposing::proposals_of;
use crate::searching::EndingsObserver;
use elf_loader::Image;
use endings_table::{FenceNeed, FoundEnding, HartEnd, Need, Others};
use hart_step::Stop;
use machine::load;
use pages::OutOfMemory;
use std::thread::Threads;

/// Which of some fences a guest needs, if that is asked of one that has no other endings than these. Where no fence stands, nothing is told.
///
/// # Errors
///
/// `OutOfMemory` alone.
pub(crate) fn needs_of<O: EndingsObserver, R: Threads + Sync>(
    rt: &R,
    guest: &Guest<'_>,
    reach: Reach,
    endings: &[FoundEnding],
    asked: bool,
    fences: &[u64],
    observer: &mut O,
) -> Result<Vec<FenceNeed>, OutOfMemory>
    requires loaded { guest.now.program.now ≡ scripted_image guest.now.scripted }
    requires allowed { AreAllowed (guest_from guest.now.program.now guest.now.scripted)
        guest.now.ranges.now endings.now }
    requires all { IsTrue asked → HasAll (guest_from guest.now.program.now guest.now.scripted)
        guest.now.ranges.now reach.steps endings.now }
    ensures unasked { asked ≡ false → IfOk result (λ ns. ns.items ≡ []) }
    ensures told { IfOk result (λ ns. All (IsToldFence reach.steps guest.now.program.now
        guest.now.scripted.input.now guest.now.scripted.harts guest.now.ranges.now) ns.items) }
{
    let mut needs = Vec::new(guest.alloc);
    if !asked {
        return Ok(needs);
    }
    for pc in fences {
        if guest.program.has_fence(*pc) {
            let image = image_again(guest)?;
            let program = Program::without(guest.alloc, image, *pc)?;
            let need = need_without(rt, guest, &program, reach, endings, observer)?;
            needs.push(FenceNeed { pc: *pc, need })?;
        }
    }
    Ok(needs)
}

/// The image of a guest, loaded once more.
fn image_again(guest: &Guest<'_>) -> Result<Image, OutOfMemory>
    ensures { IfOk result (λ i. i ≡ scripted_image guest.now.scripted) }
{
    let scripted = &guest.scripted;
    match load(guest.alloc, scripted.format, scripted.image, scripted.pages) {
        Ok(image) => Ok(image),
        // It was loaded before, so nothing but memory is wanting.
        Err(_) => Err(OutOfMemory),
    }
}

/// Whether a guest with no other endings than these needs the fence that a program is without.
fn need_without<O: EndingsObserver, R: Threads + Sync>(
    rt: &R,
    guest: &Guest<'_>,
    program: &Program,
    reach: Reach,
    endings: &[FoundEnding],
    observer: &mut O,
) -> Result<Need, OutOfMemory>
    requires allowed { AreAllowed (guest_from guest.now.program.now guest.now.scripted)
        guest.now.ranges.now endings.now }
    requires all { HasAll (guest_from guest.now.program.now guest.now.scripted)
        guest.now.ranges.now reach.steps endings.now }
    ensures { IfOk result (IsNeedOf reach.steps
        (guest_from guest.now.program.now guest.now.scripted)
        (guest_from program.now guest.now.scripted) guest.now.ranges.now) }
{
    let fenceless = Guest {
        alloc: guest.alloc,
        program,
        scripted: guest.scripted,
        ranges: guest.ranges,
        keeps: false,
    };
    let proposals = proposals_of(&fenceless, reach, observer)?;
    if let Some(need) = news_in(&proposals.confirmed.endings, endings) {
        return Ok(need);
    }
    let (why, owned) = (proposals.why, &proposals.owned);
    match others_than(rt, &fenceless, reach, endings, why, owned, observer)? {
        Others::Absent => Ok(Need::Unneeded),
        Others::Possible(why) => Ok(Need::Unknown(why)),
    }
}

/// What some endings show of the need of a fence, where one of them isn't among others. One in which a hart waits for ever shows less.
fn news_in(endings: &[FoundEnding], others: &[FoundEnding]) -> Option<Need>
    ensures { IfSome result (AreNews endings.now others.now) }
{
    let mut waits = None;
    for ending in endings {
        if is_new(ending, others) {
            if has_stopped(&ending.ends) {
                return Some(Need::Needed);
            }
            waits = Some(Need::Waits);
        }
    }
    waits
}

/// Whether all harts stop.
fn has_stopped(ends: &[HartEnd]) -> bool
    ensures { IsTrue result → All (λ s. is_some s ≡ true) (map stop_of ends.now) }
{
    for end in ends {
        if stop_of(*end).is_none() {
            return false;
        }
    }
    true
}

/// Why a hart stops, if it does.
fn stop_of(end: HartEnd) -> Option<Stop>
    ensures { result ≡ stop_of end }
{
    match end {
        HartEnd::Stopped(stop) => Some(stop),
        HartEnd::Waits(_) => None,
    }
}

/// Whether an ending is another than each of some.
fn is_new(ending: &FoundEnding, others: &[FoundEnding]) -> bool
    ensures { IsTrue result → Contains (map ending_in others.now) (ending_in ending.now) → ⊥ }
{
    for other in others {
        if !is_other(ending, other) {
            return false;
        }
    }
    true
}

/// Whether an ending is another one.
fn is_other(ending: &FoundEnding, other: &FoundEnding) -> bool
    ensures { IsTrue result → ending_in ending.now ≡ ending_in other.now → ⊥ }
{
    end_otherwise(&ending.ends, &other.ends)
        || has_other_bytes(&ending.outputs, &other.outputs)
        || has_other_bytes(&ending.seen, &other.seen)
}

/// Whether a hart stops otherwise.
fn end_otherwise(ends: &[HartEnd], others: &[HartEnd]) -> bool
    ensures { IsTrue result → map stop_of ends.now ≡ map stop_of others.now → ⊥ }
{
    if ends.len() != others.len() {
        return false;
    }
    for index in 0..ends.len() {
        if !stops_alike(ends[index], others[index]) {
            return true;
        }
    }
    false
}

/// Whether a hart stops as another one does, or neither does.
fn stops_alike(end: HartEnd, other: HartEnd) -> bool
    ensures { IsTrue result ↔ (stop_of end ≡ stop_of other) }
{
    stop_of(end) == stop_of(other)
}

/// Whether bytes at one place are others.
fn has_other_bytes(bytes: &[Vec<u8>], others: &[Vec<u8>]) -> bool
    ensures { IsTrue result → bytes_told bytes.now ≡ bytes_told others.now → ⊥ }
{
    if bytes.len() != others.len() {
        return false;
    }
    for index in 0..bytes.len() {
        if !same_bytes(&bytes[index], &others[index]) {
            return true;
        }
    }
    false
}
