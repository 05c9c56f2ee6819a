//! What a hart has done of its part of the parallel phase: its stores, and whether it waits for its serial turn then.

ghost use Rattle.std.specs.Prelude.{◌≡◌, ◌++◌, ◌+◌, ◌<◌, ◌^◌, IfOk, OnOk, length, slice_get, slice_index};
ghost use Rattle.round_planner.specs.Quotas.{quotas_of};
ghost use Rattle.round_schedule.specs.Schedule.{hart_round_of};
ghost use Rattle.hart_step.specs.Words.{words_of};
ghost use Rattle.timelines.specs.OwnParts.{allowed, store_of, stores_among, stores_by, stores_in, waits_by, waits_in};

use hart_step::{Buffered, Hart, hart_round};
use machine::UntracedMachine;
use pages::{OutOfMemory, Range, Store};
use past_harts::{Place, code_of_run};
use round_schedule::{Access, Phase};
use std::alloc::Global;

/// What a hart has done of its part of the parallel phase.
#[derive(Drop)]
pub struct OwnPart {
    /// Its stores that are not committed, in the order in which it did them.
    pub stores: Vec<Store>,
    /// Whether it waits for its serial turn: its part is over before its quota, and the turn has not begun.
    pub waits: bool,
}

/// A walk over a part of at most so many instructions.
#[derive(Drop)]
struct PartWalk {
    /// What the hart read and wrote, in the order of its instructions.
    accesses: Vec<Access>,
    /// Whether the part ended before an instruction of the hart's serial turn.
    waits: bool,
}

/// What hart `number` has done of its part of the parallel phase at a place of the next round of a run; nothing where there is no such
/// hart. Of the run there is the machine without its trace, and its code.
///
/// # Errors
///
/// `OutOfMemory` where memory is refused, or where this isn't the run's code.
pub fn part_at(
    machine: &UntracedMachine,
    code: &[Range],
    place: &Place,
    number: u32,
) -> Result<OwnPart, OutOfMemory>
    requires rounds { machine.now.rounds + 1 < 2 ^ 32 }
    ensures stores { IfOk result (λ p. p.stores.items ≡ stores_by (record {
      harts = machine.now.harts;
      bytes = machine.now.bytes;
      code = code.now;
      quotas = quotas_of machine.now.plan machine.now.rounds;
    }) place.now number (slice_get machine.now.harts number)) }
    ensures waits { IfOk result (λ p. p.waits ≡ waits_by (record {
      harts = machine.now.harts;
      bytes = machine.now.bytes;
      code = code.now;
      quotas = quotas_of machine.now.plan machine.now.rounds;
    }) place.now number (slice_get machine.now.harts number)) }
{
    match machine.harts().get(number as usize) {
        None => Ok(OwnPart {
            stores: Vec::new(machine.pages().allocator()),
            waits: false,
        }),
        Some(hart) => part_of_hart(machine, code, place, number, *hart),
    }
}

/// The same of a hart that there is.
fn part_of_hart(
    machine: &UntracedMachine,
    code: &[Range],
    place: &Place,
    number: u32,
    hart: Hart,
) -> Result<OwnPart, OutOfMemory>
    requires rounds { machine.now.rounds + 1 < 2 ^ 32 }
    requires hart { number < length machine.now.harts }
    ensures stores { IfOk result (λ p. p.stores.items ≡ stores_in place.now.phase (record {
      harts = machine.now.harts;
      bytes = machine.now.bytes;
      code = code.now;
      quotas = quotas_of machine.now.plan machine.now.rounds;
    }) place.now number hart) }
    ensures waits { IfOk result (λ p. p.waits ≡ waits_in place.now.phase (record {
      harts = machine.now.harts;
      bytes = machine.now.bytes;
      code = code.now;
      quotas = quotas_of machine.now.plan machine.now.rounds;
    }) place.now number hart) }
{
    let quota = quota_of(machine, number);
    match place.phase {
        Phase::Parallel => {
            let done = allowed(place, number, quota);
            let further = done.saturating_add(1).min(quota);
            part_after(machine, code, hart, done, further)
        }
        Phase::Serial => {
            let stores = Vec::new(machine.pages().allocator());
            if number <= place.hart {
                return Ok(OwnPart {
                    stores,
                    waits: false,
                });
            }
            let walk = walked(machine, code, hart, quota)?;
            Ok(OwnPart {
                stores,
                waits: walk.waits,
            })
        }
    }
}

/// A hart's stores in its part of at most so many instructions, and whether it waits within so many, which are no fewer.
fn part_after(
    machine: &UntracedMachine,
    code: &[Range],
    hart: Hart,
    done: u32,
    further: u32,
) -> Result<OwnPart, OutOfMemory>
    ensures stores { IfOk result (λ p. p.stores.items ≡ stores_among
        (hart_round_of (words_of code.now) machine.now.bytes done hart).last.accesses) }
    ensures waits { IfOk result (λ p. p.waits ≡
        (hart_round_of (words_of code.now) machine.now.bytes further hart).waits) }
{
    let alloc = machine.pages().allocator();
    let walk = walked(machine, code, hart, further)?;
    let waits = walk.waits;
    let stores = if done == further {
        stores_among(alloc, walk.accesses.as_slice())?
    } else {
        stores_among(
            alloc,
            walked(machine, code, hart, done)?.accesses.as_slice(),
        )?
    };
    Ok(OwnPart { stores, waits })
}

/// How many instructions a hart may do in its part of the next round.
pub(crate) fn quota_of(machine: &UntracedMachine, number: u32) -> u32
    requires rounds { machine.now.rounds + 1 < 2 ^ 32 }
    requires hart { number < length machine.now.harts }
    ensures { result ≡ slice_index (quotas_of machine.now.plan machine.now.rounds) number }
{
    // As many as the machine has.
    let _harts = machine.harts();
    machine.plan().quota(machine.rounds() + 1, number)
}

/// How many instructions of its quota hart `number` may have done at a place of the parallel phase.
fn allowed(place: &Place, number: u32, quota: u32) -> u32
    ensures { result ≡ allowed place.now number quota }
{
    if number < place.hart {
        quota
    } else if number == place.hart {
        place.count.min(u64::from(quota)) as u32
    } else {
        0
    }
}

/// A hart's part of the next round of at most so many instructions.
fn walked(
    machine: &UntracedMachine,
    code: &[Range],
    hart: Hart,
    most: u32,
) -> Result<PartWalk, OutOfMemory>
    ensures accesses { IfOk result (λ w. w.accesses.items ≡
        (hart_round_of (words_of code.now) machine.now.bytes most hart).last.accesses) }
    ensures waits { IfOk result (λ w. w.waits ≡
        (hart_round_of (words_of code.now) machine.now.bytes most hart).waits) }
{
    let pages = machine.pages();
    let decoded_code = code_of_run(pages, code, words_for(most))?;
    let mut turned = hart;
    let mut view = Buffered::new(pages.allocator(), pages);
    let mut accesses = Vec::new(pages.allocator());
    let waits = hart_round(&mut turned, &mut view, &decoded_code, most, &mut accesses)?;
    Ok(PartWalk { accesses, waits })
}

/// How many words are decoded for a walk over so many instructions: all of them, and none for a single one.
fn words_for(most: u32) -> u64 {
    if most > 1 { u64::MAX } else { 0 }
}

/// The stores among some accesses.
fn stores_among(alloc: Global, accesses: &[Access]) -> Result<Vec<Store>, OutOfMemory>
    ensures { IfOk result (λ v. v.items ≡ stores_among accesses.now) }
{
    let mut stores = Vec::new(alloc);
    for access in accesses {
        add_store(&mut stores, access)?;
    }
    Ok(stores)
}

/// Adds an access, where it is a store.
fn add_store(stores: &mut Vec<Store>, access: &Access) -> Result<(), OutOfMemory>
    ensures { OnOk result (stores.new.items ≡ stores.old.items ++ store_of access.now) }
{
    match *access {
        Access::Store {
            width,
            address,
            written,
            ..
        } => {
            stores.push(Store {
                address,
                width,
                value: written,
            })?;
            Ok(())
        }
        _ => Ok(()),
    }
}
