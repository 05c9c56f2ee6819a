//! The pcs of events in the parts of the parallel phase: each part that has some is walked over once.

ghost use Rattle.std.specs.Prelude.{◌≡◌, ◌≤◌, ◌<◌, ◌+◌, ◌^◌, ◌++◌, ◌∷◌, [], All, IfOk, OnOk, None, Some, length, map, slice_get, take, true};
ghost use Rattle.hart_step.specs.DecodedCode.{Shows};
ghost use Rattle.run_events.specs.Parts.{is_of_part, pc_in_parts};

use crate::stretches::{count_of_part, events_from};
use crate::turns::done_by;
use hart_step::{Buffered, DecodedCode, Hart};
use machine::UntracedMachine;
use moments::{add_pcs_in_part, decoded};
use pages::OutOfMemory;
use round_schedule::{Event, Phase};

/// For each of these events of the next round the pc of its instruction, where it is one of the parallel phase and its hart does it there.
/// Where the events are in the order of the trace, each part is walked over once at most.
pub(crate) fn pcs_in_parts(
    machine: &UntracedMachine,
    events: &[Event],
) -> Result<Vec<Option<u64>>, OutOfMemory>
    requires { machine.now.rounds + 1 < 2 ^ 32 }
    ensures { IfOk result (λ v. v.items ≡ map (pc_in_parts machine.now) events.now) }
{
    let pages = machine.pages();
    let code = decoded(pages, most_walked(machine, events))?;
    let mut pcs = Vec::new(pages.allocator());
    let mut done = 0;
    while done < events.len() {
        done += add_first_pcs(machine, &code, events_from(events, done), &mut pcs)?;
    }
    Ok(pcs)
}

/// About how many instructions are walked over.
fn most_walked(machine: &UntracedMachine, events: &[Event]) -> u64 {
    let mut most: u64 = 0;
    let mut last: u64 = 0;
    let mut hart: u8 = 0;
    for event in events {
        if event.hart != hart {
            most = most.saturating_add(last);
            hart = event.hart;
        }
        last = event
            .access
            .place()
            .saturating_sub(done_by(machine, u32::from(event.hart)));
    }
    most.saturating_add(last)
}

/// Adds the pcs of the first of these events, in one walk over a part at most, and answers of how many.
fn add_first_pcs(
    machine: &UntracedMachine,
    code: &DecodedCode,
    events: &[Event],
    pcs: &mut Vec<Option<u64>>,
) -> Result<usize, OutOfMemory>
    requires rounds { machine.now.rounds + 1 < 2 ^ 32 }
    requires shows { Shows (record { bytes = machine.now.bytes; code = machine.now.code })
        code.now.first code.now.instructions }
    requires some { 1 ≤ length events.now }
    ensures some { IfOk result (λ n. 1 ≤ n) }
    ensures few { IfOk result (λ n. n ≤ length events.now) }
    ensures pcs { IfOk result (λ n. pcs.new.items ≡
        pcs.old.items ++ map (pc_in_parts machine.now) (take n events.now)) }
{
    let first = events[0];
    match first.phase {
        Phase::Serial => add_no_pc(pcs),
        Phase::Parallel => match machine.harts().get(usize::from(first.hart)) {
            None => add_no_pc(pcs),
            Some(hart) => {
                let count = count_of_part(events, first.hart);
                add_in_walk(machine, code, first.hart, *hart, &events[..count], pcs)
            }
        },
    }
}

/// Adds that one event has no pc.
fn add_no_pc(pcs: &mut Vec<Option<u64>>) -> Result<usize, OutOfMemory>
    ensures one { IfOk result (λ n. n ≡ 1) }
    ensures pcs { OnOk result (pcs.new.items ≡ pcs.old.items ++ None ∷ []) }
{
    pcs.push(None)?;
    Ok(1)
}

/// The same of events of one hart's part, which are all the events.
fn add_in_walk(
    machine: &UntracedMachine,
    code: &DecodedCode,
    number: u8,
    hart: Hart,
    events: &[Event],
    pcs: &mut Vec<Option<u64>>,
) -> Result<usize, OutOfMemory>
    requires rounds { machine.now.rounds + 1 < 2 ^ 32 }
    requires shows { Shows (record { bytes = machine.now.bytes; code = machine.now.code })
        code.now.first code.now.instructions }
    requires some { 1 ≤ length events.now }
    requires hart { slice_get machine.now.harts number ≡ Some hart }
    requires part { All (λ e. is_of_part number e ≡ true) events.now }
    ensures some { IfOk result (λ n. 1 ≤ n) }
    ensures few { IfOk result (λ n. n ≤ length events.now) }
    ensures pcs { IfOk result (λ n. pcs.new.items ≡
        pcs.old.items ++ map (pc_in_parts machine.now) (take n events.now)) }
{
    // As many as the machine has.
    let _harts = machine.harts();
    let quota = machine
        .plan()
        .quota(machine.rounds() + 1, u32::from(number));
    let pages = machine.pages();
    let mut walked = hart;
    let mut view = Buffered::new(pages.allocator(), pages);
    add_pcs_in_part(&mut walked, &mut view, code, quota, events, pcs)
}
