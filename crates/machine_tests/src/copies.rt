//! Copies of machines, and machines that share their pages.

use crate::harness::{ASKED, flat, on_machine};
use crate::images::{RESERVED, RESERVED_PLAN};
use host_io::RunError;
use machine::{Machine, Settings, UntracedMachine, prepare_untraced};
use std::alloc::Global;
use std::sync::Wait;
use std::test::Fail;
use std::thread::Threads;

const RESERVING: Settings<'static> = Settings {
    plan: RESERVED_PLAN,
    ..ASKED
};

/// The rounds and the events of a machine and of its copy, after one more round of the copy.
fn counts_beside<R: Threads + Wait + Sync>(
    rt: &R,
    machine: &UntracedMachine,
    copy: &mut UntracedMachine,
) -> Result<[(u32, u64); 2], RunError> {
    copy.run(rt, 1, 1)?;
    Ok([
        (machine.rounds(), machine.events()),
        (copy.rounds(), copy.events()),
    ])
}

/// The same, of a machine that is copied after one round.
fn counts_of_both<R: Threads + Wait + Sync>(
    rt: &R,
    machine: &mut UntracedMachine,
) -> Result<[(u32, u64); 2], RunError> {
    machine.run(rt, 1, 1)?;
    let mut copy = machine.copy()?;
    counts_beside(rt, machine, &mut copy)
}

/// The same, of a machine that has done nothing.
fn counts_of_a_copy<R: Threads + Wait + Sync>(
    rt: &R,
    alloc: Global,
) -> Result<[(u32, u64); 2], RunError> {
    let mut machine = prepare_untraced(alloc, &flat(alloc, RESERVED)?, &[], &RESERVING)?;
    counts_of_both(rt, &mut machine)
}

#[test]
fn a_copy_goes_on_by_itself(rt: HostRuntime) -> Result<(), Fail> {
    // The store and the SC of round 2 are events of the copy alone.
    assert_eq!(rt; counts_of_a_copy(&rt, rt.alloc())?, [(1, 1), (2, 3)]);
    Ok(())
}

/// Does round 1, and gives a machine that shares the pages and stays there.
fn share_after_round_1<R: Threads + Wait + Sync>(
    rt: &R,
    machine: &mut Machine,
) -> Result<Machine, RunError> {
    machine.run(rt, 1, 1)?;
    machine.share()
}

/// A byte, and the trace's length.
type Seen = (Option<u8>, usize);

/// What a machine shows of the store.
fn seen(machine: &Machine) -> Seen {
    (machine.byte(0x101), machine.trace().len())
}

/// The same of a machine after round 2, and of the one that was kept.
fn both_seen<R: Threads + Wait + Sync>(
    rt: &R,
    machine: &mut Machine,
    earlier: &Machine,
) -> Result<[Seen; 2], RunError> {
    machine.run(rt, 1, 1)?;
    Ok([seen(machine), seen(earlier)])
}

/// The same, of a machine that has done nothing.
fn goes_on_alone<R: Threads + Wait + Sync>(
    rt: &R,
    machine: &mut Machine,
) -> Result<[Seen; 2], RunError> {
    let earlier = share_after_round_1(rt, machine)?;
    both_seen(rt, machine, &earlier)
}

#[test]
fn machines_that_share_their_pages_go_on_by_themselves(rt: HostRuntime) -> Result<(), Fail> {
    let trial = |machine: &mut Machine| goes_on_alone(&rt, machine);
    // In round 2 hart 1 stores 0x100 at 0x100.
    let wanted = [(Some(1), 3), (Some(0), 1)];
    assert_eq!(rt;
        on_machine(rt.alloc(), RESERVED, &RESERVING, trial)?,
        wanted
    );
    Ok(())
}

/// What a copy that keeps no trace shows: its rounds, its events and a byte.
fn seen_of_copy(bare: &UntracedMachine) -> (u32, u64, Option<u8>) {
    (bare.rounds(), bare.events(), bare.byte(0x101))
}

/// Whether round 2 of a machine that was kept after round 1 leaves its copy as it is.
fn leaves<R: Threads + Wait + Sync>(
    rt: &R,
    earlier: &mut Machine,
    bare: &UntracedMachine,
) -> Result<bool, RunError> {
    let before = seen_of_copy(bare);
    earlier.run(rt, 1, 1)?;
    let kept = (1, 1, Some(0));
    Ok(before == kept && seen_of_copy(bare) == kept && seen(earlier) == (Some(1), 3))
}

/// The same, of a machine that is copied once the one with which it shares has done round 2.
fn leaves_its_copy<R: Threads + Wait + Sync>(
    rt: &R,
    machine: &mut Machine,
    earlier: &mut Machine,
) -> Result<bool, RunError> {
    machine.run(rt, 1, 1)?;
    let bare = earlier.copy_untraced()?;
    leaves(rt, earlier, &bare)
}

/// The same, of a machine that shares with this one, which has done nothing.
fn sharer_leaves_its_copy<R: Threads + Wait + Sync>(
    rt: &R,
    machine: &mut Machine,
) -> Result<bool, RunError> {
    let mut earlier = share_after_round_1(rt, machine)?;
    leaves_its_copy(rt, machine, &mut earlier)
}

#[test]
fn a_machine_that_shares_goes_on_beside_its_copy(rt: HostRuntime) -> Result<(), Fail> {
    let trial = |machine: &mut Machine| sharer_leaves_its_copy(&rt, machine);
    assert!(rt; on_machine(rt.alloc(), RESERVED, &RESERVING, trial)?);
    Ok(())
}
