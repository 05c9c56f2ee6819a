//! What a machine says of its rounds, and rounds that are refused.

use crate::harness::{ASKED, on_machine, text_of};
use crate::images::EXIT;
use host_io::RunError;
use machine::{Machine, Open, Settings};
use std::alloc::Global;
use std::sync::Wait;
use std::test::Fail;
use std::thread::Threads;

/// Two harts that may do one instruction in a round: so they make their calls in round 2.
const ONE_BY_ONE: Settings<'static> = Settings {
    plan: b"1\n",
    ..ASKED
};

/// Which round the next one was, how many harts waited then, and how many had stopped.
fn noted<R: Threads + Wait + Sync>(
    rt: &R,
    machine: &mut Machine,
    workers: u32,
) -> Result<(u32, u32, u32), RunError> {
    let note = machine.round(rt, workers, &Open)?;
    Ok((note.round, note.waited, note.stopped))
}

/// The same of three rounds, and whether each hart is behind its first instruction then.
fn three_noted<R: Threads + Wait + Sync>(
    rt: &R,
    machine: &mut Machine,
) -> Result<([(u32, u32, u32); 3], bool), RunError> {
    let notes = [
        noted(rt, machine, 4)?,
        noted(rt, machine, 4)?,
        noted(rt, machine, 4)?,
    ];
    Ok((
        notes,
        machine
            .harts()
            .iter()
            .all(|hart| (hart.pc, hart.done) == (4, 1)),
    ))
}

#[test]
fn rounds_one_by_one(rt: HostRuntime) -> Result<(), Fail> {
    let noted = on_machine(
        rt.alloc(),
        EXIT,
        &ONE_BY_ONE,
        |machine| three_noted(&rt, machine),
    )?;
    // The quota ends both harts in the first round, the call makes both wait in the second, and then nothing is left to do.
    assert_eq!(rt; noted, ([(1, 0, 0), (2, 2, 2), (3, 0, 2)], true));
    Ok(())
}

/// Whether so many workers are refused, for one round and for as many as can be asked for.
fn refuses<R: Threads + Wait + Sync>(rt: &R, machine: &mut Machine, workers: u32) -> bool {
    noted(rt, machine, workers) == Err(RunError::WorkersOutOfRange)
        && machine.run(rt, 4_294_967_295, workers) == Err(RunError::WorkersOutOfRange)
}

/// Whether rounds that are refused after the first leave the report as it was.
fn is_left_by_refusals<R: Threads + Wait + Sync>(
    rt: &R,
    alloc: Global,
    machine: &mut Machine,
) -> Result<bool, RunError> {
    machine.run(rt, 1, 1)?;
    let before = text_of(alloc, machine)?;
    let refused = refuses(rt, machine, 0) && refuses(rt, machine, 17);
    Ok(refused && text_of(alloc, machine)? == before)
}

#[test]
fn refused_rounds(rt: HostRuntime) -> Result<(), Fail> {
    let (alloc, asked) = (rt.alloc(), &ONE_BY_ONE);
    let left = on_machine(
        alloc,
        EXIT,
        asked,
        |machine| is_left_by_refusals(&rt, alloc, machine),
    )?;
    assert!(rt; left);
    Ok(())
}

/// The report of the two harts that exit, after the last round that is counted.
const AFTER_ALL_ROUNDS: &[u8] = b"rounds 4294967295\n\
    hart 0 pc 0000000000000004 done 1 exit 0000000000000000\n\
    x11 0000000000000002\n\
    hart 1 pc 0000000000000004 done 1 exit 0000000000000001\n\
    x10 0000000000000001\n\
    x11 0000000000000002\n\
    memory 1\n\
    00000000 93080000730000000000000000000000\n\
    output 0\n\
    trace 0\n\
    end\n";

/// Whether the rounds that fit are done, where one more is asked for.
fn does_what_fits<R: Threads + Wait + Sync>(
    rt: &R,
    alloc: Global,
    machine: &mut Machine,
) -> Result<bool, RunError> {
    machine.run(rt, 1, 1)?;
    // one round was done before
    let ends = machine.run(rt, 4_294_967_295, 16) == Err(RunError::RoundsExhausted);
    Ok(ends && text_of(alloc, machine)?.as_slice() == AFTER_ALL_ROUNDS)
}

/// Whether no round is done after them, and to ask for none is no error.
fn does_no_more<R: Threads + Wait + Sync>(
    rt: &R,
    alloc: Global,
    machine: &mut Machine,
) -> Result<bool, RunError> {
    let ends = noted(rt, machine, 1) == Err(RunError::RoundsExhausted)
        && machine.run(rt, 1, 1) == Err(RunError::RoundsExhausted);
    let is_left = text_of(alloc, machine)?.as_slice() == AFTER_ALL_ROUNDS;
    Ok(ends && is_left && machine.run(rt, 0, 1) == Ok(()))
}

/// Whether both are so.
fn does_just_what_fits<R: Threads + Wait + Sync>(
    rt: &R,
    alloc: Global,
    machine: &mut Machine,
) -> Result<bool, RunError> {
    Ok(does_what_fits(rt, alloc, machine)? && does_no_more(rt, alloc, machine)?)
}

#[test]
fn rounds_that_fit_are_done(rt: HostRuntime) -> Result<(), Fail> {
    let (alloc, asked) = (rt.alloc(), &ONE_BY_ONE);
    let done = on_machine(
        alloc,
        EXIT,
        asked,
        |machine| does_just_what_fits(&rt, alloc, machine),
    )?;
    assert!(rt; done && RunError::RoundsExhausted.number() == 54);
    Ok(())
}
