//! A map of a hart's code.

use crate::coming_access::{access_over, knows_address};
use crate::early_bytes::{bytes_at, find, is_among};
use crate::early_point::{EarlyBytes, EarlyPoint, EarlySets, LateKinds, LoadedBytes};
use crate::flow::{Targets, is_exit, number_put, targets_of};
use crate::leading::{CodeStep, loaded_by};
use crate::shutting::{is_conditional, is_shut, with_store};
use hart_moves::instruction_at;
use hart_states::answered;
use hart_step::Hart;
use own_moves::{OwnDoubleword, is_own};
use pages::{OutOfMemory, Pages};
use rv64_decode::{Instr, Reg};
use std::alloc::Global;

/// So many times at most is gone through the code. A map that isn't done by then isn't right.
const TURNS: usize = 4096;

/// All kinds of what is late, but for nothing.
const LATE_KINDS: [LateKinds; 6] = [
    LateKinds {
        loads: true,
        stores: false,
        owes: false,
    },
    LateKinds {
        loads: false,
        stores: true,
        owes: false,
    },
    LateKinds {
        loads: true,
        stores: true,
        owes: false,
    },
    LateKinds {
        loads: true,
        stores: false,
        owes: true,
    },
    LateKinds {
        loads: false,
        stores: true,
        owes: true,
    },
    LateKinds {
        loads: true,
        stores: true,
        owes: true,
    },
];

/// A map of the code that a hart comes to from where it begins. Nothing is said of it: `is_right` judges it.
///
/// # Errors
///
/// `OutOfMemory` alone.
pub fn map_code(
    alloc: Global,
    pages: &Pages,
    owned: &[OwnDoubleword],
    hart: u8,
    start: &Hart,
) -> Result<Vec<EarlyPoint>, OutOfMemory> {
    let mut points = Vec::new(alloc);
    let mut constants = [None; 32];
    for register in 0..32 {
        constants[register] = Some(start.x[register]);
    }
    points.push(new_point(alloc, start.pc, constants))?;
    for _ in 0..TURNS {
        if !spread(alloc, pages, &mut points)? {
            break;
        }
    }
    for _ in 0..TURNS {
        if !gather(alloc, pages, owned, hart, &mut points)? {
            break;
        }
    }
    Ok(points)
}

/// A point from which nothing is loaded early.
fn new_point(alloc: Global, pc: u64, constants: [Option<u64>; 32]) -> EarlyPoint {
    EarlyPoint {
        pc,
        constants,
        paid: no_sets(alloc),
        owing: no_sets(alloc),
    }
}

fn no_sets(alloc: Global) -> EarlySets {
    EarlySets {
        after_load: EarlyBytes::Among(Vec::new(alloc)),
        after_store: EarlyBytes::Among(Vec::new(alloc)),
        after_both: EarlyBytes::Among(Vec::new(alloc)),
    }
}

// ---- constants

/// Takes the constants of each point to those behind it, and says whether anything changed.
fn spread(alloc: Global, pages: &Pages, points: &mut Vec<EarlyPoint>) -> Result<bool, OutOfMemory> {
    let mut changed = false;
    for index in 0..points.len() {
        let (pc, constants) = match points.get(index) {
            Some(point) => (point.pc, point.constants),
            None => return Ok(false),
        };
        if let Some(i) = instruction_at(pages, pc) {
            changed = spread_from(alloc, points, pc, &constants, &i)? || changed;
        }
    }
    Ok(changed)
}

/// Takes the constants at an instruction to where it leads.
fn spread_from(
    alloc: Global,
    points: &mut Vec<EarlyPoint>,
    pc: u64,
    constants: &[Option<u64>; 32],
    i: &Instr,
) -> Result<bool, OutOfMemory> {
    if is_exit(constants, i) {
        return Ok(false);
    }
    let behind = constants_behind(*constants, answered(i), number_put(constants, pc, i));
    match targets_of(constants, pc, i) {
        Targets::One(next) => meet(alloc, points, next, behind),
        Targets::Two(next, other) => {
            let first = meet(alloc, points, next, behind)?;
            Ok(meet(alloc, points, other, behind)? || first)
        }
        Targets::Anywhere => Ok(false),
    }
}

/// Constants behind an instruction.
fn constants_behind(
    mut constants: [Option<u64>; 32],
    register: Reg,
    value: Option<u64>,
) -> [Option<u64>; 32] {
    constants[register.index()] = value;
    constants
}

/// Keeps of a point's constants those that hold by another way to it, too.
fn meet(
    alloc: Global,
    points: &mut Vec<EarlyPoint>,
    pc: u64,
    constants: [Option<u64>; 32],
) -> Result<bool, OutOfMemory> {
    let point = match find(points, pc) {
        Some(index) => points.get_mut(index),
        None => None,
    };
    match point {
        Some(point) => Ok(narrow(&mut point.constants, &constants)),
        None => {
            points.push(new_point(alloc, pc, constants))?;
            Ok(true)
        }
    }
}

/// Drops each constant that isn't the same in others.
fn narrow(kept: &mut [Option<u64>; 32], others: &[Option<u64>; 32]) -> bool {
    let mut changed = false;
    for register in 0..32 {
        if kept[register].is_some() && kept[register] != others[register] {
            kept[register] = None;
            changed = true;
        }
    }
    changed
}

// ---- bytes

/// Adds to what may be loaded early at each point, and says whether anything changed.
fn gather(
    alloc: Global,
    pages: &Pages,
    owned: &[OwnDoubleword],
    hart: u8,
    points: &mut Vec<EarlyPoint>,
) -> Result<bool, OutOfMemory> {
    let mut changed = false;
    for index in 0..points.len() {
        for late in LATE_KINDS {
            let bytes = match points.get(index) {
                Some(point) => early_at(alloc, pages, owned, hart, points, point, late)?,
                None => return Ok(false),
            };
            if let Some(point) = points.get_mut(index) {
                changed = keep(point, late, bytes) || changed;
            }
        }
    }
    Ok(changed)
}

/// Keeps what may be loaded early at a point, if that is more than before.
fn keep(point: &mut EarlyPoint, late: LateKinds, bytes: EarlyBytes) -> bool {
    let sets = if late.owes {
        &mut point.owing
    } else {
        &mut point.paid
    };
    let place = match (late.loads, late.stores) {
        (true, true) => &mut sets.after_both,
        (true, false) => &mut sets.after_load,
        _ => &mut sets.after_store,
    };
    let grows = size_of_set(place) < size_of_set(&bytes);
    *place = bytes;
    grows
}

/// How much a set has.
fn size_of_set(set: &EarlyBytes) -> usize {
    match set {
        EarlyBytes::All => usize::MAX,
        EarlyBytes::Among(loads) => loads.len(),
    }
}

/// What may be loaded early at a point, by what is told behind it so far.
fn early_at(
    alloc: Global,
    pages: &Pages,
    owned: &[OwnDoubleword],
    hart: u8,
    points: &[EarlyPoint],
    point: &EarlyPoint,
    late: LateKinds,
) -> Result<EarlyBytes, OutOfMemory> {
    let none = EarlyBytes::Among(Vec::new(alloc));
    let i = match instruction_at(pages, point.pc) {
        Some(i) if !is_exit(&point.constants, &i) => i,
        _ => return Ok(none),
    };
    let step = CodeStep {
        access: access_over(&point.constants, point.pc, &i),
        known: knows_address(&point.constants, &i),
        targets: targets_of(&point.constants, point.pc, &i),
    };
    let own = step.known && is_own(owned, hart, step.access.address());
    let read = match loaded_by(&step.access) {
        Some(_) if own => none,
        Some(_) if !step.known => EarlyBytes::All,
        Some(bytes) => with_load(none, bytes)?,
        None => none,
    };
    if !is_conditional(&step.access) && is_shut(late, &step.access) {
        return Ok(read);
    }
    let on = with_targets(read, points, late, step.targets)?;
    if late.owes || !step.access.stores() {
        return Ok(on);
    }
    with_targets(on, points, with_store(late, &step.access), step.targets)
}

/// A set, and what may be loaded early where an instruction leads.
fn with_targets(
    set: EarlyBytes,
    points: &[EarlyPoint],
    late: LateKinds,
    targets: Targets,
) -> Result<EarlyBytes, OutOfMemory> {
    match targets {
        Targets::One(next) => with_point(set, points, late, next),
        Targets::Two(next, other) => {
            let first = with_point(set, points, late, next)?;
            with_point(first, points, late, other)
        }
        Targets::Anywhere => Ok(EarlyBytes::All),
    }
}

/// A set, and what may be loaded early from an address on.
fn with_point(
    set: EarlyBytes,
    points: &[EarlyPoint],
    late: LateKinds,
    pc: u64,
) -> Result<EarlyBytes, OutOfMemory> {
    match bytes_at(points, late, pc) {
        Some(EarlyBytes::Among(loads)) => with_loads(set, loads),
        _ => Ok(EarlyBytes::All),
    }
}

/// A set with some loads more.
fn with_loads(set: EarlyBytes, loads: &[LoadedBytes]) -> Result<EarlyBytes, OutOfMemory> {
    let mut all = set;
    for bytes in loads {
        all = with_load(all, *bytes)?;
    }
    Ok(all)
}

/// A set with one load more, unless it has it.
fn with_load(set: EarlyBytes, bytes: LoadedBytes) -> Result<EarlyBytes, OutOfMemory> {
    match set {
        EarlyBytes::All => Ok(EarlyBytes::All),
        EarlyBytes::Among(mut loads) => {
            if !is_among(&loads, bytes) {
                loads.push(bytes)?;
            }
            Ok(EarlyBytes::Among(loads))
        }
    }
}
