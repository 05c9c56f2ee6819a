//! The loads that a hart can come to with no fence between that keeps loads in order.
use crate::control_flow::{Next, next_of, orders_loads};
use crate::guest_code::GuestCode;
use pages::OutOfMemory;
use rv64_decode::{Atomic, Instr};
use std::alloc::Global;
use std::collections::{BTreeMap, BTreeSet};

/// Which loads can be done behind an instruction before what stands in front of it.
#[derive(Drop)]
pub enum EarlyLoads {
    /// Any: an indirect jump can be come to.
    Any,
    /// Those at these addresses.
    At(Vec<u64>),
}

impl EarlyLoads {
    /// Whether there is none.
    pub fn is_none(&self) -> bool {
        match self {
            EarlyLoads::Any => false,
            EarlyLoads::At(pcs) => pcs.is_empty(),
        }
    }
}

/// Those behind each address that was asked for.
#[derive(Drop)]
pub struct KnownEarlyLoads {
    by_pc: BTreeMap<u64, EarlyLoads>,
}

/// A walk over the words of code.
#[derive(Drop)]
struct WordWalk {
    /// The words to look at.
    todo: Vec<u64>,
    /// Those that were looked at.
    met: BTreeSet<u64>,
    /// The loads among them.
    loads: Vec<u64>,
    /// Whether an indirect jump is among them.
    has_jump: bool,
}

impl KnownEarlyLoads {
    /// None was asked for.
    pub fn new(alloc: Global) -> KnownEarlyLoads {
        KnownEarlyLoads {
            by_pc: BTreeMap::new(alloc),
        }
    }

    /// Finds those behind an address.
    ///
    /// # Errors
    ///
    /// `OutOfMemory` alone.
    pub fn find(&mut self, alloc: Global, code: &GuestCode, pc: u64) -> Result<(), OutOfMemory> {
        if !self.by_pc.contains_key(&pc) {
            let loads = early_loads(alloc, code, pc)?;
            self.by_pc.insert(pc, loads)?;
        }
        Ok(())
    }

    /// Those behind an address, where they were found.
    pub fn at(&self, pc: u64) -> Option<&EarlyLoads> {
        self.by_pc.get(&pc)
    }
}

/// The loads that can be come to from an address with no fence between that keeps loads in order.
fn early_loads(alloc: Global, code: &GuestCode, pc: u64) -> Result<EarlyLoads, OutOfMemory> {
    let mut walk = WordWalk {
        todo: vec![in alloc; pc]?,
        met: BTreeSet::new(alloc),
        loads: Vec::new(alloc),
        has_jump: false,
    };
    for _ in 0..u64::MAX {
        let Some(pc) = walk.todo.pop() else {
            break;
        };
        if walk.met.insert(pc)? {
            look_at(code, &mut walk, pc)?;
        }
    }
    let WordWalk {
        todo: _,
        met: _,
        loads,
        has_jump,
    } = walk;
    Ok(if has_jump {
        EarlyLoads::Any
    } else {
        EarlyLoads::At(loads)
    })
}

/// Looks at a word.
fn look_at(code: &GuestCode, walk: &mut WordWalk, pc: u64) -> Result<(), OutOfMemory> {
    let Some(i) = code.instruction_at(pc) else {
        return Ok(());
    };
    if orders_loads(&i) {
        return Ok(());
    }
    if is_load(&i) {
        walk.loads.push(pc)?;
    }
    let next = pc.wrapping_add(4);
    match next_of(&i) {
        Next::Nowhere => {}
        Next::On => walk.todo.push(next)?,
        Next::Jump(distance) => walk.todo.push(pc.wrapping_add(distance))?,
        Next::Branch(distance) => {
            walk.todo.push(next)?;
            walk.todo.push(pc.wrapping_add(distance))?;
        }
        Next::Anywhere => walk.has_jump = true,
    }
    Ok(())
}

/// Whether it is a load or an LR. An AMO isn't done early.
fn is_load(i: &Instr) -> bool {
    match *i {
        Instr::Lb { .. }
        | Instr::Lh { .. }
        | Instr::Lw { .. }
        | Instr::Ld { .. }
        | Instr::Lbu { .. }
        | Instr::Lhu { .. }
        | Instr::Lwu { .. } => true,
        _ => matches!(i.atomic(), Some(Atomic::LoadReserved { .. })),
    }
}
