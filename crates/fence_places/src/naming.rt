//! Which fences would forbid an execution.

use departures::{Deed, Departure, Record, SharedBytes, Way, do_meet};
use fence_table::{Direction, Operation};
use pages::OutOfMemory;
use round_schedule::Access;
use std::alloc::Global;

/// Loads, stores, or both.
#[derive(Clone, Copy, PartialEq, Eq)]
pub struct Sides {
    pub loads: bool,
    pub stores: bool,
}

/// Two neighbours among a hart's accesses of shared bytes. A fence between them forbids an execution.
#[derive(Clone, Copy, PartialEq, Eq)]
pub struct Gap {
    /// The address of the instruction that is the first in program order.
    pub earlier: u64,
    /// The address of the other one.
    pub later: u64,
    /// What the fence may keep before it: one of these is enough.
    pub before: Sides,
    /// What it may keep behind it, likewise.
    pub after: Sides,
    /// How many such gaps are between it and an operation that moved.
    pub distance: u32,
    /// The number of this operation among those that moved.
    pub moved: usize,
}

/// An operation of another hart that an operation moved past.
#[derive(Clone, Copy)]
pub struct Overtaken {
    /// The operation.
    pub operation: Operation,
    /// The address of its instruction.
    pub pc: u64,
}

/// An operation that stands in the global memory order elsewhere than its hart's program has it.
#[derive(Clone, Copy)]
pub struct Move {
    /// The operation.
    pub operation: Operation,
    /// The address of its instruction.
    pub pc: u64,
    /// Whether it stands before the others, or behind them.
    pub direction: Direction,
    /// What it moved past.
    pub passed: Overtaken,
}

/// What moved in an execution.
#[derive(Drop)]
pub struct Moves {
    pub moves: Vec<Move>,
    /// Where a fence would have kept one of these, no two with the same addresses.
    pub gaps: Vec<Gap>,
}

/// A shared access of the hart of an operation that moved.
#[derive(Clone, Copy)]
struct Crossed {
    /// The address of its instruction.
    pc: u64,
    /// What those do that are at least as far from the operation, and stand on the other side of it.
    sides: Sides,
}

/// An execution's memory operations, and where each stands in the global memory order.
#[derive(Drop)]
struct Ranked<'a> {
    deeds: &'a [Deed],
    /// By deed.
    ranks: Vec<usize>,
    shared: SharedBytes,
}

/// What the departures of an execution moved, where its memory operations have this order, deeds by their numbers. A departure moves
/// nothing where its hart has no shared access on the other side of it, or where another hart sees nothing of it.
///
/// # Errors
///
/// `OutOfMemory` alone.
pub fn moves_of(alloc: Global, record: &Record, order: &[usize]) -> Result<Moves, OutOfMemory> {
    let ranked = Ranked {
        deeds: record.deeds(),
        ranks: ranks_of(alloc, order)?,
        shared: SharedBytes::of(alloc, record.deeds())?,
    };
    let mut moves = Moves::none(alloc);
    for departure in record.departures() {
        ranked.add_move(alloc, departure, &mut moves)?;
    }
    Ok(moves)
}

/// Where each deed stands in the global memory order.
fn ranks_of(alloc: Global, order: &[usize]) -> Result<Vec<usize>, OutOfMemory> {
    let mut ranks = vec![in alloc; 0usize; order.len()]?;
    for (rank, deed) in order.iter().enumerate() {
        if let Some(slot) = ranks.get_mut(*deed) {
            *slot = rank;
        }
    }
    Ok(ranks)
}

/// Whether a deed is the one that departed.
fn is_departed(deed: &Deed, departure: &Departure) -> bool {
    deed.hart == departure.hart && deed.access.place() == departure.step
}

impl Sides {
    /// Neither.
    const NONE: Sides = Sides {
        loads: false,
        stores: false,
    };

    /// Both.
    pub const ALL: Sides = Sides {
        loads: true,
        stores: true,
    };

    /// What an access does.
    fn of(access: &Access) -> Sides {
        Sides {
            loads: access.loads(),
            stores: access.stores(),
        }
    }

    /// What is in either.
    fn or(self, other: Sides) -> Sides {
        Sides {
            loads: self.loads || other.loads,
            stores: self.stores || other.stores,
        }
    }

    /// What is in both.
    pub fn and(self, other: Sides) -> Sides {
        Sides {
            loads: self.loads && other.loads,
            stores: self.stores && other.stores,
        }
    }
}

/// An operation of a hart.
fn operation_of(deed: &Deed) -> Operation {
    Operation {
        hart: u32::from(deed.hart),
        access: deed.access,
    }
}

impl Ranked<'_> {
    /// Where a deed stands.
    fn rank(&self, number: usize) -> usize {
        self.ranks.get(number).copied().unwrap_or(0)
    }

    /// Adds what a departure moved, if it moved anything.
    fn add_move(
        &self,
        alloc: Global,
        departure: &Departure,
        moves: &mut Moves,
    ) -> Result<(), OutOfMemory> {
        let direction = match departure.way {
            Way::Old(_) | Way::Early(_) => Direction::Before,
            Way::Late(_) => Direction::Behind,
        };
        let departed = self
            .deeds
            .iter()
            .position(|deed| is_departed(deed, departure));
        let Some(number) = departed else {
            return Ok(());
        };
        let Some(deed) = self.deeds.get(number) else {
            return Ok(());
        };
        let crossed = self.crossed(alloc, number, deed, direction)?;
        match self.passed(number, deed, direction) {
            Some(passed) if !crossed.is_empty() => moves.add(deed, direction, passed, &crossed),
            _ => Ok(()),
        }
    }

    /// The shared accesses of a deed's hart from the farthest one that stands on the other side of it, in the order of their distance
    /// from the farthest.
    fn crossed(
        &self,
        alloc: Global,
        number: usize,
        deed: &Deed,
        direction: Direction,
    ) -> Result<Vec<Crossed>, OutOfMemory> {
        let rank = self.rank(number);
        let mut crossed = Vec::new(alloc);
        match direction {
            Direction::Before => {
                for index in 0..number {
                    self.cross(&mut crossed, deed, index, self.rank(index) > rank)?;
                }
            }
            Direction::Behind => {
                for index in (number..self.deeds.len()).rev() {
                    self.cross(&mut crossed, deed, index, self.rank(index) < rank)?;
                }
            }
        }
        Ok(crossed)
    }

    /// Adds an access of a deed's hart, from the first one on that stands on the other side.
    fn cross(
        &self,
        crossed: &mut Vec<Crossed>,
        deed: &Deed,
        index: usize,
        is_across: bool,
    ) -> Result<(), OutOfMemory> {
        let Some(other) = self.deeds.get(index) else {
            return Ok(());
        };
        let is_own = other.hart == deed.hart && self.shared.has(&other.access);
        if is_own
            && other.access.place() != deed.access.place()
            && (is_across || !crossed.is_empty())
        {
            let before = match crossed.last() {
                Some(last) => last.sides,
                None => Sides::NONE,
            };
            let own = if is_across {
                Sides::of(&other.access)
            } else {
                Sides::NONE
            };
            crossed.push(Crossed {
                pc: other.pc,
                sides: before.or(own),
            })?;
        }
        Ok(())
    }

    /// What a deed moved past: of the operations of other harts on its bytes that were done before its instruction and stand behind
    /// it, or that were done after its instruction and stand before it, the first in the order. Two loads don't pass each other.
    fn passed(&self, number: usize, deed: &Deed, direction: Direction) -> Option<Overtaken> {
        let rank = self.rank(number);
        let mut first: Option<(usize, &Deed)> = None;
        for (index, other) in self.deeds.iter().enumerate() {
            let other_rank = self.rank(index);
            let is_passed = match direction {
                Direction::Before => {
                    index < number
                        && other_rank > rank
                        && (other.access.stores() || deed.access.stores())
                }
                Direction::Behind => index > number && other_rank < rank,
            };
            let is_first = match first {
                Some((least, _)) => other_rank < least,
                None => true,
            };
            if is_passed
                && is_first
                && other.hart != deed.hart
                && do_meet(&other.access, &deed.access)
            {
                first = Some((other_rank, other));
            }
        }
        let (_, other) = first?;
        Some(Overtaken {
            operation: operation_of(other),
            pc: other.pc,
        })
    }
}

impl Moves {
    /// Nothing moved.
    pub fn none(alloc: Global) -> Moves {
        Moves {
            moves: Vec::new(alloc),
            gaps: Vec::new(alloc),
        }
    }

    /// Adds an operation that moved past another one, with the gaps between it and the farthest access that it crossed.
    fn add(
        &mut self,
        deed: &Deed,
        direction: Direction,
        passed: Overtaken,
        crossed: &[Crossed],
    ) -> Result<(), OutOfMemory> {
        let moved = self.moves.len();
        self.moves.push(Move {
            operation: operation_of(deed),
            pc: deed.pc,
            direction,
            passed,
        })?;
        let mut nearer = deed.pc;
        let mut distance = 0u32;
        for far in crossed.iter().rev() {
            let gap = Gap {
                distance,
                moved,
                ..gap_at(deed, far, nearer, direction)
            };
            self.add_gap(gap)?;
            nearer = far.pc;
            distance = distance.saturating_add(1);
        }
        Ok(())
    }

    /// Adds a gap. Where one with the same addresses is there, the nearer one stays.
    fn add_gap(&mut self, gap: Gap) -> Result<(), OutOfMemory> {
        for other in self.gaps.iter_mut() {
            if other.is_at(&gap) {
                if gap.distance < other.distance {
                    *other = gap;
                }
                return Ok(());
            }
        }
        self.gaps.push(gap)?;
        Ok(())
    }
}

/// The gap between an access that was crossed and the next nearer one.
fn gap_at(deed: &Deed, far: &Crossed, nearer: u64, direction: Direction) -> Gap {
    let own = Sides::of(&deed.access);
    let (earlier, later, before, after) = match direction {
        Direction::Before => (far.pc, nearer, far.sides, own),
        Direction::Behind => (nearer, far.pc, own, far.sides),
    };
    Gap {
        earlier,
        later,
        before,
        after,
        distance: 0,
        moved: 0,
    }
}

impl Gap {
    /// Whether both are between the same instructions.
    pub fn is_at(&self, other: &Gap) -> bool {
        self.earlier == other.earlier && self.later == other.later
    }
}
