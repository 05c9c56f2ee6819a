//! Whether an execution is sequentially consistent: then its fault is no matter of fences.

use departures::{Deed, groups_of};
use pages::OutOfMemory;
use std::alloc::Global;

/// Which operations have to be before which: those of a hart in the order of its program, and those of several harts on the same
/// bytes, one of which stores, in the global memory order.
#[derive(Drop)]
struct Precedence {
    /// For each operation its last edge.
    last: Vec<Option<usize>>,
    edges: Vec<Edge>,
    /// For each operation how many edges lead to it.
    leading: Vec<usize>,
}

/// An edge of an operation.
#[derive(Clone, Copy)]
struct Edge {
    to: usize,
    /// The edge that the operation had last before.
    before: Option<usize>,
}

/// An operation on a group of bytes.
#[derive(Clone, Copy, PartialEq, Eq, PartialOrd, Ord)]
struct Visit {
    group: u64,
    /// Its position in the global memory order.
    rank: usize,
    deed: usize,
    hart: u8,
    stores: bool,
}

/// The visits of a group so far that the next one may have to be behind.
#[derive(Drop)]
struct Visited {
    group: u64,
    store: Option<Visit>,
    /// Loads since then, and those of the store's hart before.
    loads: Vec<Visit>,
}

/// Whether there is one order of all operations in which each hart's are in program order, and each load reads the newest. Of it the
/// order of operations on the same bytes is known: it is that of `order`, deeds by their numbers.
///
/// # Errors
///
/// `OutOfMemory` alone.
pub fn is_sequential(alloc: Global, deeds: &[Deed], order: &[usize]) -> Result<bool, OutOfMemory> {
    let mut precedence = Precedence::none(alloc, deeds.len())?;
    precedence.add_programs(alloc, deeds)?;
    precedence.add_memory(alloc, deeds, order)?;
    precedence.is_order(alloc)
}

impl Precedence {
    /// Among so many operations, none before another.
    fn none(alloc: Global, count: usize) -> Result<Precedence, OutOfMemory> {
        Ok(Precedence {
            last: vec![in alloc; None; count]?,
            edges: Vec::new(alloc),
            leading: vec![in alloc; 0usize; count]?,
        })
    }

    /// An operation is before another one.
    fn add(&mut self, from: usize, to: usize) -> Result<(), OutOfMemory> {
        let number = self.edges.len();
        if let Some(last) = self.last.get_mut(from) {
            let before = last.replace(number);
            self.edges.push(Edge { to, before })?;
        }
        if let Some(leading) = self.leading.get_mut(to) {
            *leading = leading.saturating_add(1);
        }
        Ok(())
    }

    /// Each hart's operations are in the order of its program.
    fn add_programs(&mut self, alloc: Global, deeds: &[Deed]) -> Result<(), OutOfMemory> {
        let mut latest: Vec<Option<usize>> = vec![in alloc; None; 256]?;
        for (number, deed) in deeds.iter().enumerate() {
            if let Some(latest) = latest.get_mut(usize::from(deed.hart)) {
                if let Some(before) = latest.replace(number) {
                    self.add(before, number)?;
                }
            }
        }
        Ok(())
    }

    /// Operations on the same bytes are in the order in which memory has them.
    fn add_memory(
        &mut self,
        alloc: Global,
        deeds: &[Deed],
        order: &[usize],
    ) -> Result<(), OutOfMemory> {
        let mut visits = visits_of(alloc, deeds, order)?;
        visits.sort_unstable();
        let mut visited = Visited {
            group: 0,
            store: None,
            loads: Vec::new(alloc),
        };
        for visit in &visits {
            visited.move_to(visit.group);
            self.add_visit(&visited, visit)?;
            visited.add(*visit)?;
        }
        Ok(())
    }

    /// An operation is behind what visited its bytes before.
    fn add_visit(&mut self, visited: &Visited, visit: &Visit) -> Result<(), OutOfMemory> {
        if let Some(store) = visited.store {
            self.add_between(&store, visit)?;
        }
        if visit.stores {
            for load in &visited.loads {
                self.add_between(load, visit)?;
            }
        }
        Ok(())
    }

    /// An operation is before one of another hart.
    fn add_between(&mut self, visit: &Visit, next: &Visit) -> Result<(), OutOfMemory> {
        if visit.hart == next.hart {
            return Ok(());
        }
        self.add(visit.deed, next.deed)
    }

    /// Whether no operation has to be before itself.
    fn is_order(&mut self, alloc: Global) -> Result<bool, OutOfMemory> {
        let mut free = Vec::new(alloc);
        for (number, leading) in self.leading.iter().enumerate() {
            if *leading == 0 {
                free.push(number)?;
            }
        }
        let count = self.leading.len();
        for _ in 0..count {
            let Some(number) = free.pop() else {
                return Ok(false);
            };
            self.take(number, &mut free)?;
        }
        Ok(true)
    }

    /// An operation is next in the order: what was behind it alone is free.
    fn take(&mut self, number: usize, free: &mut Vec<usize>) -> Result<(), OutOfMemory> {
        let mut next = self.last.get(number).copied().flatten();
        for _ in 0..self.edges.len() {
            let Some(edge) = next.and_then(|number| self.edges.get(number)) else {
                break;
            };
            next = edge.before;
            if let Some(leading) = self.leading.get_mut(edge.to) {
                *leading = leading.saturating_sub(1);
                if *leading == 0 {
                    free.push(edge.to)?;
                }
            }
        }
        Ok(())
    }
}

impl Visited {
    /// The next visit is one of this group.
    fn move_to(&mut self, group: u64) {
        if group != self.group {
            self.group = group;
            self.store = None;
            self.loads.clear();
        }
    }

    /// Adds a visit. A load of a store's own hart may read that store before it is in memory, so it stays.
    fn add(&mut self, visit: Visit) -> Result<(), OutOfMemory> {
        if visit.stores {
            self.store = Some(visit);
            self.loads.retain(|load| load.hart == visit.hart);
        } else {
            self.loads.push(visit)?;
        }
        Ok(())
    }
}

/// What each operation visits.
fn visits_of(alloc: Global, deeds: &[Deed], order: &[usize]) -> Result<Vec<Visit>, OutOfMemory> {
    let mut visits = Vec::new(alloc);
    for (rank, number) in order.iter().enumerate() {
        if let Some(deed) = deeds.get(*number) {
            let (first, last) = groups_of(&deed.access);
            let visit = Visit {
                group: first,
                rank,
                deed: *number,
                hart: deed.hart,
                stores: deed.access.stores(),
            };
            visits.push(visit)?;
            if last != first {
                visits.push(Visit {
                    group: last,
                    ..visit
                })?;
            }
        }
    }
    Ok(visits)
}
