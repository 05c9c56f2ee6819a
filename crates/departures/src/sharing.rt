use crate::record::Deed;
use pages::OutOfMemory;
use round_schedule::Access;
use std::alloc::Global;

/// The groups of four bytes that two harts access, one of which writes.
#[derive(Drop)]
pub struct SharedBytes {
    /// Sorted: addresses divided by four.
    groups: Vec<u64>,
}

/// Who accesses a group.
#[derive(Clone, Copy)]
struct Touched {
    group: u64,
    /// The hart that was the first to do so.
    hart: u8,
    by_others: bool,
    is_written: bool,
}

/// The first and the last group that an access is of.
pub fn groups_of(access: &Access) -> (u64, u64) {
    let first = access.address();
    let last = first.saturating_add(access.byte_count().saturating_sub(1));
    (first / 4, last / 4)
}

impl SharedBytes {
    /// Those of an execution.
    ///
    /// # Errors
    ///
    /// `OutOfMemory` alone.
    pub fn of(alloc: Global, deeds: &[Deed]) -> Result<SharedBytes, OutOfMemory> {
        let touched = touched_by(alloc, deeds)?;
        let mut groups = Vec::new(alloc);
        let mut before: Option<Touched> = None;
        for next in &touched {
            match &mut before {
                Some(last) if last.group == next.group => last.add(next),
                _ => {
                    add_shared(&mut groups, before)?;
                    before = Some(*next);
                }
            }
        }
        add_shared(&mut groups, before)?;
        Ok(SharedBytes { groups })
    }

    /// Whether an access is of one of them.
    pub fn has(&self, access: &Access) -> bool {
        let (first, last) = groups_of(access);
        self.groups.binary_search(&first).is_ok() || self.groups.binary_search(&last).is_ok()
    }
}

impl Touched {
    /// Another access of the same group.
    fn add(&mut self, other: &Touched) {
        self.by_others = self.by_others || self.hart != other.hart;
        self.is_written = self.is_written || other.is_written;
    }
}

/// Adds a group, where it is shared.
fn add_shared(groups: &mut Vec<u64>, touched: Option<Touched>) -> Result<(), OutOfMemory> {
    if let Some(touched) = touched {
        if touched.by_others && touched.is_written {
            groups.push(touched.group)?;
        }
    }
    Ok(())
}

/// Each access of each group, group by group.
fn touched_by(alloc: Global, deeds: &[Deed]) -> Result<Vec<Touched>, OutOfMemory> {
    let mut touched = Vec::new(alloc);
    for deed in deeds {
        let (first, last) = groups_of(&deed.access);
        touched.push(touch(deed, first))?;
        if last != first {
            touched.push(touch(deed, last))?;
        }
    }
    touched.sort_unstable_by_key(|touched| touched.group);
    Ok(touched)
}

/// A deed's access of a group.
fn touch(deed: &Deed, group: u64) -> Touched {
    Touched {
        group,
        hart: deed.hart,
        by_others: false,
        is_written: deed.access.stores(),
    }
}
