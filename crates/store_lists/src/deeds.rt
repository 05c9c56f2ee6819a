use crate::time::Time;
use pages::OutOfMemory;
use std::alloc::Global;

/// A memory operation that a hart did in a run.
#[derive(Clone, Copy)]
pub struct Deed {
    /// How many instructions the hart had done before.
    pub step: u64,
    /// The number that it read, where it reads one.
    pub number: Option<u64>,
    /// Whether it is an SC's that wrote.
    pub holds: bool,
    /// Its time; of a store of the list its place plus one.
    pub time: Time,
    /// Whether it is a store of the list.
    pub is_listed: bool,
}

/// The operations of runs, each with the one before it in its run. So runs that begin alike have their first ones in common.
#[derive(Drop)]
pub struct Deeds {
    deeds: Vec<(Deed, Option<usize>)>,
}

impl Deeds {
    /// None yet.
    pub fn new(alloc: Global) -> Deeds {
        Deeds {
            deeds: Vec::new(alloc),
        }
    }

    /// Adds one behind another, or as the first. Gives its number.
    ///
    /// # Errors
    ///
    /// `OutOfMemory` alone.
    pub fn add(&mut self, deed: Deed, before: Option<usize>) -> Result<Option<usize>, OutOfMemory> {
        let number = self.deeds.len();
        self.deeds.push((deed, before))?;
        Ok(Some(number))
    }

    /// How many there are.
    pub fn count(&self) -> usize {
        self.deeds.len()
    }

    /// Forgets all but so many.
    pub fn forget(&mut self, count: usize) {
        self.deeds.truncate(count);
    }

    /// The operations of a run up to one of them, in its order.
    ///
    /// # Errors
    ///
    /// `OutOfMemory` alone.
    pub fn of_run(&self, alloc: Global, last: Option<usize>) -> Result<Vec<Deed>, OutOfMemory> {
        let mut deeds = Vec::new(alloc);
        let mut next = last;
        for _ in 0..self.deeds.len() {
            let Some(number) = next else {
                break;
            };
            let Some((deed, before)) = self.deeds.get(number) else {
                break;
            };
            deeds.push(*deed)?;
            next = *before;
        }
        deeds.reverse();
        Ok(deeds)
    }
}
