use crate::run_state::RunState;
use hart_step::Stop;
use pages::OutOfMemory;
use std::alloc::Global;
use store_lists::{LATER, ListedStore, Time, add_once};

/// Where what a hart does behind a state isn't known.
#[derive(Clone, Copy, PartialEq, Eq)]
pub enum Behind {
    /// From an address on.
    From(u64),
    /// Anywhere.
    Anywhere,
}

/// How far a list matters to what a hart does behind a settled state.
#[derive(Drop)]
pub struct Reach {
    /// The least time that it looks at.
    pub least: Time,
    /// Whether a run behind it does all that it owes.
    pub is_viable: bool,
    /// The doublewords that it loads early, from that time on.
    pub doublewords: Vec<u64>,
    /// Where it isn't known what it does: there it may load more.
    pub behind: Vec<Behind>,
}

impl Reach {
    /// Of a state behind which nothing was done yet.
    pub fn new(alloc: Global, is_viable: bool) -> Reach {
        Reach {
            least: LATER,
            is_viable,
            doublewords: Vec::new(alloc),
            behind: Vec::new(alloc),
        }
    }

    /// What it isn't known to do, once.
    ///
    /// # Errors
    ///
    /// `OutOfMemory` alone.
    pub fn break_off(&mut self, behind: Behind) -> Result<(), OutOfMemory> {
        if !self.behind.contains(&behind) {
            self.behind.push(behind)?;
        }
        Ok(())
    }

    /// It reaches as far as another too. Answers whether it didn't before.
    ///
    /// # Errors
    ///
    /// `OutOfMemory` alone.
    pub fn include(&mut self, other: &Reach) -> Result<bool, OutOfMemory> {
        let mut grew = other.least < self.least || other.is_viable && !self.is_viable;
        self.least = self.least.min(other.least);
        self.is_viable |= other.is_viable;
        for doubleword in &other.doublewords {
            grew |= add_once(&mut self.doublewords, *doubleword)?;
        }
        for behind in &other.behind {
            if !self.behind.contains(behind) {
                self.behind.push(*behind)?;
                grew = true;
            }
        }
        Ok(grew)
    }

    /// The same once more.
    ///
    /// # Errors
    ///
    /// `OutOfMemory` alone.
    pub fn copy(&self) -> Result<Reach, OutOfMemory> {
        let alloc = *self.doublewords.allocator();
        Ok(Reach {
            least: self.least,
            is_viable: self.is_viable,
            doublewords: Vec::from_slice(alloc, &self.doublewords)?,
            behind: Vec::from_slice(alloc, &self.behind)?,
        })
    }
}

/// A state right before an operation that comes later, in which all before is known.
#[derive(Drop)]
pub struct Settled {
    /// The state.
    pub state: RunState,
    /// Whether the operation is a load, an LR or an AMO, so that other runs may meet this state.
    pub is_met: bool,
    /// How far the list matters behind it.
    pub reach: Reach,
}

impl Settled {
    /// The same once more.
    ///
    /// # Errors
    ///
    /// `OutOfMemory` alone.
    pub fn copy(&self) -> Result<Settled, OutOfMemory> {
        Ok(Settled {
            state: self.state.copy()?,
            is_met: self.is_met,
            reach: self.reach.copy()?,
        })
    }
}

/// How a hart's run ends.
#[derive(Clone, Copy, PartialEq, Eq)]
pub enum RunEnd {
    /// It stops.
    Stopped(Stop),
    /// It waits for ever, in a loop whose least address this is.
    Waits(u64),
}

/// A run of a hart to its end.
#[derive(Drop)]
pub struct EndedRun {
    /// How it ends.
    pub end: RunEnd,
    /// What it put out.
    pub output: Vec<u8>,
    /// How many instructions it did.
    pub steps: u64,
    /// Its last operation.
    pub last_deed: Option<usize>,
}

impl EndedRun {
    /// The same once more.
    ///
    /// # Errors
    ///
    /// `OutOfMemory` alone.
    pub fn copy(&self) -> Result<EndedRun, OutOfMemory> {
        let alloc = *self.output.allocator();
        Ok(EndedRun {
            end: self.end,
            output: Vec::from_slice(alloc, &self.output)?,
            steps: self.steps,
            last_deed: self.last_deed,
        })
    }

    /// Whether it ends as another does.
    pub fn ends_as(&self, other: &EndedRun) -> bool {
        self.end == other.end && self.output.as_slice() == other.output.as_slice()
    }
}

/// All runs of a hart against a list.
#[derive(Drop)]
pub struct Runs {
    /// The stores that may come next.
    pub next: Vec<ListedStore>,
    /// Those that end.
    pub ended: Vec<EndedRun>,
    /// The states from which it goes on in a longer list.
    pub settled: Vec<Settled>,
    /// Whether one came to the bound of instructions.
    pub is_cut: bool,
}

impl Runs {
    /// None.
    pub fn new(alloc: Global) -> Runs {
        Runs {
            next: Vec::new(alloc),
            ended: Vec::new(alloc),
            settled: Vec::new(alloc),
            is_cut: false,
        }
    }

    /// The same once more.
    ///
    /// # Errors
    ///
    /// `OutOfMemory` alone.
    pub fn copy(&self) -> Result<Runs, OutOfMemory> {
        let alloc = *self.next.allocator();
        let mut runs = Runs::new(alloc);
        for store in &self.next {
            runs.next.push(*store)?;
        }
        for ended in &self.ended {
            runs.ended.push(ended.copy()?)?;
        }
        for settled in &self.settled {
            runs.settled.push(settled.copy()?)?;
        }
        runs.is_cut = self.is_cut;
        Ok(runs)
    }

    /// Adds a store that may come next, once.
    ///
    /// # Errors
    ///
    /// `OutOfMemory` alone.
    pub fn add_next(&mut self, store: ListedStore) -> Result<(), OutOfMemory> {
        if !self.next.contains(&store) {
            self.next.push(store)?;
        }
        Ok(())
    }

    /// Adds a run that ends, unless another one ends so.
    ///
    /// # Errors
    ///
    /// `OutOfMemory` alone.
    pub fn add_ended(&mut self, run: EndedRun) -> Result<(), OutOfMemory> {
        for ended in &self.ended {
            if ended.ends_as(&run) {
                return Ok(());
            }
        }
        self.ended.push(run)?;
        Ok(())
    }
}
