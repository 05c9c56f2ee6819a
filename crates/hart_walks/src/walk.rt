use crate::guest::Against;
use early_loads::{EarlyLoads, KnownEarlyLoads};
use hart_step::Stop;
use pages::OutOfMemory;
use run_states::{Behind, EndedRun, Reach, RunEnd, RunState, Runs, Settled};
use std::alloc::Global;
use std::collections::HashMap;
use std::mem;
use store_lists::{Deed, Deeds, LATER, ListedStore, Omission, Sharing, Time, add_once};

/// How many states are kept at most.
pub const MOST_STATES: usize = 1 << 19;

/// Which runs are followed.
#[derive(Clone, Copy, PartialEq, Eq)]
pub enum Mode {
    /// All.
    All,
    /// The one that reads the last of memory alone, to see whether it waits for ever.
    Last,
}

/// A walk through a hart's runs, and what the walks of a search have in common.
#[derive(Drop)]
pub struct Walk {
    pub alloc: Global,
    /// Who touches what.
    pub sharing: Sharing,
    /// What was done in runs in which all is known.
    pub deeds: Deeds,
    /// The loads that can be done early behind the addresses where a run broke off.
    pub early: KnownEarlyLoads,
    /// How many instructions were followed.
    pub steps: u64,
    /// How many states were compared.
    pub states: u64,
    /// The addresses of the fences that harts passed.
    pub fences: Vec<u64>,
    pub mode: Mode,
    /// The states before accesses of shared bytes, of earlier walks too.
    pub met: Vec<MetState>,
    /// Of those of this walk whose keys have one hash the latest.
    pub latest: HashMap<u64, usize>,
    /// The runs that are still to be followed, the next one last.
    pub pending: Vec<RunState>,
    /// Settled states that can do all that others can do, behind which nothing was followed.
    pub links: Vec<(usize, usize)>,
    pub runs: Runs,
    /// The least address at which a run that reads the last of memory alone accessed shared bytes.
    pub least_pc: u64,
    /// Whether it came back to where it was.
    pub came_back: bool,
}

/// How many operations and states a walk has kept.
#[derive(Clone, Copy)]
pub struct Kept {
    deeds: usize,
    states: usize,
}

impl Kept {
    /// None.
    pub const NOTHING: Kept = Kept {
        deeds: 0,
        states: 0,
    };
}

/// A state before an access of shared bytes.
#[derive(Drop)]
pub struct MetState {
    pub state: RunState,
    /// The one before it whose key has the same hash.
    pub before: Option<usize>,
}

impl Walk {
    /// Nothing is walked yet.
    pub fn new(alloc: Global) -> Walk {
        Walk {
            alloc,
            sharing: Sharing::new(alloc),
            deeds: Deeds::new(alloc),
            early: KnownEarlyLoads::new(alloc),
            steps: 0,
            states: 0,
            fences: Vec::new(alloc),
            mode: Mode::All,
            met: Vec::new(alloc),
            latest: HashMap::new(alloc),
            pending: Vec::new(alloc),
            links: Vec::new(alloc),
            runs: Runs::new(alloc),
            least_pc: u64::MAX,
            came_back: false,
        }
    }

    /// How many operations and states are kept.
    pub fn kept(&self) -> Kept {
        Kept {
            deeds: self.deeds.count(),
            states: self.met.len(),
        }
    }

    /// Forgets all that were kept since.
    pub fn forget(&mut self, kept: Kept) {
        self.deeds.forget(kept.deeds);
        self.met.truncate(kept.states);
    }

    /// Begins another walk.
    pub fn begin(&mut self, mode: Mode) {
        self.mode = mode;
        self.latest.clear();
        self.pending.clear();
        self.links.clear();
        self.runs = Runs::new(self.alloc);
        self.least_pc = u64::MAX;
        self.came_back = false;
    }

    /// What the walk found, without those settled states behind which no run does what it owes.
    pub fn finish(&mut self) -> Result<Runs, OutOfMemory> {
        self.follow_links()?;
        let mut runs = mem::replace(&mut self.runs, Runs::new(self.alloc));
        runs.settled.retain(|settled| settled.reach.is_viable);
        Ok(runs)
    }

    /// What a run that wasn't followed would have met is what the other one met.
    fn follow_links(&mut self) -> Result<(), OutOfMemory> {
        for _ in 0..u64::MAX {
            let mut grew = false;
            for link in &self.links {
                grew |= follow_link(&mut self.runs.settled, *link)?;
            }
            if !grew {
                break;
            }
        }
        Ok(())
    }

    /// Whether it needs no more steps.
    #[inline]
    pub fn is_over(&self) -> bool {
        self.sharing.grew() || self.came_back
    }

    /// Where a state left what is settled, as far as the list matters behind it. None where nothing is unknown.
    fn reach_of(&mut self, state: &RunState) -> Option<&mut Reach> {
        if state.course.is_pure {
            return None;
        }
        match self.runs.settled.get_mut(state.course.origin) {
            Some(settled) => Some(&mut settled.reach),
            None => None,
        }
    }

    /// A run looks at the list as it was at a time.
    pub fn look_back(
        &mut self,
        state: &RunState,
        time: Time,
        doubleword: Option<u64>,
    ) -> Result<(), OutOfMemory> {
        if let Some(reach) = self.reach_of(state) {
            reach.least = reach.least.min(time);
            if let Some(doubleword) = doubleword {
                add_once(&mut reach.doublewords, doubleword)?;
            }
        }
        Ok(())
    }

    /// A run isn't followed any further: what its hart does from here on isn't known.
    pub fn break_off(&mut self, against: Against<'_>, state: &RunState) -> Result<(), OutOfMemory> {
        if self.mode == Mode::Last || !state.owes_none() {
            return Ok(());
        }
        self.stay_viable(state)?;
        let (pc, least) = (state.hart.pc, state.bounds.before_loads);
        if state.bounds.loads != LATER {
            return self.stay_open(state, least, Behind::Anywhere);
        }
        self.early.find(self.alloc, &against.guest.code, pc)?;
        // Where a fence comes before each load that follows, these come later too.
        if self.early.at(pc).is_some_and(|loads| loads.is_none()) {
            return Ok(());
        }
        self.stay_open(state, least, Behind::From(pc))
    }

    /// A run may load early, from a time on, where it isn't known what it does.
    fn stay_open(
        &mut self,
        state: &RunState,
        least: Time,
        behind: Behind,
    ) -> Result<(), OutOfMemory> {
        match self.reach_of(state) {
            Some(reach) if least != LATER => {
                reach.least = reach.least.min(least);
                reach.break_off(behind)
            }
            _ => Ok(()),
        }
    }

    /// A run did all that it owes.
    fn stay_viable(&mut self, state: &RunState) -> Result<(), OutOfMemory> {
        if let Some(reach) = self.reach_of(state) {
            reach.is_viable = true;
        }
        Ok(())
    }

    /// A run's store may come next.
    pub fn come_next(&mut self, state: &RunState, store: ListedStore) -> Result<(), OutOfMemory> {
        self.stay_viable(state)?;
        self.runs.add_next(store)
    }

    /// From here on something isn't known in a run: this is its state before, where all was known so far.
    pub fn settle(&mut self, state: &mut RunState, is_met: bool) -> Result<(), OutOfMemory> {
        if !state.course.is_pure {
            return Ok(());
        }
        let settled = Settled {
            state: state.copy()?,
            is_met,
            reach: Reach::new(self.alloc, state.owes_none()),
        };
        state.course.origin = self.runs.settled.len();
        state.course.is_pure = false;
        self.runs.settled.push(settled)?;
        Ok(())
    }

    /// A run's hart stops.
    pub fn stop(&mut self, state: &RunState, stop: Stop) -> Result<(), OutOfMemory> {
        if self.mode == Mode::Last || !state.owes_none() {
            return Ok(());
        }
        if !state.course.is_pure {
            return self.stay_viable(state);
        }
        self.runs.add_ended(EndedRun {
            end: RunEnd::Stopped(stop),
            output: Vec::from_slice(self.alloc, &state.output)?,
            steps: state.hart.done,
            last_deed: state.last_deed,
        })
    }

    /// Notes a memory operation that a run is about to do, where all is known.
    pub fn note(&mut self, state: &mut RunState, deed: Deed) -> Result<(), OutOfMemory> {
        if state.course.is_pure && self.mode == Mode::All {
            state.last_deed = self.deeds.add(deed, state.last_deed)?;
        }
        Ok(())
    }

    /// Has a run be followed once the ones that are added behind it were.
    pub fn put_off(&mut self, state: RunState) -> Result<(), OutOfMemory> {
        if self.met.len() >= MOST_STATES || self.pending.len() >= MOST_STATES {
            return self.sharing.omit(Omission::ManyStates);
        }
        self.pending.push(state)?;
        Ok(())
    }
}

/// The first settled state of a link reaches as far as the second.
fn follow_link(settled: &mut Vec<Settled>, link: (usize, usize)) -> Result<bool, OutOfMemory> {
    if link.0 == link.1 {
        return Ok(false);
    }
    let other = match settled.get(link.1) {
        Some(other) => other.reach.copy()?,
        None => return Ok(false),
    };
    match settled.get_mut(link.0) {
        Some(settled) => settled.reach.include(&other),
        None => Ok(false),
    }
}
