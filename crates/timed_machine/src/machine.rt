ghost use Rattle.std.specs.Prelude.{◌≤◌, ◌<◌, length};

use crate::assumed::AssumedFence;
use crate::common::Common;
use crate::holding::{Ripe, put_ripe};
use crate::stepping::{Advance, step};
use crate::timed_hart::TimedHart;
use access_times::{History, Memory};
use departures::{Departure, Draws, Listed, Record};
use hart_step::Hart;
use pages::{OutOfMemory, Pages};
use plan_hunt::{HuntObserver, RoundCount, UnobservedHunt};
use serial_phase::SharedState;
use std::alloc::Global;

/// How far the harts go.
#[derive(Clone, Copy)]
pub struct Bounds {
    /// So many rounds at most.
    pub rounds: u32,
    /// Until they have taken so many steps in all, or a round more.
    pub steps: u64,
    /// Whether none goes on once one has stopped otherwise than by exit 0.
    pub until_fault: bool,
}

/// An image's harts over one memory that keeps its history.
///
/// They go one after another, instruction by instruction, as the instruction set has them. Without departures what they do is
/// sequentially consistent. With departures a load may read memory as it was at an earlier time, and a plain store may stay with
/// its hart for a while, where the times of registers, fences, acquires, releases and accesses say that the rules of RVWMO on
/// preserved program order leave room for that.
pub struct TimedMachine {
    harts: Vec<TimedHart>,
    common: Common,
    /// The number of the last round.
    round: u32,
    /// Whether a hart has stopped otherwise than by exit 0, where that ends the execution.
    has_failed: bool,
}

// By hand, so that a proof has one step for it wherever one is dropped, in this crate and above.
impl Drop for TimedMachine {
    fn drop(self) {
        let TimedMachine {
            harts,
            common,
            round: _,
            has_failed: _,
        } = self;
        drop(harts);
        drop(common);
    }
}

impl TimedMachine {
    /// The machine of these harts, over the memory and the console that they share, which has done nothing. It keeps a record if
    /// one is wanted.
    ///
    /// # Errors
    ///
    /// `OutOfMemory` alone.
    pub fn new(
        alloc: Global,
        harts: &[Hart],
        shared: SharedState,
        draws: Draws,
        is_recorded: bool,
    ) -> Result<TimedMachine, OutOfMemory>
        requires few { length harts.now ≤ 64 }
    {
        let memory = Memory::new(shared);
        let pages = memory.pages();
        let history = History::new(alloc, pages)?;
        let record = if is_recorded {
            Some(Record::new(alloc))
        } else {
            None
        };
        Ok(TimedMachine {
            harts: timed(alloc, harts, pages)?,
            common: Common {
                memory,
                history,
                draws,
                listed: Listed::new(Vec::new(alloc)),
                promise: None,
                fences: Vec::new(alloc),
                operations: 0,
                steps: 0,
                held: 0,
                record,
            },
            round: 0,
            has_failed: false,
        })
    }

    /// From now on just these departures are made, as far as they can be, and none is drawn. There is at most one for each step
    /// of a hart. Of the stores that come early there is one, which is in memory when its hart comes to its step: of several
    /// the first.
    pub fn depart(&mut self, departures: Vec<Departure>) {
        self.common.draws = self.common.draws.without_departures();
        self.common.listed = Listed::new(departures);
        self.common.promise = self.common.listed.early();
    }

    /// Whether this is no execution: a store came early that its hart didn't do, or couldn't do so early.
    pub fn is_void(&self) -> bool {
        self.common
            .promise
            .is_some_and(|promise| promise.is_open() || promise.is_broken())
    }

    /// Whether a store came early, and its hart did it.
    pub fn came_early(&self) -> bool {
        self.common
            .promise
            .is_some_and(|promise| promise.is_fulfilled())
    }

    /// From now on these fences are assumed, and no others.
    pub fn assume_fences(&mut self, fences: Vec<AssumedFence>) {
        self.common.fences = fences;
    }

    /// A hart, by its number.
    pub fn hart(&self, number: usize) -> Option<&Hart> {
        match self.harts.get(number) {
            Some(hart) => Some(&hart.state),
            None => None,
        }
    }

    /// What was put out.
    pub fn output(&self) -> &[u8] {
        self.common.memory.output()
    }

    /// Guest memory.
    pub fn pages(&self) -> &Pages {
        self.common.memory.guest()
    }

    /// How many steps the harts have taken.
    pub fn steps(&self) -> u64 {
        self.common.steps
    }

    /// What was done, where the machine keeps it.
    pub fn record(&self) -> Option<&Record> {
        match &self.common.record {
            Some(record) => Some(record),
            None => None,
        }
    }

    /// How many memory operations the harts have done.
    pub fn operations(&self) -> u64 {
        self.common.operations
    }

    /// Has the harts go through so many rounds, or until all of them have stopped. In a round each does as many instructions as
    /// the next row of the plan says, one hart after another, from the one on that is drawn. At the end no store is held.
    ///
    /// # Errors
    ///
    /// `OutOfMemory` alone.
    pub fn run(&mut self, rows: &[Vec<u32>], rounds: u32) -> Result<(), OutOfMemory> {
        self.run_within(
            rows,
            Bounds {
                rounds,
                steps: u64::MAX,
                until_fault: false,
            },
        )
    }

    /// The same within some bounds. It goes on where an earlier call ended.
    ///
    /// # Errors
    ///
    /// `OutOfMemory` alone.
    pub fn run_within(&mut self, rows: &[Vec<u32>], bounds: Bounds) -> Result<(), OutOfMemory> {
        self.run_observed(rows, bounds, &UnobservedHunt)
    }

    /// The same, and an observer learns of the rounds while they are done.
    ///
    /// # Errors
    ///
    /// `OutOfMemory` alone.
    pub fn run_observed<O: HuntObserver>(
        &mut self,
        rows: &[Vec<u32>],
        bounds: Bounds,
        observer: &O,
    ) -> Result<(), OutOfMemory> {
        let mut count = RoundCount::new(observer);
        let mut row = 0;
        for _ in 0..bounds.rounds {
            if self.common.steps >= bounds.steps || self.have_stopped() || self.is_broken() {
                break;
            }
            if row >= rows.len() {
                row = 0;
            }
            if row < rows.len() {
                self.round = self.round.saturating_add(1);
                if self.do_round(&rows[row], bounds.until_fault)? {
                    break;
                }
                row += 1;
                count.add();
            }
        }
        count.end();
        for hart in self.harts.iter_mut() {
            put_ripe(&mut hart.timing, &mut self.common, &Ripe::All)?;
        }
        Ok(())
    }

    fn have_stopped(&self) -> bool {
        self.harts.iter().all(|hart| hart.state.stop.is_some())
    }

    /// The hart that begins a round.
    fn first_hart(&self) -> usize {
        (self.common.draws.first() % (self.harts.len() as u64).max(1)) as usize
    }

    /// Whether the store that came early isn't done by its hart.
    fn is_broken(&self) -> bool {
        self.common
            .promise
            .is_some_and(|promise| promise.is_broken())
    }

    /// Whether a hart has stopped otherwise than by exit 0.
    fn is_failed(&self, index: usize) -> bool {
        match self.harts.get(index) {
            Some(hart) => match hart.state.stop {
                Some(stop) => stop.code != 1 || stop.value != 0,
                None => false,
            },
            None => false,
        }
    }

    /// One round. Where each hart that runs waits, the first goes on. Says whether it ends since a hart has stopped otherwise than
    /// by exit 0, as it does where that is wanted, once no store is in memory that its hart has yet to do.
    fn do_round(&mut self, quotas: &[u32], until_fault: bool) -> Result<bool, OutOfMemory> {
        let mut went = false;
        let count = self.harts.len();
        let mut index = self.first_hart();
        for _ in 0..count {
            if index >= count {
                index = 0;
            }
            let quota = match quotas.get(index) {
                Some(quota) => *quota,
                None => quotas.first().copied().unwrap_or(1),
            };
            if self.do_turn(index, quota, false)? {
                went = true;
            }
            self.has_failed = self.has_failed || until_fault && self.is_failed(index);
            if self.has_failed && !self.common.is_promised() {
                return Ok(true);
            }
            index += 1;
        }
        if !went {
            self.force_one()?;
        }
        Ok(false)
    }

    /// The first hart that runs does one instruction.
    fn force_one(&mut self) -> Result<(), OutOfMemory> {
        for index in 0..self.harts.len() {
            if self.do_turn(index, 1, true)? {
                break;
            }
        }
        Ok(())
    }

    /// A hart does so many instructions, or less where it stops or waits. Says whether it did one.
    fn do_turn(&mut self, index: usize, quota: u32, forced: bool) -> Result<bool, OutOfMemory> {
        let round = self.round;
        let mut went = false;
        for _ in 0..quota {
            let Some(hart) = self.harts.get_mut(index) else {
                break;
            };
            match step(hart, &mut self.common, round, forced)? {
                Advance::Operated => {
                    went = true;
                    self.put_due(index)?;
                }
                Advance::Went => went = true,
                Advance::Waits | Advance::HasStopped => break,
            }
        }
        Ok(went)
    }

    /// After an operation of a hart, what the others have held long enough goes to memory.
    #[inline]
    fn put_due(&mut self, index: usize) -> Result<(), OutOfMemory> {
        if self.common.held == 0 {
            return Ok(());
        }
        for (other, hart) in self.harts.iter_mut().enumerate() {
            if other != index {
                let others = self.common.operations.wrapping_sub(hart.timing.operations);
                put_ripe(&mut hart.timing, &mut self.common, &Ripe::After(others))?;
            }
        }
        Ok(())
    }
}

/// The harts before their first step.
fn timed(alloc: Global, harts: &[Hart], pages: u32) -> Result<Vec<TimedHart>, OutOfMemory>
    requires { length harts.now ≤ 64 }
{
    let mut timed = Vec::with_capacity(alloc, harts.len())?;
    for (number, hart) in harts.iter().enumerate() {
        timed.push(TimedHart::new(alloc, *hart, number as u8, pages)?)?;
    }
    Ok(timed)
}
