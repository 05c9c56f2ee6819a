ghost use Rattle.std.specs.Prelude.{◌≤◌, length};

use crate::opening::{Opening, shared};
use departures::{Departure, Draws, EarlyStores, Record, Stream};
use pages::OutOfMemory;
use plan_hunt::{HuntObserver, UnobservedHunt};
use round_planner::Family;
use round_schedule::MOST_HARTS;
use std::alloc::Global;
use timed_machine::{AssumedFence, Bounds, TimedMachine};

/// How many steps of an execution without departures are looked at for stores that could come early.
const MOST_STEPS: u64 = 1 << 16;

/// How many of them are tried, until one of the executions can be done.
const TRIES: u32 = 4;

/// A guest program, of which each number makes an execution.
#[derive(Drop)]
pub struct WeakGuest<'a> {
    alloc: Global,
    opening: Opening<'a>,
    seed: u64,
    /// How far an execution goes.
    bounds: Bounds,
    /// Which fences are assumed.
    fences: &'a [AssumedFence],
    ghost some: { 1 ≤ length opening.harts.now },
    ghost few: { length opening.harts.now ≤ 64 },
}

impl<'a> WeakGuest<'a> {
    /// A guest whose executions go so far, by the plans and the departures of a seed.
    pub fn new(alloc: Global, opening: Opening<'a>, seed: u64, bounds: Bounds) -> WeakGuest<'a>
        requires some { 1 ≤ length opening.harts.now }
        requires few { length opening.harts.now ≤ MOST_HARTS }
    {
        WeakGuest {
            alloc,
            opening,
            seed,
            bounds,
            fences: &[],
        }
    }

    /// The same guest, in which some fences are assumed.
    pub fn with_fences(self, fences: &'a [AssumedFence]) -> WeakGuest<'a> {
        let mut guest = self;
        guest.fences = fences;
        guest
    }

    /// The execution of a number, with a record for the checker if one is wanted.
    ///
    /// # Errors
    ///
    /// `OutOfMemory` alone.
    pub fn execute(&self, number: u32, is_recorded: bool) -> Result<TimedMachine, OutOfMemory> {
        self.execute_within(number, is_recorded, self.bounds, &UnobservedHunt)
    }

    /// The same without a record, and an observer learns of the rounds while they are done.
    ///
    /// # Errors
    ///
    /// `OutOfMemory` alone.
    pub fn execute_observed<O: HuntObserver>(
        &self,
        number: u32,
        observer: &O,
    ) -> Result<TimedMachine, OutOfMemory> {
        self.execute_within(number, false, self.bounds, observer)
    }

    /// The execution of a number within other bounds, of whose rounds an observer learns. In each fifth number a store comes early, where an
    /// execution without departures has one that can; in the others loads read old and stores come late.
    ///
    /// # Errors
    ///
    /// `OutOfMemory` alone.
    pub fn execute_within<O: HuntObserver>(
        &self,
        number: u32,
        is_recorded: bool,
        bounds: Bounds,
        observer: &O,
    ) -> Result<TimedMachine, OutOfMemory> {
        let early = match Draws::early(self.seed, number) {
            Some(stream) => self.execute_early(number, is_recorded, bounds, stream, observer)?,
            None => None,
        };
        match early {
            Some(machine) => Ok(machine),
            None => self.ran(self.machine(number, is_recorded)?, number, bounds, observer),
        }
    }

    /// A machine after it has gone by the plan of a number.
    fn ran<O: HuntObserver>(
        &self,
        machine: TimedMachine,
        number: u32,
        bounds: Bounds,
        observer: &O,
    ) -> Result<TimedMachine, OutOfMemory> {
        let mut machine = machine;
        match self.run(&mut machine, number, bounds, observer) {
            Ok(()) => Ok(machine),
            Err(error) => Err(error),
        }
    }

    /// Has a machine go by the plan of a number.
    fn run<O: HuntObserver>(
        &self,
        machine: &mut TimedMachine,
        number: u32,
        bounds: Bounds,
        observer: &O,
    ) -> Result<(), OutOfMemory> {
        let rows = self.rows(number)?;
        machine.run_observed(&rows, bounds, observer)
    }

    /// The execution by the plan of a number with just these departures, as far as they can be. An observer learns of its rounds.
    ///
    /// # Errors
    ///
    /// `OutOfMemory` alone.
    pub fn execute_with<O: HuntObserver>(
        &self,
        number: u32,
        departures: Vec<Departure>,
        is_recorded: bool,
        bounds: Bounds,
        observer: &O,
    ) -> Result<TimedMachine, OutOfMemory> {
        let mut machine = self.machine(number, is_recorded)?;
        machine.depart(departures);
        self.ran(machine, number, bounds, observer)
    }

    /// The execution of a number in which a store comes early, if one of those that are tried can.
    fn execute_early<O: HuntObserver>(
        &self,
        number: u32,
        is_recorded: bool,
        bounds: Bounds,
        stream: Stream,
        observer: &O,
    ) -> Result<Option<TimedMachine>, OutOfMemory> {
        let ordinary = self.ordinary(number, observer)?;
        let early = match ordinary.record() {
            Some(record) => {
                self.execute_like(record, number, is_recorded, bounds, stream, observer)
            }
            None => Ok(None),
        };
        drop(ordinary);
        early
    }

    /// The same, where this record is of what the plan does without departures.
    fn execute_like<O: HuntObserver>(
        &self,
        record: &Record,
        number: u32,
        is_recorded: bool,
        bounds: Bounds,
        stream: Stream,
        observer: &O,
    ) -> Result<Option<TimedMachine>, OutOfMemory> {
        let stores = EarlyStores::of(self.alloc, record)?;
        let mut stream = stream;
        for _ in 0..TRIES {
            let Some(departure) = stores.draw(&mut stream) else {
                break;
            };
            let departures = Vec::from_slice(self.alloc, &[departure])?;
            let machine = self.execute_with(number, departures, is_recorded, bounds, observer)?;
            if machine.came_early() {
                return Ok(Some(machine));
            }
        }
        Ok(None)
    }

    /// What the plan of a number does without departures, from which it is drawn which store comes early.
    fn ordinary<O: HuntObserver>(
        &self,
        number: u32,
        observer: &O,
    ) -> Result<TimedMachine, OutOfMemory> {
        let bounds = Bounds {
            rounds: self.bounds.rounds,
            steps: self.bounds.steps.min(MOST_STEPS),
            until_fault: true,
        };
        self.execute_with(number, Vec::new(self.alloc), true, bounds, observer)
    }

    /// What each execution begins with.
    pub fn opening(&self) -> &Opening<'a> {
        &self.opening
    }

    /// The rows of the plan of a number.
    ///
    /// # Errors
    ///
    /// `OutOfMemory` alone.
    pub fn rows(&self, number: u32) -> Result<Vec<Vec<u32>>, OutOfMemory> {
        let family = Family {
            seed: self.seed,
            harts: self.opening.harts.len() as u32,
        };
        family.rows_of(self.alloc, number)
    }

    /// The machine of the execution of a number, which has done nothing.
    ///
    /// # Errors
    ///
    /// `OutOfMemory` alone.
    fn machine(&self, number: u32, is_recorded: bool) -> Result<TimedMachine, OutOfMemory> {
        let draws = Draws::of_number(self.seed, number);
        let fences = Vec::from_slice(self.alloc, self.fences)?;
        let shared = shared(self.alloc, &self.opening)?;
        let harts = self.opening.harts;
        let mut machine = TimedMachine::new(self.alloc, harts, shared, draws, is_recorded)?;
        machine.assume_fences(fences);
        Ok(machine)
    }
}
