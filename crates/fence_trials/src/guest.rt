ghost use Rattle.std.specs.Prelude.{◌≡◌, ◌≤◌, length};

use crate::departing::Departing;
use crate::executer::Came;
use crate::state::{came_of, runs_on};
use departures::Departure;
use hunt_table::SeenRange;
use pages::OutOfMemory;
use plan_hunt::HuntObserver;
use std::alloc::Global;
use timed_machine::{AssumedFence, Bounds, TimedMachine};
use weak_executions::{Opening, WeakGuest};

/// How far the executions of a search go at most.
#[derive(Clone, Copy)]
pub struct Reach {
    pub rounds: u32,
    /// Steps of all harts together.
    pub steps: u32,
}

/// How many steps an execution takes.
#[derive(Clone, Copy)]
pub struct Span {
    /// By the plan of its number, at most.
    pub own: u64,
    /// In all, at most: where a hart still runs then, it goes on by the plan of the next number, and nothing departs any more.
    pub all: u64,
}

impl Reach {
    /// The same as bounds of an execution, which ends where a hart fails.
    fn bounds(self) -> Bounds {
        Bounds {
            rounds: self.rounds,
            steps: u64::from(self.steps),
            until_fault: true,
        }
    }
}

/// A guest program in which missing fences are searched for.
#[derive(Drop)]
pub struct FenceGuest<'a> {
    pub alloc: Global,
    /// What each execution begins with.
    pub opening: Opening<'a>,
    /// By which plans and departures.
    pub seed: u64,
    /// How far an execution goes.
    pub reach: Reach,
    /// The bytes that are looked at when one ends.
    pub ranges: &'a [SeenRange],
    /// Which fences are assumed.
    pub fences: &'a [AssumedFence],
    maker: WeakGuest<'a>,
    ghost some: { 1 ≤ length opening.harts.now },
    ghost few: { length opening.harts.now ≤ 64 },
}

impl<'a> FenceGuest<'a> {
    /// A guest whose executions go through so many rounds and steps at most, by the plans and the departures of a seed. Of each, these
    /// ranges are looked at when it ends. The fences of `fences` are assumed.
    pub fn new(
        alloc: Global,
        opening: Opening<'a>,
        seed: u64,
        reach: Reach,
        ranges: &'a [SeenRange],
        fences: &'a [AssumedFence],
    ) -> FenceGuest<'a>
        requires some { 1 ≤ length opening.harts.now }
        requires few { length opening.harts.now ≤ 64 }
        ensures opening { result.opening ≡ opening.entry }
        ensures seed { result.seed ≡ seed }
        ensures reach { result.reach ≡ reach }
        ensures ranges { result.ranges.now ≡ ranges.now }
        ensures fences { result.fences.now ≡ fences.now }
    {
        FenceGuest {
            alloc,
            opening,
            seed,
            reach,
            ranges,
            fences,
            maker: WeakGuest::new(alloc, opening, seed, reach.bounds()).with_fences(fences),
        }
    }

    /// The same guest with these fences in place of those that are assumed.
    pub fn assuming<'b>(&self, fences: &'b [AssumedFence]) -> FenceGuest<'b>
    where
        'a: 'b,
        ensures opening { result.opening ≡ self.now.opening }
        ensures seed { result.seed ≡ self.now.seed }
        ensures reach { result.reach ≡ self.now.reach }
        ensures ranges { result.ranges.now ≡ self.now.ranges.now }
        ensures fences { result.fences.now ≡ fences.now }
    {
        let (opening, ranges) = (self.opening, self.ranges);
        FenceGuest::new(self.alloc, opening, self.seed, self.reach, ranges, fences)
    }

    /// How many harts there are.
    pub(crate) fn harts(&self) -> usize {
        self.opening.harts.len()
    }

    /// The machine after the execution of a number with these departures, which ended at the first hart that stopped otherwise than by
    /// exit 0, or after so many steps. An observer learns of its rounds.
    ///
    /// # Errors
    ///
    /// `OutOfMemory` alone.
    pub fn execute<O: HuntObserver>(
        &self,
        number: u32,
        departing: Departing<'_>,
        is_recorded: bool,
        span: Span,
        observer: &O,
    ) -> Result<TimedMachine, OutOfMemory> {
        let steps = span.own.min(span.all);
        let mut machine = self.begun(number, departing, is_recorded, steps, observer)?;
        match self.go_on(&mut machine, number, span.all, observer) {
            Ok(()) => Ok(machine),
            Err(error) => Err(error),
        }
    }

    /// What the execution of a number with these departures comes to; nothing where it is none.
    ///
    /// # Errors
    ///
    /// `OutOfMemory` alone.
    pub(crate) fn come_to<O: HuntObserver>(
        &self,
        number: u32,
        departing: Departing<'_>,
        span: Span,
        observer: &O,
    ) -> Result<Option<Came>, OutOfMemory> {
        let machine = self.execute(number, departing, false, span, observer)?;
        let came = came_of(self, &machine);
        drop(machine);
        came
    }

    /// The machine after the execution of a number with these departures, by its own plan.
    fn begun<O: HuntObserver>(
        &self,
        number: u32,
        departing: Departing<'_>,
        is_recorded: bool,
        steps: u64,
        observer: &O,
    ) -> Result<TimedMachine, OutOfMemory> {
        let (maker, bounds) = (&self.maker, self.bounds(steps));
        match departing {
            Departing::Drawn => maker.execute_within(number, is_recorded, bounds, observer),
            Departing::Listed(departures) => {
                let departures = copied(self.alloc, departures)?;
                maker.execute_with(number, departures, is_recorded, bounds, observer)
            }
        }
    }

    /// How far an execution of so many steps goes.
    fn bounds(&self, steps: u64) -> Bounds {
        Bounds {
            steps,
            ..self.reach.bounds()
        }
    }

    /// Where a hart of an execution runs, it goes on by the plan of the next number and without departures, until a hart stops otherwise
    /// than by exit 0, or until so many steps are taken in all.
    fn go_on<O: HuntObserver>(
        &self,
        machine: &mut TimedMachine,
        number: u32,
        steps: u64,
        observer: &O,
    ) -> Result<(), OutOfMemory> {
        if machine.steps() >= steps || machine.is_void() || !runs_on(machine, self.harts()) {
            return Ok(());
        }
        machine.depart(Vec::new(self.alloc));
        let rows = self.maker.rows(number.wrapping_add(1))?;
        machine.run_observed(&rows, self.bounds(steps), observer)
    }
}

/// Equal departures.
pub(crate) fn copied(
    alloc: Global,
    departures: &[Departure],
) -> Result<Vec<Departure>, OutOfMemory> {
    Ok(Vec::from_slice(alloc, departures)?)
}
