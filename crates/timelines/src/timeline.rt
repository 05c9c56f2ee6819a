ghost use Rattle.std.specs.Prelude.{◌≡◌, ◌≤◌, ◌+◌, ◌-◌, ◌<◌, ◌^◌, min, All, IfOk, OnOk};
ghost use Rattle.machine.specs.Machine.{Running, after_rounds};
ghost use Rattle.machine.specs.Untraced.{IsUntraced, Untraced};
ghost use Rattle.timelines.specs.OwnParts.{own_stores, waits_at};
ghost use Rattle.round_steps.specs.Points.{nearest_point_of, next_point_of, previous_point_of};
ghost use Rattle.timelines.specs.Shown.{seen};
ghost use Rattle.timelines.specs.Timelines.{IsThere};
ghost use Rattle.round_schedule.specs.Bounds.{AreWorkers};

use crate::own_part::{OwnPart, part_at};
use crate::refused::of_memory;
use crate::showing::shown_at_side;
use machine::UntracedMachine;
use moments::Sight;
use pages::{OutOfMemory, Range};
use past_harts::Point;
use round_steps::{Telling, Told, nearest};
use std::marker::Model;
use std::sync::Wait;
use std::thread::Threads;
use watching::Way;

/// How much longer each stretch of rounds is that is looked through on the way back.
const LONGER: u32 = 8;

/// The most machines that are kept to go on from.
const MOST_MACHINES: u32 = 128;

/// The most pages that they may have of their own: 256 MiB.
const MOST_PAGES: u32 = 65_536;

/// A run of so many rounds, which can be looked at at each of its points.
pub struct Timeline {
    /// The machine before the first round.
    start: UntracedMachine,
    /// The machine before the round that was looked at last.
    here: UntracedMachine,
    /// Machines after some rounds, to go on from.
    machines: Vec<UntracedMachine>,
    /// How many rounds lie between two of them, at least.
    apart: u32,
    code: Vec<Range>,
    rounds: u32,
}

// By hand, so that a proof has one step for it wherever one is dropped, in this crate and above.
impl Drop for Timeline {
    fn drop(self) {
        let Timeline {
            start,
            here,
            machines,
            apart: _,
            code,
            rounds: _,
        } = self;
        drop(start);
        drop(here);
        drop(machines);
        drop(code);
    }
}

impl Model for Timeline {
    ghost use Rattle.timelines.specs.Timelines.{Holds, Line};

    ghost Value = { Line };

    ghost view = { λ t. record { start = t.start; rounds = t.rounds } };

    ghost invariant = { λ t. Holds t.start t.here t.machines.items t.apart t.code.items t.rounds };
}

impl Timeline {
    /// The run of a machine before its first round, which has this code.
    pub fn new(
        machine: UntracedMachine,
        code: Vec<Range>,
        rounds: u32,
    ) -> Result<Timeline, OutOfMemory>
        requires run { (m : Running) × IsUntraced m machine }
        requires fresh { machine.rounds ≡ 0 }
        requires code { (m : Running) → IsUntraced m machine → m.code ≡ code.items }
        requires rounds { rounds + 1 < 2 ^ 32 }
        ensures start { IfOk result (λ t. t.start ≡ machine) }
        ensures rounds { IfOk result (λ t. t.rounds ≡ rounds) }
    {
        let mut start = machine;
        let here = of_memory(start.share())?;
        let machines = Vec::new(start.pages().allocator());
        let apart = rounds_apart(rounds, start.pages().count());
        Ok(Timeline {
            start,
            here,
            machines,
            apart,
            code,
            rounds,
        })
    }

    /// How many rounds the run has.
    pub fn rounds(&self) -> u32
        ensures { result ≡ self.now.rounds }
    {
        self.rounds
    }

    /// The earliest point behind another one at which something is told. Rounds are run on 1 to 16 workers. It may wait.
    pub fn next_point<R: Threads + Wait + Sync>(
        &mut self,
        rt: &R,
        telling: &Telling,
        here: &Point,
        workers: u32,
    ) -> Result<Option<Told>, OutOfMemory>
        requires within { here.now.moment.rounds ≤ self.old.rounds }
        requires workers { AreWorkers workers }
        ensures stays { self.new ≡ self.old }
        ensures next { (m : Running) → IsUntraced m self.old.start → IfOk result (λ x. x ≡
            next_point_of telling.now.asked telling.now.watches.items
            (after_rounds here.now.moment.rounds m) (self.old.rounds - here.now.moment.rounds)
            here.now) }
    {
        let begin = here.moment.rounds;
        self.earliest_in(rt, begin, self.rounds - begin, telling, here, workers)
    }

    /// The same in `count` rounds after `begin` others.
    pub fn earliest_in<R: Threads + Wait + Sync>(
        &mut self,
        rt: &R,
        begin: u32,
        count: u32,
        telling: &Telling,
        here: &Point,
        workers: u32,
    ) -> Result<Option<Told>, OutOfMemory>
        requires within { begin + count ≤ self.old.rounds }
        requires workers { AreWorkers workers }
        ensures stays { self.new ≡ self.old }
        ensures next { (m : Running) → IsUntraced m self.old.start → IfOk result (λ x. x ≡
            next_point_of telling.now.asked telling.now.watches.items (after_rounds begin m) count
            here.now) }
    {
        let mut machine = self.machine_at(rt, begin, workers)?;
        let found = self.look_on(rt, &mut machine, count, telling, Way::On, here, workers);
        drop(machine);
        found
    }

    /// The latest point before another one at which something is told. It may wait.
    pub fn previous_point<R: Threads + Wait + Sync>(
        &mut self,
        rt: &R,
        telling: &Telling,
        here: &Point,
        workers: u32,
    ) -> Result<Option<Told>, OutOfMemory>
        requires within { here.now.moment.rounds ≤ self.old.rounds }
        requires workers { AreWorkers workers }
        ensures stays { self.new ≡ self.old }
        ensures previous { (m : Running) → IsUntraced m self.old.start → IfOk result (λ x. x ≡
            previous_point_of telling.now.asked telling.now.watches.items m
            (min self.old.rounds (here.now.moment.rounds + 1)) here.now) }
    {
        let mut end = self.rounds.min(here.moment.rounds.saturating_add(1));
        let mut size: u32 = 1;
        while end > 0 {
            let begin = end - size.min(end);
            if let Some(found) = self.latest_in(rt, begin, end, telling, here, workers)? {
                return Ok(Some(found));
            }
            end = begin;
            size = size.saturating_mul(LONGER);
        }
        Ok(None)
    }

    /// The same in the rounds after `begin` others up to `end`.
    pub fn latest_in<R: Threads + Wait + Sync>(
        &mut self,
        rt: &R,
        begin: u32,
        end: u32,
        telling: &Telling,
        here: &Point,
        workers: u32,
    ) -> Result<Option<Told>, OutOfMemory>
        requires order { begin ≤ end }
        requires within { end ≤ self.old.rounds }
        requires workers { AreWorkers workers }
        ensures stays { self.new ≡ self.old }
        ensures previous { (m : Running) → IsUntraced m self.old.start → IfOk result (λ x. x ≡
            previous_point_of telling.now.asked telling.now.watches.items
            (after_rounds begin m) (end - begin) here.now) }
    {
        let mut machine = self.machine_at(rt, begin, workers)?;
        let rounds = end - begin;
        let found = self.look_on(rt, &mut machine, rounds, telling, Way::Back, here, workers);
        drop(machine);
        found
    }

    /// The nearest point one way in the next rounds of a machine, which is kept where it has done all of them.
    fn look_on<R: Threads + Wait + Sync>(
        &mut self,
        rt: &R,
        machine: &mut UntracedMachine,
        rounds: u32,
        telling: &Telling,
        way: Way,
        here: &Point,
        workers: u32,
    ) -> Result<Option<Told>, OutOfMemory>
        requires there { IsThere self.old.start machine.old }
        requires within { machine.old.rounds + rounds ≤ self.old.rounds }
        requires workers { AreWorkers workers }
        ensures stays { self.new ≡ self.old }
        ensures nearest { (m : Running) → IsUntraced m self.old.start →
            IfOk result (λ x. x ≡ nearest_point_of way
            telling.now.asked telling.now.watches.items (after_rounds machine.old.rounds m) rounds
            here.now) }
    {
        let code = self.code();
        let found = of_memory(nearest(rt, machine, code, rounds, telling, way, here, workers))?;
        if way == Way::Back || found.is_none() {
            self.keep(machine)?;
        }
        Ok(found)
    }

    /// What hart `number` is and sees at a point; none where there is no such hart or moment. It may wait.
    pub fn shown_at<R: Threads + Wait + Sync>(
        &mut self,
        rt: &R,
        point: &Point,
        number: u32,
        workers: u32,
    ) -> Result<Option<Sight>, OutOfMemory>
        requires within { point.now.moment.rounds ≤ self.old.rounds }
        requires workers { AreWorkers workers }
        ensures stays { self.new ≡ self.old }
        ensures sight { (m : Running) → IsUntraced m self.old.start →
            IfOk result (λ s. s ≡ seen m point.now number) }
    {
        let moment = point.moment;
        let mut machine = self.machine_at(rt, moment.rounds, workers)?;
        let code = self.code();
        let sight = shown_at_side(rt, &mut machine, code, point.side, &moment.place, number);
        drop(machine);
        sight
    }

    /// What hart `number` has done of its part of the parallel phase at a point: its stores that are not committed, and whether it waits
    /// for its serial turn. It may wait.
    pub fn own_part_at<R: Threads + Wait + Sync>(
        &mut self,
        rt: &R,
        point: &Point,
        number: u32,
        workers: u32,
    ) -> Result<OwnPart, OutOfMemory>
        requires within { point.now.moment.rounds ≤ self.old.rounds }
        requires workers { AreWorkers workers }
        ensures stays { self.new ≡ self.old }
        ensures stores { (m : Running) → IsUntraced m self.old.start →
            IfOk result (λ p. p.stores.items ≡ own_stores
            (after_rounds point.now.moment.rounds m) point.now.moment.place number) }
        ensures waits { (m : Running) → IsUntraced m self.old.start →
            IfOk result (λ p. p.waits ≡ waits_at
            (after_rounds point.now.moment.rounds m) point.now.moment.place number) }
    {
        let moment = point.moment;
        let machine = self.machine_at(rt, moment.rounds, workers)?;
        let walked = part_at(&machine, self.code(), &moment.place, number);
        drop(machine);
        let part = walked?;
        Ok(part)
    }

    /// Its code.
    fn code(&self) -> &[Range]
        ensures run { (m : Running) × IsUntraced m self.now.start }
        ensures code { (m : Running) → IsUntraced m self.now.start → m.code ≡ result.now }
        ensures few { self.now.rounds + 1 < 2 ^ 32 }
    {
        self.code.as_slice()
    }

    /// The machine that did the most rounds, of those that did so many at most.
    fn nearest(&self, rounds: u32) -> &UntracedMachine
        ensures there { IsThere self.now.start result.now }
        ensures rounds { result.now.rounds ≤ rounds }
    {
        let mut nearest = &self.start;
        if self.here.rounds() <= rounds {
            nearest = &self.here;
        }
        for machine in &self.machines {
            if machine.rounds() <= rounds && machine.rounds() > nearest.rounds() {
                nearest = machine;
            }
        }
        nearest
    }

    /// The machine after so many rounds, to look further. It may wait.
    pub fn machine_at<R: Threads + Wait + Sync>(
        &mut self,
        rt: &R,
        rounds: u32,
        workers: u32,
    ) -> Result<UntracedMachine, OutOfMemory>
        requires within { rounds ≤ self.old.rounds }
        requires workers { AreWorkers workers }
        ensures stays { self.new ≡ self.old }
        ensures machine { (m : Running) → IsUntraced m self.old.start →
            IfOk result (λ u. IsUntraced (after_rounds rounds m) u) }
        ensures rounds { IfOk result (λ u. u.rounds ≡ rounds) }
    {
        let mut machine = of_memory(self.nearest(rounds).copy())?;
        self.go_to(rt, &mut machine, rounds, workers)?;
        Ok(machine)
    }

    /// Goes on with a machine until so many rounds are done, and keeps machines on the way.
    fn go_to<R: Threads + Wait + Sync>(
        &mut self,
        rt: &R,
        machine: &mut UntracedMachine,
        rounds: u32,
        workers: u32,
    ) -> Result<(), OutOfMemory>
        requires there { IsThere self.old.start machine.old }
        requires before { machine.old.rounds ≤ rounds }
        requires within { rounds ≤ self.old.rounds }
        requires workers { AreWorkers workers }
        ensures stays { self.new ≡ self.old }
        ensures there { OnOk result (IsThere self.old.start machine.new) }
        ensures rounds { OnOk result (machine.new.rounds ≡ rounds) }
    {
        while machine.rounds() < rounds {
            let more = self.apart.min(rounds - machine.rounds());
            of_memory(machine.run(rt, more, workers))?;
            self.keep(machine)?;
        }
        Ok(())
    }

    /// Keeps a machine to go on from: until another one is looked at, and for good where it is far enough behind those that are kept.
    fn keep(&mut self, machine: &mut UntracedMachine) -> Result<(), OutOfMemory>
        requires there { IsThere self.old.start machine.old }
        ensures stays { self.new ≡ self.old }
        ensures same { machine.new ≡ machine.old }
    {
        self.here = of_memory(machine.share())?;
        keep_far(&mut self.machines, self.apart, machine)
    }
}

/// Keeps a machine among these, where it is far enough behind each of them and there is room.
fn keep_far(
    machines: &mut Vec<UntracedMachine>,
    apart: u32,
    machine: &mut UntracedMachine,
) -> Result<(), OutOfMemory>
    ensures there { (start : Untraced) → All (IsThere start) machines.old.items →
        IsThere start machine.old →
        All (IsThere start) machines.new.items }
    ensures same { machine.new ≡ machine.old }
{
    if machines.len() >= MOST_MACHINES as usize || !is_far(machines, apart, machine.rounds()) {
        return Ok(());
    }
    let copy = of_memory(machine.share())?;
    match machines.push(copy) {
        Ok(()) => Ok(()),
        Err(_) => Err(OutOfMemory),
    }
}

/// Whether none of these machines did so many rounds, or fewer than `apart` less.
fn is_far(machines: &[UntracedMachine], apart: u32, rounds: u32) -> bool {
    for machine in machines {
        let done = machine.rounds();
        if done <= rounds && rounds - done < apart {
            return false;
        }
    }
    true
}

/// How many rounds lie between two machines that are kept, of a run of so many with memory of so many pages.
fn rounds_apart(rounds: u32, pages: u32) -> u32
    ensures { 1 ≤ result }
{
    let most = (MOST_PAGES / pages.max(1)).min(MOST_MACHINES).max(1);
    (rounds / most).saturating_add(1)
}
