//! A search for what is told next, which goes on a stretch of rounds at a time.

ghost use Rattle.std.specs.Prelude.{◌≡◌, ◌==◌, if◌then◌else◌, ◌≤◌, ◌<◌, ◌+◌, ◌-◌, ◌^◌, IfOk};
ghost use Rattle.watching.specs.declared.watchpoint.Way.TheVariants.{On, Back};
ghost use Rattle.gdb_resumes.specs.Searches.{IsPassed, begins_at};
ghost use Rattle.gdb_runs.specs.Ways.{rounds_at, rounds_left};
ghost use Rattle.gdb_resumes.specs.Resumes.{IsSearched, IsUnderWay, SearchesTo, interrupted};
ghost use Rattle.gdb_runs.specs.Standings.{end_of};
ghost use Rattle.gdb_resumes.specs.declared.searching.Searched.TheVariants.{GoesOn, Stands};
ghost use Rattle.gdb_runs.specs.Sessions.{IsReady, OfRun, state_of};
ghost use Rattle.round_schedule.specs.Bounds.{AreWorkers};

use crate::going::goal_passed;
use gdb_replies::Reason;
use gdb_runs::{
    Debugged, MOST_STEPS, Session, Standing, all_told, end_of, start_of, stretch_of, tell,
};
use pages::OutOfMemory;
use past_harts::{Point, Side};
use round_steps::{Telling, Told};
use std::alloc::Global;
use std::sync::Wait;
use std::thread::Threads;
use watching::Way;

/// How much longer each stretch of rounds is.
const LONGER: u32 = 8;

/// gdb's number of the signal by which a user interrupts a run.
const INTERRUPTED: u8 = 2;

/// How far a search has come.
#[derive(Clone, Copy)]
pub struct Reach {
    /// Which way it goes.
    pub way: Way,
    /// How many rounds are done where it has come to.
    pub rounds: u32,
    /// How many rounds its next stretch may have.
    pub most: u32,
}

/// A search for what is told next.
#[derive(Drop)]
pub struct Search {
    /// How far it has come.
    pub reach: Reach,
    /// What is told.
    pub telling: Telling,
}

/// What a search has come to.
#[derive(Drop)]
pub enum Searched {
    /// The run stands there.
    Stands(Standing),
    /// Nothing is told so far, and rounds are left.
    GoesOn(Search),
}

impl Search {
    /// A search that begins where a session stands.
    pub fn new(
        alloc: Global,
        run: &Debugged,
        session: &Session,
        way: Way,
    ) -> Result<Search, OutOfMemory>
        requires ready { IsReady run.now session.now.standing }
        ensures way { IfOk result (λ x. x.reach.way ≡ way) }
        ensures search { IfOk result (λ x. IsUnderWay run.now (state_of session.now) x) }
    {
        let telling = all_told(alloc, session, None)?;
        let reach = Reach {
            way,
            rounds: begins_at(run, way, session.standing.point.moment.rounds),
            most: 1,
        };
        Ok(Search { reach, telling })
    }

    /// Looks through the next rounds, so many that they come to some 4,000,000 instructions. It may wait.
    pub fn go_on<R: Threads + Wait + Sync>(
        self,
        rt: &R,
        run: &mut Debugged,
        session: &Session,
    ) -> Result<Searched, OutOfMemory>
        requires ready { IsReady run.old session.now.standing }
        requires search { IsUnderWay run.old (state_of session.now) self }
        ensures stays { run.new ≡ run.old }
        ensures searches { OfRun run.old (λ r.
            IfOk result (λ x. SearchesTo r (state_of session.now) self.reach.way x)) }
        ensures searched { IfOk result (λ x. IsSearched run.old (state_of session.now) x) }
    {
        let here = session.standing.point;
        let (found, reach) = self.reach.look_through(rt, run, &self.telling, &here)?;
        if let Some(goal) = goal_passed(reach, &here, found, session.standing.goal) {
            return Ok(Searched::Stands(session.standing.at_goal(goal)));
        }
        match found {
            Some(told) => {
                let standing = tell(rt, run, session, told)?;
                Ok(Searched::Stands(standing))
            }
            None => Ok(self.goes_to(run, session.standing, reach)),
        }
    }

    /// What it has come to where nothing was told.
    fn goes_to(self, run: &Debugged, standing: Standing, reach: Reach) -> Searched
        requires ready { IsReady run.now standing }
        requires within { reach.rounds ≤ run.now.timeline.rounds }
        requires way { reach.way ≡ self.reach.way }
        ensures { result ≡ (if rounds_left reach.way run.now.timeline.rounds reach.rounds == 0
            then Stands (end_of run.now.timeline.rounds standing reach.way) else GoesOn
            (record { reach = reach; telling = self.telling })) }
    {
        if reach.left(run) == 0 {
            return Searched::Stands(end_of(run, standing, reach.way));
        }
        Searched::GoesOn(Search {
            reach,
            telling: self.telling,
        })
    }

    /// Where the run stands if the search is interrupted.
    pub fn interrupted(&self, run: &Debugged, standing: Standing) -> Standing
        requires ready { IsReady run.now standing }
        requires within { self.now.reach.rounds ≤ run.now.timeline.rounds }
        ensures stands { result ≡ interrupted standing self.now.reach.rounds }
        ensures ready { IsReady run.now result }
    {
        let point = Point {
            side: Side::After,
            ..start_of(self.reach.rounds)
        };
        standing.moved(point, Reason::Signal(INTERRUPTED), standing.told)
    }
}

impl Reach {
    /// Looks through the next rounds, and says what is told there, and where the search has come to.
    fn look_through<R: Threads + Wait + Sync>(
        self,
        rt: &R,
        run: &mut Debugged,
        telling: &Telling,
        here: &Point,
    ) -> Result<(Option<Told>, Reach), OutOfMemory>
        requires workers { AreWorkers run.old.workers }
        requires few { run.old.timeline.rounds + 1 < 2 ^ 32 }
        requires within { self.rounds ≤ run.old.timeline.rounds }
        ensures stays { run.new ≡ run.old }
        ensures passed { OfRun run.old (λ r.
            IfOk result (λ x.
            IsPassed r self.way self.rounds x.1.rounds telling.now here.now x.0)) }
        ensures way { IfOk result (λ x. x.1.way ≡ self.way) }
        ensures within { IfOk result (λ x. x.1.rounds ≤ run.old.timeline.rounds) }
    {
        let mut search = self;
        let mut steps: u64 = 0;
        for _i in 0..self.left(run) {
            let left = search.left(run);
            if left == 0 || steps >= MOST_STEPS {
                return Ok((None, search));
            }
            let plan = run.start.plan();
            let (count, all) = stretch_of(
                plan,
                search.way,
                search.rounds,
                left,
                search.most,
                steps,
            );
            steps = all;
            let found = search.look_in(rt, run, telling, here, count)?;
            search = search.past(run, count);
            if found.is_some() {
                return Ok((found, search));
            }
        }
        Ok((None, search))
    }

    /// How many rounds are left.
    fn left(self, run: &Debugged) -> u32
        requires within { self.rounds ≤ run.now.timeline.rounds }
        ensures { result ≡ rounds_left self.way run.now.timeline.rounds self.rounds }
    {
        match self.way {
            Way::On => run.timeline.rounds() - self.rounds,
            Way::Back => self.rounds,
        }
    }

    /// What is told in the next rounds.
    fn look_in<R: Threads + Wait + Sync>(
        self,
        rt: &R,
        run: &mut Debugged,
        telling: &Telling,
        here: &Point,
        count: u32,
    ) -> Result<Option<Told>, OutOfMemory>
        requires workers { AreWorkers run.old.workers }
        requires within { self.rounds ≤ run.old.timeline.rounds }
        requires left { count ≤ rounds_left self.way run.old.timeline.rounds self.rounds }
        ensures stays { run.new ≡ run.old }
        ensures passed { OfRun run.old (λ r.
            IfOk result (λ x.
            IsPassed r self.way self.rounds (rounds_at self.way self.rounds count) telling.now
            here.now x)) }
    {
        let rounds = self.rounds;
        match self.way {
            Way::On => look_on(rt, run, telling, here, rounds, count),
            Way::Back => look_back(rt, run, telling, here, rounds, count),
        }
    }

    /// It is behind so many rounds more.
    fn past(self, run: &Debugged, count: u32) -> Reach
        requires few { run.now.timeline.rounds + 1 < 2 ^ 32 }
        requires within { self.rounds ≤ run.now.timeline.rounds }
        requires left { count ≤ rounds_left self.way run.now.timeline.rounds self.rounds }
        ensures way { result.way ≡ self.way }
        ensures rounds { result.rounds ≡ rounds_at self.way self.rounds count }
        ensures within { result.rounds ≤ run.now.timeline.rounds }
    {
        let rounds = match self.way {
            Way::On => self.rounds + count,
            Way::Back => self.rounds - count,
        };
        Reach {
            way: self.way,
            rounds,
            most: self.most.saturating_mul(LONGER),
        }
    }
}

/// Where a search begins, in the round after so many others.
fn begins_at(run: &Debugged, way: Way, rounds: u32) -> u32
    requires few { rounds + 1 < 2 ^ 32 }
    ensures { result ≡ begins_at run.now.timeline.rounds way rounds }
{
    match way {
        Way::On => rounds,
        Way::Back => run.timeline.rounds().min(rounds + 1),
    }
}

/// What is told in `count` rounds after `rounds` others, on the way on.
fn look_on<R: Threads + Wait + Sync>(
    rt: &R,
    run: &mut Debugged,
    telling: &Telling,
    here: &Point,
    rounds: u32,
    count: u32,
) -> Result<Option<Told>, OutOfMemory>
    requires workers { AreWorkers run.old.workers }
    requires within { rounds + count ≤ run.old.timeline.rounds }
    ensures stays { run.new ≡ run.old }
    ensures passed { OfRun run.old (λ r. IfOk result (λ x.
        IsPassed r On rounds (rounds + count) telling.now here.now x)) }
{
    let workers = run.workers;
    run.timeline
        .earliest_in(rt, rounds, count, telling, here, workers)
}

/// What is told in the last `count` of `rounds` rounds, on the way back.
fn look_back<R: Threads + Wait + Sync>(
    rt: &R,
    run: &mut Debugged,
    telling: &Telling,
    here: &Point,
    rounds: u32,
    count: u32,
) -> Result<Option<Told>, OutOfMemory>
    requires workers { AreWorkers run.old.workers }
    requires within { rounds ≤ run.old.timeline.rounds }
    requires left { count ≤ rounds }
    ensures stays { run.new ≡ run.old }
    ensures passed { OfRun run.old (λ r. IfOk result (λ x.
        IsPassed r Back rounds (rounds - count) telling.now here.now x)) }
{
    let workers = run.workers;
    let begin = rounds - count;
    run.timeline
        .latest_in(rt, begin, rounds, telling, here, workers)
}
