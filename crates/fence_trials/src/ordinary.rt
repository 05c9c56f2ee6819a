//! What runs without departures come to, and what comes of executions beside them.
ghost use Rattle.std.specs.Prelude.{◌≡◌, ◌≢◌, ◌↔◌, ℕ, ◌+◌, IfOk, IfSome, IsTrue, List, None, OnOk, option_map, false};
ghost use Rattle.fence_trials.specs.Trials.{IsJudged};
ghost use Rattle.fence_trials.specs.Well.{AreOrdinaryRuns, IsCutOff, IsExpected, IsOrdinaryRun, IsWellBeside};
ghost use Rattle.fence_trials.specs.declared.failing.Failing.TheVariants.{Stuck};
ghost use Rattle.fence_trials.specs.declared.failing.Judgement.TheVariants.{Cut, Fails, Void, Well};
ghost use Rattle.plan_hunt.specs.Endings.{Ended};

use crate::departing::no_departures;
use crate::executer::{Came, Executer};
use crate::failing::{Failing, Judgement};
use crate::guest::{FenceGuest, Span};
use crate::state::first_failed;
use pages::OutOfMemory;
use plan_hunt::{Ending, HuntObserver, are_well};
use std::alloc::Global;

/// How many runs without departures say what is ordinary.
const RUNS: u32 = 12;

/// How many times the steps of the longest of them an execution may take, and how many more.
const MOST_TIMES: u64 = 10;

const MORE_STEPS: u64 = 4_000;

/// How many steps more it may take by another plan, so that no hart waits any longer for a store that it holds.
const LAST_STEPS: u64 = 16_000;

/// What runs without departures come to, by the plans of the first numbers.
#[derive(Drop)]
pub struct Ordinary {
    /// Whether each hart of each of them exits with 0.
    pub ends_well: bool,
    /// The output of each of them, where they end well and agree.
    pub output: Option<Vec<u8>>,
    /// The bytes that are looked at, likewise.
    pub seen: Option<Vec<u8>>,
    /// How many steps an execution may take by its own plan.
    pub steps: u64,
    /// After how many steps one that runs on is followed by another plan, and if it runs on by that too is taken to do so for ever. Nothing
    /// says that where no ordinary run ends, or where no execution goes so far.
    pub hangs_after: Option<u64>,
}

/// How many steps an execution takes at most that is followed by another plan after so many.
fn with_another_plan(steps: u64) -> u64 {
    steps.saturating_mul(2).saturating_add(LAST_STEPS)
}

/// What the executions of a search are compared with.
#[derive(Clone, Copy)]
pub struct Compared {
    /// Whether each hart of each ordinary run exits with 0. Else nothing is compared.
    pub ends_well: bool,
    /// Whether what is put out is compared: all ordinary runs put out the same.
    pub output: bool,
    /// The same of the bytes that are looked at.
    pub seen: bool,
    /// After how many steps an execution goes on by another plan.
    pub own_steps: u64,
}

/// Keeps the bytes of the first run, and forgets them where those of another run are others.
fn agree(
    alloc: Global,
    run: u32,
    agreed: &mut Option<Vec<u8>>,
    bytes: &[u8],
) -> Result<(), OutOfMemory>
    ensures new { OnOk result (IsExpected (option_map (λ v. v.items) agreed.new) bytes.now) }
    ensures old { OnOk result ((b : List ℕ) → (run ≡ 0 → ⊥) →
        IsExpected (option_map (λ v. v.items) agreed.old) b →
        IsExpected (option_map (λ v. v.items) agreed.new) b) }
{
    if run == 0 {
        *agreed = Some(Vec::from_slice(alloc, bytes)?);
    } else if !is_expected(agreed, bytes) {
        *agreed = None;
    }
    Ok(())
}

/// Makes the runs that say what is ordinary. An observer learns of their rounds.
///
/// # Errors
///
/// `OutOfMemory` alone.
pub fn ordinary_runs<E: Executer, O: HuntObserver>(
    executer: &E,
    guest: &FenceGuest<'_>,
    observer: &O,
) -> Result<Ordinary, OutOfMemory>
    // Where each of them ends well, each does so as they agree.
    ensures { IfOk result (AreOrdinaryRuns (E.comes_to guest.now) 12) }
{
    let mut ordinary = Ordinary {
        ends_well: true,
        output: None,
        seen: None,
        steps: u64::from(guest.reach.steps),
        hangs_after: None,
    };
    let mut longest = 0;
    for number in 0..RUNS {
        longest = make_run(executer, guest, &mut ordinary, number, observer)?.max(longest);
    }
    ordinary.settle(longest);
    Ok(ordinary)
}

/// Makes one of these runs. Answers how many steps it took, and 0 where it doesn't end well.
fn make_run<E: Executer, O: HuntObserver>(
    executer: &E,
    guest: &FenceGuest<'_>,
    ordinary: &mut Ordinary,
    number: u32,
    observer: &O,
) -> Result<u64, OutOfMemory>
    requires { AreOrdinaryRuns (E.comes_to guest.now) number ordinary.old }
    ensures { OnOk result (AreOrdinaryRuns (E.comes_to guest.now) (number + 1) ordinary.new) }
{
    match executer.execute(
        guest,
        no_departures(),
        number,
        ordinary.own_span(),
        observer,
    )? {
        Some(came) => add_run(guest.alloc, ordinary, number, &came),
        // Nothing departs, so no store comes early.
        None => Err(OutOfMemory),
    }
}

/// Adds a run that was made.
fn add_run(
    alloc: Global,
    ordinary: &mut Ordinary,
    number: u32,
    came: &Came,
) -> Result<u64, OutOfMemory>
    ensures new { OnOk result (IsOrdinaryRun ordinary.new came.now.ending) }
    ensures old { OnOk result ((e : Ended) → (number ≡ 0 → ⊥) → IsOrdinaryRun ordinary.old e →
        IsOrdinaryRun ordinary.new e) }
{
    let ending = &came.ending;
    agree(alloc, number, &mut ordinary.output, ending.output())?;
    agree(alloc, number, &mut ordinary.seen, ending.seen())?;
    if are_well(ending.stops()) {
        Ok(came.steps)
    } else {
        ordinary.ends_well = false;
        Ok(0)
    }
}

impl Ordinary {
    /// Settles what is ordinary once all runs are made, of which the longest that ends well took so many steps.
    fn settle(&mut self, longest: u64)
        ensures { (e : Ended) → IsOrdinaryRun self.old e → IsOrdinaryRun self.new e }
    {
        if !self.ends_well {
            self.output = None;
            self.seen = None;
        }
        let hanging = longest
            .saturating_mul(MOST_TIMES)
            .saturating_add(MORE_STEPS);
        if longest > 0 && with_another_plan(hanging) <= self.steps {
            self.steps = hanging;
            self.hangs_after = Some(hanging);
        }
    }

    /// What the executions are compared with.
    pub fn compared(&self) -> Compared
        ensures { result.ends_well ≡ self.now.ends_well }
    {
        Compared {
            ends_well: self.ends_well,
            output: self.output.is_some(),
            seen: self.seen.is_some(),
            own_steps: self.steps,
        }
    }

    /// Whether this is what ordinary runs put out, where they agree.
    pub fn expects_output(&self, output: &[u8]) -> bool
        ensures { IsTrue result ↔ IsExpected (option_map (λ v. v.items) self.now.output)
            output.now }
    {
        is_expected(&self.output, output)
    }

    /// The same of the bytes that are looked at.
    pub fn expects_seen(&self, seen: &[u8]) -> bool
        ensures { IsTrue result ↔ IsExpected (option_map (λ v. v.items) self.now.seen) seen.now }
    {
        is_expected(&self.seen, seen)
    }

    /// The steps of an execution by its own plan.
    pub fn own_span(&self) -> Span {
        Span {
            own: self.steps,
            all: self.steps,
        }
    }

    /// The same, and as many by another plan, where that tells what hangs from what only takes longer.
    pub(crate) fn whole_span(&self) -> Span {
        let all = match self.hangs_after {
            Some(_) => with_another_plan(self.steps),
            None => self.steps,
        };
        Span {
            own: self.steps,
            all,
        }
    }

    /// What comes of what an execution has come to, if it is one.
    pub(crate) fn judgement_of(&self, came: &Option<Came>) -> Judgement
        ensures came { IfSome came.now (λ c. IsJudged (λ e. e ≡ c.ending) self.now result) }
        ensures void { came.now ≡ None → result ≡ Void }
    {
        match came {
            Some(came) => self.judged(&came.ending, came.steps),
            None => Judgement::Void,
        }
    }

    /// What comes of an execution that has come to this ending after so many steps.
    fn judged(&self, ending: &Ending, steps: u64) -> Judgement
        ensures well { result ≡ Well → IsWellBeside self.now ending.now }
        ensures bad { IsWellBeside self.now ending.now → result ≡ Well }
        ensures cut { result ≡ Cut → IsCutOff ending.now }
        ensures stuck { result ≡ Fails Stuck → IsCutOff ending.now }
    {
        if !are_well(ending.stops()) {
            return match first_failed(ending.stops()) {
                Some((hart, stop)) => Judgement::Fails(Failing::Stopped(hart, stop)),
                None => self.judged_running(steps),
            };
        }
        if !is_expected(&self.output, ending.output()) {
            return Judgement::Fails(Failing::Output);
        }
        if !is_expected(&self.seen, ending.seen()) {
            return Judgement::Fails(Failing::Seen);
        }
        Judgement::Well
    }

    /// What comes of an execution of which a hart runs after so many steps.
    fn judged_running(&self, steps: u64) -> Judgement
        ensures { result ≢ Well }
    {
        match self.hangs_after {
            Some(hanging) if steps >= hanging => Judgement::Fails(Failing::Stuck),
            _ => Judgement::Cut,
        }
    }
}

/// Whether bytes are those that are expected, where some are.
fn is_expected(expected: &Option<Vec<u8>>, bytes: &[u8]) -> bool
    ensures { IsTrue result ↔ IsExpected (option_map (λ v. v.items) expected.now) bytes.now }
{
    match expected {
        Some(expected) => bytes == expected.as_slice(),
        None => true,
    }
}
