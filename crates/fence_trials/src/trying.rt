ghost use Rattle.std.specs.Prelude.{◌≢◌, IfOk};
ghost use Rattle.fence_trials.specs.Trials.{FailsSo, IsJudged, IsLookedInto, IsTrialOf};
ghost use Rattle.fence_trials.specs.declared.departing.Departing.TheVariants.{Drawn};
ghost use Rattle.fence_trials.specs.declared.failing.Judgement.TheVariants.{Fails as Bad};
ghost use Rattle.fence_trials.specs.declared.trying.Trial.TheVariants.{Well};

use crate::attempt::Attempt;
use crate::departing::{Departing, no_departures};
use crate::executer::Executer;
use crate::failing::{Failing, Judgement};
use crate::guest::{FenceGuest, Span, copied};
use crate::ordinary::Ordinary;
use crate::shortening::shortened;
use departures::{Departure, Placing, Record};
use fence_places::{Moves, is_sequential, moves_of};
use pages::OutOfMemory;
use plan_hunt::HuntObserver;
use timed_machine::TimedMachine;
use weak_executions::is_allowed;

/// The orders of an execution's memory operations that are tried, one after another: in the first just what departs is out of its
/// hart's order.
const PLACINGS: [Placing; 3] = [Placing::AsDone, Placing::AsOld, Placing::Earliest];

/// An execution that fails by its departures.
#[derive(Drop)]
pub struct Found {
    /// Its number.
    pub number: u32,
    /// How it fails.
    pub failing: Failing,
    /// What departs.
    pub departures: Vec<Departure>,
    /// By which rule its memory operations are ordered.
    pub placing: Placing,
    /// How many steps it has.
    pub span: Span,
    /// How many memory operations.
    pub operations: u64,
    /// What its departures moved.
    pub moves: Moves,
}

/// What came of the execution of a number.
#[derive(Drop)]
pub enum Trial {
    /// It ends as it has to.
    Well,
    /// Its plan fails without departures too.
    Ordinary,
    /// It is cut off while harts run, and nothing else is known of it.
    Running,
    /// It fails only with its departures, but is sequentially consistent, so that another plan fails without any; or it runs on, and not
    /// all ordinary runs end well.
    Unnamed,
    /// It fails by what its departures move.
    Fails(Found),
    /// The checker of executions allows it in no order, or it isn't the same twice.
    Unconfirmed,
}

/// Makes the execution of a number, and where that fails looks for what it fails by. An observer learns of the rounds.
///
/// # Errors
///
/// `OutOfMemory` alone.
pub fn try_number<E: Executer, O: HuntObserver>(
    executer: &E,
    guest: &FenceGuest<'_>,
    ordinary: &Ordinary,
    number: u32,
    observer: &O,
) -> Result<Trial, OutOfMemory>
    ensures { IfOk result (IsTrialOf (λ d. E.comes_to guest.now d number) ordinary.now number) }
{
    let attempt = Attempt {
        guest,
        ordinary,
        number,
        observer,
    };
    match attempt.judgement_by(executer, Departing::Drawn)? {
        Judgement::Well => Ok(Trial::Well),
        Judgement::Cut => Ok(Trial::Running),
        Judgement::Void => Ok(Trial::Unconfirmed),
        Judgement::Fails(failing) => look_into(executer, &attempt, failing),
    }
}

/// Looks for what the execution of a number fails by.
fn look_into<E: Executer, O: HuntObserver>(
    executer: &E,
    attempt: &Attempt<'_, '_, O>,
    failing: Failing,
) -> Result<Trial, OutOfMemory>
    requires { IsJudged (E.comes_to attempt.now.guest.now Drawn attempt.now.number)
        attempt.now.ordinary.now (Bad failing) }
    ensures { IfOk result (IsTrialOf (λ d. E.comes_to attempt.now.guest.now d attempt.now.number)
        attempt.now.ordinary.now attempt.now.number) }
{
    let without = attempt.judgement_by(executer, no_departures())?;
    match without {
        Judgement::Fails(_) => Ok(Trial::Ordinary),
        // Nothing departs, so no store comes early.
        Judgement::Void => Ok(Trial::Unconfirmed),
        Judgement::Well => look_further(attempt, failing),
        Judgement::Cut => match failing {
            // What hangs isn't told from what would only take longer.
            Failing::Stuck => Ok(Trial::Running),
            _ => look_further(attempt, failing),
        },
    }
}

/// The same where it doesn't fail without departures.
fn look_further<O: HuntObserver>(
    attempt: &Attempt<'_, '_, O>,
    failing: Failing,
) -> Result<Trial, OutOfMemory>
    ensures { IfOk result (IsLookedInto attempt.now.number) }
{
    if failing.is_like(Failing::Stuck) && !attempt.ordinary.ends_well {
        return Ok(Trial::Unnamed);
    }
    let drawn = attempt.drawn_departures()?;
    let fewer = shortened(attempt, failing, &drawn)?;
    match attempt.failing(Departing::Listed(&fewer))? {
        Some(failing) => explain(attempt, failing, fewer),
        // What seemed to run on for ever may end after all.
        None => match attempt.failing(Departing::Listed(&drawn))? {
            Some(failing) => explain(attempt, failing, drawn),
            None => Ok(Trial::Unconfirmed),
        },
    }
}

/// What comes of the execution of a number with just these departures, of which all are needed where it fails. An observer learns of the
/// rounds.
///
/// # Errors
///
/// `OutOfMemory` alone.
#[tactic(auto, using(crate::proofs::Judged::fails_badly))]
pub fn try_departures<E: Executer, O: HuntObserver>(
    executer: &E,
    guest: &FenceGuest<'_>,
    ordinary: &Ordinary,
    number: u32,
    departures: &[Departure],
    observer: &O,
) -> Result<Trial, OutOfMemory>
    // Where it fails, it came to an ending that isn't well.
    ensures { IfOk result (λ t. t ≢ Well → FailsSo (E.comes_to guest.now) ordinary.now number) }
{
    let attempt = Attempt {
        guest,
        ordinary,
        number,
        observer,
    };
    match attempt.judgement_by(executer, Departing::Listed(departures))? {
        Judgement::Fails(failing) => {
            let departures = copied(guest.alloc, departures)?;
            explain(&attempt, failing, departures)
        }
        Judgement::Cut | Judgement::Well | Judgement::Void => Ok(Trial::Well),
    }
}

/// The first of the orders in which the checker of executions allows a record.
fn placing_of(guest: &FenceGuest<'_>, record: &Record) -> Result<Option<Placing>, OutOfMemory> {
    for placing in &PLACINGS {
        if is_allowed(guest.alloc, &guest.opening, record, *placing)? {
            return Ok(Some(*placing));
        }
    }
    Ok(None)
}

/// What the execution of an attempt with just these departures fails by.
fn explain<O: HuntObserver>(
    attempt: &Attempt<'_, '_, O>,
    failing: Failing,
    departures: Vec<Departure>,
) -> Result<Trial, OutOfMemory>
    ensures { IfOk result (IsLookedInto attempt.now.number) }
{
    let span = match failing {
        // The steps of one that hangs by another plan show nothing more.
        Failing::Stuck => attempt.ordinary.own_span(),
        _ => attempt.ordinary.whole_span(),
    };
    let machine = attempt.made(Departing::Listed(&departures), span)?;
    let found = Found {
        number: attempt.number,
        failing,
        departures,
        placing: Placing::AsDone,
        span: Span {
            own: span.own,
            all: machine.steps(),
        },
        operations: machine.operations(),
        moves: Moves::none(attempt.guest.alloc),
    };
    let trial = explain_record(attempt.guest, &machine, found);
    drop(machine);
    trial
}

/// What the execution of a machine fails by, of which the order and what moved aren't known yet.
fn explain_record(
    guest: &FenceGuest<'_>,
    machine: &TimedMachine,
    found: Found,
) -> Result<Trial, OutOfMemory>
    ensures { IfOk result (IsLookedInto found.number) }
{
    let Some(record) = machine.record() else {
        return Ok(Trial::Unconfirmed);
    };
    let Some(placing) = placing_of(guest, record)? else {
        return Ok(Trial::Unconfirmed);
    };
    let Some(moves) = telling_moves(guest, record, placing)? else {
        return Ok(Trial::Unnamed);
    };
    let mut found = found;
    found.placing = placing;
    found.moves = moves;
    Ok(Trial::Fails(found))
}

/// What the departures of a record moved, where they moved something and the execution is not sequentially consistent.
fn telling_moves(
    guest: &FenceGuest<'_>,
    record: &Record,
    placing: Placing,
) -> Result<Option<Moves>, OutOfMemory> {
    let order = record.placed(guest.alloc, placing)?;
    let moves = moves_of(guest.alloc, record, &order)?;
    if moves.gaps.is_empty() || is_sequential(guest.alloc, record.deeds(), &order)? {
        Ok(None)
    } else {
        Ok(Some(moves))
    }
}
