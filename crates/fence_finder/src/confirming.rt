ghost use Rattle.std.specs.Prelude.{◌≡◌, IfOk, IfSome};
ghost use Rattle.fence_finder.specs.MissingFences.{IsFault, IsShown};

use crate::faults::failure_found;
use crate::guest::Guest;
use execution_makers::{ScriptedGuest, execution_of_script};
use execution_scripts::ExecutionFile;
use fence_search::Weakness;
use fence_table::{Failure, Missing, NamedGap, Shown, TriedFence};
use fence_trials::{Departing, Found, Ordinary};
use pages::OutOfMemory;
use plan_hunt::HuntObserver;
use timed_machine::TimedMachine;
use weak_executions::{Verdict, check_by};
use weak_hunter::seen_of;

/// A missing fence, with the execution that shows it where that is kept.
#[derive(Drop)]
pub(crate) struct Confirmed {
    pub missing: Missing,
    pub execution: Option<ExecutionFile>,
}

/// A fence that is missing at a gap, where the checker of executions allows the execution that shows it, and finds that it fails so.
pub(crate) fn confirm<O: HuntObserver>(
    guest: &Guest<'_>,
    gap: NamedGap,
    runs: &Ordinary,
    fence: TriedFence,
    weakness: &Weakness,
    observer: &O,
) -> Result<Option<Confirmed>, OutOfMemory>
    ensures shown { IfOk result (λ found. IfSome found (λ c. IsShown guest.now.opening.image.now
        guest.now.opening.input.now guest.now.opening.harts.now c.missing.failure)) }
    ensures fault { IfOk result (λ found. IfSome found (λ c. IsFault runs.now c.missing.failure)) }
    ensures fence { IfOk result (λ found. IfSome found (λ c. c.missing.fence ≡ fence)) }
    ensures numbers { IfOk result (λ found.
        IfSome found (λ c. c.missing.numbers ≡ weakness.now.numbers)) }
{
    let machine = made_again(guest, &weakness.shown, observer)?;
    let confirmed = confirm_by(guest, gap, runs, fence, weakness, &machine);
    drop(machine);
    confirmed
}

/// The same, where this machine has made the execution again.
fn confirm_by(
    guest: &Guest<'_>,
    gap: NamedGap,
    runs: &Ordinary,
    fence: TriedFence,
    weakness: &Weakness,
    machine: &TimedMachine,
) -> Result<Option<Confirmed>, OutOfMemory>
    ensures shown { IfOk result (λ found. IfSome found (λ c. IsShown guest.now.opening.image.now
        guest.now.opening.input.now guest.now.opening.harts.now c.missing.failure)) }
    ensures fault { IfOk result (λ found. IfSome found (λ c. IsFault runs.now c.missing.failure)) }
    ensures fence { IfOk result (λ found. IfSome found (λ c. c.missing.fence ≡ fence)) }
    ensures numbers { IfOk result (λ found.
        IfSome found (λ c. c.missing.numbers ≡ weakness.now.numbers)) }
{
    match failure_of(guest, runs, &weakness.shown, machine)? {
        Some(failure) => {
            let missing = told_of(guest, gap, fence, weakness, failure)?;
            let execution = file_of(guest, &weakness.shown, machine)?;
            Ok(Some(Confirmed { missing, execution }))
        }
        None => Ok(None),
    }
}

/// An execution that was found as a file, where it is to be kept and RVWMO allows it.
pub(crate) fn kept_of<O: HuntObserver>(
    guest: &Guest<'_>,
    shown: &Found,
    observer: &O,
) -> Result<Option<ExecutionFile>, OutOfMemory> {
    if !guest.settings.keeps {
        return Ok(None);
    }
    let machine = made_again(guest, shown, observer)?;
    let kept = allowed_file(guest, shown, &machine);
    drop(machine);
    kept
}

/// The same, where this machine has made the execution again.
fn allowed_file(
    guest: &Guest<'_>,
    shown: &Found,
    machine: &TimedMachine,
) -> Result<Option<ExecutionFile>, OutOfMemory> {
    let Some(record) = machine.record() else {
        return Ok(None);
    };
    let finding = check_by(guest.alloc, &guest.opening, record, shown.placing)?;
    if let Verdict::Allowed = finding.verdict {
        return file_of(guest, shown, machine);
    }
    Ok(None)
}

/// The machine of an execution that was found, with its record.
fn made_again<O: HuntObserver>(
    guest: &Guest<'_>,
    shown: &Found,
    observer: &O,
) -> Result<TimedMachine, OutOfMemory> {
    let departing = Departing::Listed(&shown.departures);
    guest
        .maker
        .execute(shown.number, departing, true, shown.span, observer)
}

/// How a machine's execution fails, where RVWMO allows it.
fn failure_of(
    guest: &Guest<'_>,
    runs: &Ordinary,
    shown: &Found,
    machine: &TimedMachine,
) -> Result<Option<Failure>, OutOfMemory>
    ensures fault { IfOk result (λ found. IfSome found (IsFault runs.now)) }
    ensures shown { IfOk result (λ found. IfSome found (IsShown guest.now.opening.image.now
        guest.now.opening.input.now guest.now.opening.harts.now)) }
{
    let Some(record) = machine.record() else {
        return Ok(None);
    };
    let ranges = &guest.settings.hunt.header.ranges;
    let seen = seen_of(guest.alloc, machine.pages(), ranges)?;
    let finding = check_by(guest.alloc, &guest.opening, record, shown.placing)?;
    match finding.verdict {
        Verdict::Allowed => failure_found(guest, runs, shown.failing, seen, finding),
        _ => Ok(None),
    }
}

/// What is told of a missing fence.
fn told_of(
    guest: &Guest<'_>,
    gap: NamedGap,
    fence: TriedFence,
    weakness: &Weakness,
    failure: Failure,
) -> Result<Missing, OutOfMemory>
    ensures failure { IfOk result (λ m. m.failure ≡ failure) }
    ensures fence { IfOk result (λ m. m.fence ≡ fence) }
    ensures numbers { IfOk result (λ m. m.numbers ≡ weakness.now.numbers) }
{
    let shown = &weakness.shown;
    Ok(Missing {
        gap,
        fence,
        numbers: weakness.numbers,
        moved: guest.moved(weakness)?,
        failure,
        shown: Shown {
            number: shown.number,
            departures: u32::try_from(shown.departures.len()).unwrap_or(u32::MAX),
            steps: shown.span.all,
            operations: shown.operations,
        },
    })
}

/// The execution as a file, where it is to be kept.
fn file_of(
    guest: &Guest<'_>,
    shown: &Found,
    machine: &TimedMachine,
) -> Result<Option<ExecutionFile>, OutOfMemory> {
    let Some(record) = machine.record() else {
        return Ok(None);
    };
    if !guest.settings.keeps {
        return Ok(None);
    }
    let order = record.order_by(guest.alloc, shown.placing)?;
    let scripted = ScriptedGuest {
        format: guest.settings.hunt.format,
        pages: guest.settings.hunt.pages,
        harts: guest.settings.hunt.harts,
        image: guest.file,
        input: guest.opening.input,
    };
    match execution_of_script(guest.alloc, &scripted, record.script(), &order) {
        Ok(file) => Ok(Some(file)),
        // The guest was opened before, so nothing but memory is wanting.
        Err(_) => Err(OutOfMemory),
    }
}
