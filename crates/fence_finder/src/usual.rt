//! An ordinary run beside which an execution fails.
ghost use Rattle.std.specs.Prelude.{◌≡◌, ◌⊎◌, ℕ, [], IfErr, IfOk, OnOk, true};
ghost use Rattle.std.specs.Bool.{OnTrue};
ghost use Rattle.fence_finder.specs.MissingFences.{IsUsual};
ghost use Rattle.host_io.specs.declared.error.RunError.TheVariants as refusals;
ghost use Rattle.hunter.specs.declared.error.HuntError.TheVariants as hunting;
ghost use Rattle.weak_hunter.specs.declared.error.WeakHuntError.TheVariants.{Hunt, Unconfirmed};

use crate::faults::end_well;
use crate::guest::Guest;
use departures::{Placing, Record};
use fence_trials::{Departing, Ordinary};
use pages::OutOfMemory;
use plan_hunt::HuntObserver;
use weak_executions::{Verdict, check_by};
use weak_hunter::WeakHuntError;

/// The number of the ordinary run that is put to the checker.
const USUAL: u32 = 0;

/// Puts an ordinary run to the checker of executions, where all of them end well.
///
/// # Errors
///
/// `Unconfirmed` where the checker doesn't allow it, or finds that it ends otherwise; `OutOfMemory`.
pub(crate) fn check_usual<O: HuntObserver>(
    guest: &Guest<'_>,
    runs: &Ordinary,
    observer: &O,
) -> Result<(), WeakHuntError>
    ensures usual { OnOk result (IsUsual guest.now.opening.image.now guest.now.opening.input.now
        guest.now.opening.harts.now runs.now) }
    ensures errors { IfErr result (λ e. (e ≡ Hunt (hunting.Run refusals.OutOfMemory)) ⊎
        ((n : ℕ) × (e ≡ Unconfirmed n))) }
{
    if runs.ends_well && !is_usual_allowed(guest, runs, observer)? {
        return Err(WeakHuntError::Unconfirmed(USUAL));
    }
    Ok(())
}

/// Whether the checker allows an ordinary run, and finds that it ends as all of them do.
fn is_usual_allowed<O: HuntObserver>(
    guest: &Guest<'_>,
    runs: &Ordinary,
    observer: &O,
) -> Result<bool, OutOfMemory>
    ensures { IfOk result (λ yes.
        OnTrue yes (IsUsual guest.now.opening.image.now guest.now.opening.input.now
        guest.now.opening.harts.now runs.now)) }
{
    let departing = Departing::Listed(&[]);
    let machine = guest
        .maker
        .execute(USUAL, departing, true, runs.own_span(), observer)?;
    let allowed = match machine.record() {
        Some(record) => is_record_usual(guest, runs, record),
        None => Ok(false),
    };
    drop(machine);
    allowed
}

/// Whether the checker allows the execution of a record, and finds that it ends as ordinary runs do.
fn is_record_usual(guest: &Guest<'_>, runs: &Ordinary, record: &Record) -> Result<bool, OutOfMemory>
    ensures { IfOk result (λ yes.
        OnTrue yes (IsUsual guest.now.opening.image.now guest.now.opening.input.now
        guest.now.opening.harts.now runs.now)) }
{
    let finding = check_by(guest.alloc, &guest.opening, record, Placing::AsDone)?;
    match finding.verdict {
        Verdict::Allowed => {
            let is_well = end_well(guest.alloc, &finding.harts)?;
            Ok(is_well && runs.expects_output(&finding.output))
        }
        _ => Ok(false),
    }
}
