ghost use Rattle.std.specs.Prelude.{◌≡◌, ◌⊎◌, ℕ, All, IfErr, IfOk, OnOk, map};
ghost use Rattle.std.specs.Bool.{OnTrue};
ghost use Rattle.host_io.specs.declared.error.RunError.TheVariants as refusals;
ghost use Rattle.hunter.specs.Hunts.{ending_of_stop};
ghost use Rattle.hunter.specs.declared.error.HuntError.TheVariants as hunting;
ghost use Rattle.plan_hunt.specs.Endings.{ended};
ghost use Rattle.weak_hunter.specs.WeakHunts.{IsAllowedEnding};
ghost use Rattle.weak_hunter.specs.declared.error.WeakHuntError.TheVariants.{Hunt, Unconfirmed};

use crate::error::WeakHuntError;
use crate::guest::Guest;
use departures::Record;
use hunter::stops_of;
use pages::OutOfMemory;
use plan_hunt::{Ending, Row};
use std::alloc::Global;
use weak_executions::{Finding, Verdict, check};

/// Puts the first execution of each ending to the checker of executions.
///
/// # Errors
///
/// `Unconfirmed` with the number of the first one that the checker doesn't allow, or that it finds to end otherwise; `OutOfMemory`.
pub(crate) fn confirm(guest: &Guest<'_>, rows: &[Row]) -> Result<(), WeakHuntError>
    ensures allowed { OnOk result (All (λ r. IsAllowedEnding guest.now.opening.image.now
        guest.now.opening.input.now guest.now.opening.harts.now r.ending) rows.now) }
    ensures errors { IfErr result (λ e. (e ≡ Hunt (hunting.Run refusals.OutOfMemory)) ⊎
        ((n : ℕ) × (e ≡ Unconfirmed n))) }
{
    for row in rows {
        if !is_allowed(guest, row.first, &row.ending)? {
            return Err(WeakHuntError::Unconfirmed(row.first));
        }
    }
    Ok(())
}

/// Whether the checker allows the execution of a number, and finds that it ends so.
fn is_allowed(guest: &Guest<'_>, number: u32, ending: &Ending) -> Result<bool, OutOfMemory>
    ensures { IfOk result (λ yes. OnTrue yes (IsAllowedEnding guest.now.opening.image.now
        guest.now.opening.input.now guest.now.opening.harts.now ending.now)) }
{
    let machine = guest.maker.execute(number, true)?;
    let allowed = match machine.record() {
        Some(record) => is_record_allowed(guest, record, ending),
        None => Ok(false),
    };
    drop(machine);
    allowed
}

/// Whether the checker allows the execution of a record, and finds that it ends so.
fn is_record_allowed(
    guest: &Guest<'_>,
    record: &Record,
    ending: &Ending,
) -> Result<bool, OutOfMemory>
    ensures { IfOk result (λ yes. OnTrue yes (IsAllowedEnding guest.now.opening.image.now
        guest.now.opening.input.now guest.now.opening.harts.now ending.now)) }
{
    let finding = check(guest.alloc, &guest.opening, record)?;
    match finding.verdict {
        Verdict::Allowed => {
            let found = ending_of(guest.alloc, &finding, ending.seen())?;
            Ok(found.is_same(ending))
        }
        _ => Ok(false),
    }
}

/// The ending that the checker finds, with these bytes that are looked at.
fn ending_of(alloc: Global, finding: &Finding, seen: &[u8]) -> Result<Ending, OutOfMemory>
    ensures { IfOk result (λ e. e ≡ ended (map (λ h. ending_of_stop h.stop) finding.now.harts.items)
        finding.now.output.items seen.now) }
{
    let stops = stops_of(alloc, &finding.harts)?;
    let output = Vec::from_slice(alloc, &finding.output)?;
    let seen = Vec::from_slice(alloc, seen)?;
    Ok(Ending::new(stops, output, seen))
}
