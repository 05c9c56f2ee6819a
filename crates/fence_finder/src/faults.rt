//! How an execution fails, as the checker of executions finds it.
ghost use Rattle.std.specs.Prelude.{◌≡◌, IfOk, IfSome};
ghost use Rattle.std.specs.Bool.{OnTrue};
ghost use Rattle.fence_finder.specs.MissingFences.{EndWell, HasStopped, IsFault, IsShown};
ghost use Rattle.weak_executions.specs.AllowedEnds.{IsAllowedEnd};

use crate::guest::Guest;
use fence_table::Failure;
use fence_trials::{Failing, Ordinary};
use hart_step::{Hart, Stop};
use hunter::stops_of;
use pages::OutOfMemory;
use plan_hunt::{HartEnding, are_well};
use std::alloc::Global;
use weak_executions::Finding;

/// Whether the hart of a number stopped so.
fn has_stopped(harts: &[Hart], number: u8, stop: Stop) -> bool
    ensures { OnTrue result (HasStopped harts.now number stop) }
{
    let index = usize::from(number);
    index < harts.len() && harts[index].stop == Some(stop)
}

/// Whether each hart exited with 0.
pub(crate) fn end_well(alloc: Global, harts: &[Hart]) -> Result<bool, OutOfMemory>
    ensures { IfOk result (λ yes. OnTrue yes (EndWell harts.now)) }
{
    Ok(are_well(&stops_of(alloc, harts)?))
}

/// How an execution fails that RVWMO allows, where it is found to fail so; `seen` are the bytes that are looked at.
pub(crate) fn failure_found(
    guest: &Guest<'_>,
    runs: &Ordinary,
    failing: Failing,
    seen: Vec<u8>,
    finding: Finding,
) -> Result<Option<Failure>, OutOfMemory>
    requires { IsAllowedEnd guest.now.opening.image.now guest.now.opening.input.now
        guest.now.opening.harts.now finding.harts.items finding.output.items }
    ensures shown { IfOk result (λ found. IfSome found (IsShown guest.now.opening.image.now
        guest.now.opening.input.now guest.now.opening.harts.now)) }
    // No ordinary run fails so, where all of them end well.
    ensures fault { IfOk result (λ found. IfSome found (IsFault runs.now)) }
{
    match failing {
        Failing::Stopped(hart, stop) => {
            let ending = HartEnding::Stopped(stop);
            if has_stopped(&finding.harts, hart, stop) && !ending.is_well() {
                return Ok(Some(Failure::Stopped {
                    hart: u32::from(hart),
                    stop,
                }));
            }
        }
        Failing::Output | Failing::Seen => {
            let is_other = !runs.expects_output(&finding.output) || !runs.expects_seen(&seen);
            if is_other && end_well(guest.alloc, &finding.harts)? {
                return Ok(Some(Failure::Otherwise {
                    seen,
                    output: finding.output,
                }));
            }
        }
        Failing::Stuck => return Ok(Some(Failure::Stuck)),
    }
    Ok(None)
}
