//! How far the harts of an execution have come.
ghost use Rattle.std.specs.Prelude.{◌≡◌, None, false, true};
ghost use Rattle.std.specs.List.{list_all, list_any};
ghost use Rattle.fence_trials.specs.Well.{goes_on};
ghost use Rattle.plan_hunt.specs.Endings.{ends_well};

use crate::executer::Came;
use crate::guest::FenceGuest;
use crate::looking::seen_of;
use hart_step::Stop;
use pages::OutOfMemory;
use plan_hunt::{Ending, HartEnding};
use timed_machine::TimedMachine;

/// What the execution of a machine has come to; nothing where it is none.
pub(crate) fn came_of(
    guest: &FenceGuest<'_>,
    machine: &TimedMachine,
) -> Result<Option<Came>, OutOfMemory> {
    if machine.is_void() {
        return Ok(None);
    }
    Ok(Some(Came {
        ending: ending_of(guest, machine)?,
        steps: machine.steps(),
    }))
}

/// The ending that a machine has come to.
fn ending_of(guest: &FenceGuest<'_>, machine: &TimedMachine) -> Result<Ending, OutOfMemory> {
    let mut stops = Vec::new(guest.alloc);
    for number in 0..guest.harts() {
        stops.push(hart_ending(machine, number))?;
    }
    let output = Vec::from_slice(guest.alloc, machine.output())?;
    let seen = seen_of(guest.alloc, machine.pages(), guest.ranges)?;
    Ok(Ending::new(stops, output, seen))
}

/// How a hart has ended.
fn hart_ending(machine: &TimedMachine, number: usize) -> HartEnding {
    match machine.hart(number) {
        Some(hart) => match hart.stop {
            Some(stop) => HartEnding::Stopped(stop),
            None => HartEnding::Runs,
        },
        None => HartEnding::Runs,
    }
}

/// The first hart that stopped otherwise than by exit 0, and how. Where there is none and not all harts are well, one hasn't stopped.
#[tactic(auto, using(crate::proofs::Judged::one_goes_on))]
pub(crate) fn first_failed(harts: &[HartEnding]) -> Option<(u8, Stop)>
    ensures { result ≡ None → list_all ends_well harts.now ≡ false → list_any goes_on harts.now ≡
        true }
{
    for number in 0..harts.len() {
        if let HartEnding::Stopped(stop) = harts[number] {
            if !harts[number].is_well() {
                return Some(((number % 64) as u8, stop));
            }
        }
    }
    None
}

/// Whether a hart runs, and none of so many has stopped otherwise than by exit 0.
pub(crate) fn runs_on(machine: &TimedMachine, harts: usize) -> bool {
    let mut runs = false;
    for number in 0..harts {
        let hart = hart_ending(machine, number);
        match hart {
            HartEnding::Stopped(_) => {
                if !hart.is_well() {
                    return false;
                }
            }
            HartEnding::Runs | HartEnding::Loops => runs = true,
        }
    }
    runs
}
