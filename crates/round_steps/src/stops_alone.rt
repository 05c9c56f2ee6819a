//! Rounds in which a debugger could be told of stopped harts alone.

ghost use Rattle.std.specs.Prelude.{◌≡◌, ℕ, false, is_some, length, true};
ghost use Rattle.std.specs.Option.{option_map};
ghost use Rattle.hart_step.specs.declared.hart.Hart.{Hart};
ghost use Rattle.moments.specs.Hits.{tells};
ghost use Rattle.round_steps.specs.Stopping.{NoNewStop, tells_anew};

use hart_step::Hart;
use moments::Asked;
use std::alloc::Global;

/// Whether nothing is told of a hart that runs.
pub(crate) fn asks_of_stops_alone(asked: &Asked) -> bool
    ensures { result ≡ true → (i : ℕ) (h : Hart) → is_some h.stop ≡ false →
        tells asked.now i h ≡ false }
{
    match asked.each {
        Some(_) => false,
        None => asked.stops.is_empty(),
    }
}

/// What asks for nothing.
pub(crate) fn nothing_asked(alloc: Global) -> Asked
    ensures { (i : ℕ) (h : Hart) → tells result i h ≡ false }
{
    Asked {
        each: None,
        faults: false,
        stops: Vec::new(alloc),
    }
}

/// Whether nothing is told of a hart that ran before and has stopped after.
pub(crate) fn have_no_new_stop(harts: u32, before: &[Hart], after: &[Hart], asked: &Asked) -> bool
    requires { harts ≡ length before.now }
    ensures { result ≡ true → NoNewStop asked.now before.now after.now }
{
    for number in 0..harts {
        if is_told_anew(
            number,
            before.get(number as usize),
            after.get(number as usize),
            asked,
        ) {
            return false;
        }
    }
    true
}

/// Whether hart `number` ran and something is told of it now.
fn is_told_anew(number: u32, before: Option<&Hart>, after: Option<&Hart>, asked: &Asked) -> bool
    ensures { result ≡ tells_anew asked.now number (option_map (λ h. h.now) before.entry)
        (option_map (λ h. h.now) after.entry) }
{
    match (before, after) {
        (Some(before), Some(after)) => before.stop.is_none() && asked.tells(number, after),
        _ => false,
    }
}
