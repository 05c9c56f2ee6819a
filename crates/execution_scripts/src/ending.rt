//! How a hart ends, against what is said of it.

ghost use Rattle.std.specs.Prelude.{◌≡◌, ◌≢◌, MatchOption, None, false, true};
ghost use Rattle.execution_file.specs.Deeds.{code_of, value_of};
ghost use Rattle.execution_scripts.specs.Courses.{EndsAs, EndsOtherwise};

use crate::calls::Taken;
use crate::fault::Misfit;
use execution_file::HartDeeds;
use hart_step::Stop;

/// Why a hart whose next step is this, after which it has stopped so, doesn't stop there as is said of it.
pub(crate) fn end_misfit(taken: Taken, stop: Option<Stop>, part: &HartDeeds) -> Option<Misfit>
    ensures { MatchOption result (EndsAs taken stop part.now.code part.now.value)
        (EndsOtherwise taken stop part.now.code part.now.value) }
{
    let Taken::Stopped = taken else {
        return Some(Misfit::RunsOn);
    };
    let (code, value) = (code_of(stop), value_of(stop));
    if code == part.code && value == part.value {
        return None;
    }
    match value {
        Some(value) => Some(Misfit::OtherExit { value }),
        None => Some(Misfit::OtherStop { code }),
    }
}

/// The code of a stop, and 0 where there is none.
fn code_of(stop: Option<Stop>) -> u8
    ensures { result ≡ code_of stop }
{
    match stop {
        Some(stop) => stop.code,
        None => 0,
    }
}

/// The value of the exit call.
fn value_of(stop: Option<Stop>) -> Option<u64>
    ensures { result ≡ value_of stop }
{
    match stop {
        Some(stop) if stop.code == 1 => Some(stop.value),
        _ => None,
    }
}

/// Whether a hart is said to run on, and yet to exit with a value.
pub(crate) fn has_stray_value(part: &HartDeeds) -> bool
    ensures yes { result ≡ true → (part.now.code ≡ 0) × (part.now.value ≢ None) }
    ensures no_value { result ≡ false → part.now.code ≡ 0 → part.now.value ≡ None }
{
    part.code == 0 && part.value.is_some()
}
