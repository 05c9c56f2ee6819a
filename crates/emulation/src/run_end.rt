//! How a run has ended.

ghost use Rattle.std.specs.Prelude.{◌≡◌};
ghost use Rattle.emulation.specs.Showing.{all_end_well, end_of, ends_well, some_run};

use hart_step::{Hart, Stop};

/// How the harts of a run have ended.
#[derive(Clone, Copy, PartialEq, Eq)]
pub enum RunEnd {
    /// Each exited with 0.
    Well,
    /// Each stopped, and one was stopped by a fault or exited with another value than 0.
    Badly,
    /// One still runs.
    RunsOn,
}

/// How a run with these harts has ended.
pub(crate) fn end_of(harts: &[Hart]) -> RunEnd
    ensures { result ≡ end_of harts.now }
{
    if some_run(harts) {
        RunEnd::RunsOn
    } else if all_end_well(harts) {
        RunEnd::Well
    } else {
        RunEnd::Badly
    }
}

/// Whether one of the harts runs.
fn some_run(harts: &[Hart]) -> bool
    ensures { result ≡ some_run harts.now }
{
    harts.iter().any(|hart| hart.stop.is_none())
}

/// Whether each of the harts exited with 0.
fn all_end_well(harts: &[Hart]) -> bool
    ensures { result ≡ all_end_well harts.now }
{
    harts.iter().all(|hart| ends_well(hart.stop))
}

/// Whether a hart with this stop exited with 0.
fn ends_well(stop: Option<Stop>) -> bool
    ensures { result ≡ ends_well stop }
{
    match stop {
        Some(stop) => stop.code == 1 && stop.value == 0,
        None => false,
    }
}
