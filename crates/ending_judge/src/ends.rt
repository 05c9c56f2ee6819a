//! How harts end.

ghost use Rattle.std.specs.Prelude.{◌≡◌, IfOk, IfSome, map};
ghost use Rattle.ending_judge.specs.JudgedEndings.{stop_of};

use endings_table::HartEnd;
use hart_step::{Hart, Stop};
use pages::OutOfMemory;
use std::alloc::Global;

/// How a hart ends that stopped so, or still runs, if that is how it is said to end. Of one that waits for ever only that it still runs is
/// looked at.
fn end_as(stop: Option<Stop>, said: HartEnd) -> Option<HartEnd>
    ensures { IfSome result (λ e. stop_of e ≡ stop) }
{
    match (stop, said) {
        (Some(stop), HartEnd::Stopped(other)) => {
            if stop == other {
                Some(HartEnd::Stopped(stop))
            } else {
                None
            }
        }
        (None, HartEnd::Waits(pc)) => Some(HartEnd::Waits(pc)),
        _ => None,
    }
}

/// How harts end, if that is how they are said to.
///
/// # Errors
///
/// `OutOfMemory` alone.
pub(crate) fn ends_as(
    alloc: Global,
    harts: &[Hart],
    said: &[HartEnd],
) -> Result<Option<Vec<HartEnd>>, OutOfMemory>
    ensures { IfOk result (λ found. IfSome found (λ v.
        map stop_of v.items ≡ map (λ h. h.stop) harts.now)) }
{
    if harts.len() != said.len() {
        return Ok(None);
    }
    let mut ends = Vec::new(alloc);
    for index in 0..harts.len() {
        match end_as(harts[index].stop, said[index]) {
            Some(end) => ends.push(end)?,
            None => return Ok(None),
        }
    }
    Ok(Some(ends))
}
