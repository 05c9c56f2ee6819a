//! The judge of endings over a guest's program.

ghost use Rattle.std.specs.Prelude.{IfOk, IfSome};
ghost use Rattle.endings_finder.specs.AllEndings.{CanEnd, guest_from};

use crate::guest::Guest;
use ending_judge::{Proposed, judge_ending};
use endings_table::FoundEnding;
use pages::OutOfMemory;

/// The ending that an execution of a guest comes to, if RVWMO allows it and its harts end as they are said to.
///
/// # Errors
///
/// `OutOfMemory` alone.
pub(crate) fn judge_of_guest(
    guest: &Guest<'_>,
    proposed: &Proposed<'_>,
) -> Result<Option<FoundEnding>, OutOfMemory>
    ensures { IfOk result (λ found. IfSome found
        (CanEnd (guest_from guest.now.program.now guest.now.scripted) guest.now.ranges.now)) }
{
    let (alloc, scripted) = (guest.alloc, &guest.scripted);
    let mut execution = guest.program.open(alloc, scripted.input, scripted.harts)?;
    let opening = guest.program.opening();
    let found = judge_ending(alloc, &mut execution, opening, guest.ranges, proposed);
    drop(execution);
    found
}
