ghost use Rattle.std.specs.Prelude.{◌≡◌, ◌++◌, ◌||◌, ◌==◌, if◌then◌else◌, is_some, IfOk, OnOk, Some, None};
ghost use Rattle.round_schedule.specs.declared.event.Phase.TheVariants.{Parallel};
ghost use Rattle.hart_step.specs.DecodedCode.{Shows};
ghost use Rattle.moments.specs.Hits.{harts_in_part, tells};
ghost use Rattle.moments.specs.Quiet.{AreQuiet};
ghost use Rattle.moments.specs.Bytes.{sight_of};
ghost use Rattle.round_steps.specs.Places.{part_counts, places, turn_comes};

use crate::noting::add_places;
use hart_step::{Buffered, DecodedCode, Hart};
use moments::{Asked, hits_in_part};
use pages::{OutOfMemory, Pages};
use past_harts::Place;
use round_schedule::Phase;

/// A hart before a round.
#[derive(Clone, Copy)]
pub(crate) struct Before {
    pub(crate) number: u32,
    pub(crate) hart: Hart,
    pub(crate) quota: u32,
}

/// Adds the places of a hart's part of the parallel phase, which begins with this memory, and answers after how many instructions
/// its turn comes, if it does. `runs` are the `quiet_lengths` of the code and of the addresses that are asked for.
pub(crate) fn add_part(
    before: Before,
    pages: &Pages,
    code: &DecodedCode,
    runs: &[u8],
    asked: &Asked,
    found: &mut Vec<Place>,
) -> Result<Option<u32>, OutOfMemory>
    requires shows { Shows pages.now.memory code.now.first code.now.instructions }
    requires quiet { AreQuiet asked.now.stops.items code.now.first code.now.instructions runs.now }
    ensures places { OnOk result (found.new.items ≡ found.old.items ++ places Parallel before.number
        (part_counts (tells asked.now before.number) before.hart (harts_in_part
        pages.now.memory.code before.quota (sight_of before.hart pages.now.memory)))) }
    ensures turn { IfOk result (λ t. t ≡ turn_comes before.quota before.hart
        (harts_in_part pages.now.memory.code before.quota
        (sight_of before.hart pages.now.memory))) }
{
    if before.hart.stop.is_some() {
        return Ok(None);
    }
    let mut turned = before.hart;
    let mut view = Buffered::new(pages.allocator(), pages);
    let part = hits_in_part(
        pages.allocator(),
        before.number,
        &mut turned,
        &mut view,
        code,
        runs,
        before.quota,
        asked,
    )?;
    add_places(
        found,
        Phase::Parallel,
        before.number,
        part.counts.as_slice(),
    )?;
    Ok(turn_after(part.done, before.quota, &turned))
}

/// Where a part ended with this hart, whether a turn comes, and after how many instructions.
fn turn_after(done: u32, quota: u32, hart: &Hart) -> Option<u32>
    ensures { result ≡ (if is_some hart.now.stop || (done == quota) then None else Some done) }
{
    if hart.stop.is_some() || done == quota {
        None
    } else {
        Some(done)
    }
}
