ghost use Rattle.std.specs.Prelude.{◌≡◌, ◌++◌, ◌∷◌, [], List, Contains, IfOk};
ghost use Rattle.all_endings.specs.Walking.{AreEndsOf, HartEnding};
ghost use Rattle.hart_ends.specs.Told.{end_told, ends_told, ways_told};

use crate::ends::HartEnd;
use pages::OutOfMemory;
use std::alloc::Global;

/// Each choice of an end of each hart, where each hart's ends are given.
///
/// # Errors
///
/// `OutOfMemory` alone.
pub(crate) fn choices_of_ends(
    alloc: Global,
    ways: &[Vec<HartEnd>],
) -> Result<Vec<Vec<HartEnd>>, OutOfMemory>
    ensures { IfOk result (λ v. (es : List HartEnding) → AreEndsOf (ways_told ways.now) es →
        Contains (ways_told v.items) es) }
{
    let mut chosen = Vec::new(alloc);
    chosen.push(Vec::new(alloc))?;
    for way in ways {
        let longer = extended(alloc, &chosen, way)?;
        chosen = longer;
    }
    Ok(chosen)
}

/// The choices with an end of one hart more.
fn extended(
    alloc: Global,
    chosen: &[Vec<HartEnd>],
    way: &[HartEnd],
) -> Result<Vec<Vec<HartEnd>>, OutOfMemory>
    ensures { IfOk result (λ v. (es : List HartEnding) (e : HartEnding) →
        Contains (ways_told chosen.now) es → Contains (ends_told way.now) e →
        Contains (ways_told v.items) (es ++ e ∷ [])) }
{
    let mut longer = Vec::new(alloc);
    for before in chosen {
        for end in way {
            let more = with_end(alloc, before, end)?;
            longer.push(more)?;
        }
    }
    Ok(longer)
}

/// Some ends, and one more.
fn with_end(alloc: Global, before: &[HartEnd], end: &HartEnd) -> Result<Vec<HartEnd>, OutOfMemory>
    ensures { IfOk result (λ v. ends_told v.items ≡ ends_told before.now ++ end_told end.now ∷ []) }
{
    let mut ends = Vec::new(alloc);
    for one in before {
        ends.push(one.copy(alloc)?)?;
    }
    ends.push(end.copy(alloc)?)?;
    Ok(ends)
}
