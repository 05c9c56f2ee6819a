ghost use Rattle.std.specs.Prelude.{◌≡◌, ◌++◌, ◌∷◌, [], OnOk, if◌then◌else◌};
ghost use Rattle.round_steps.specs.Places.{places};

use pages::OutOfMemory;
use past_harts::Place;
use round_schedule::Phase;

/// Adds a place, where it is told.
pub(crate) fn note(found: &mut Vec<Place>, told: bool, place: Place) -> Result<(), OutOfMemory>
    ensures { OnOk result (found.new.items ≡
        (if told then found.old.items ++ place ∷ [] else found.old.items)) }
{
    if told {
        found.push(place)?;
    }
    Ok(())
}

/// Adds the places of a hart in a phase.
pub(crate) fn add_places(
    found: &mut Vec<Place>,
    phase: Phase,
    hart: u32,
    counts: &[u32],
) -> Result<(), OutOfMemory>
    ensures { OnOk result (found.new.items ≡
        found.old.items ++ places phase hart counts.now) }
{
    for count in counts {
        found.push(Place {
            phase,
            hart,
            count: u64::from(*count),
        })?;
    }
    Ok(())
}
