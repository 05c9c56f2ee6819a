//! Laws of the definitions, each the contract of a function that does nothing.
ghost use Rattle.late_spots.specs.LateRuns.{LateRunsAreOfThoseKept};
ghost use Rattle.late_spots.specs.LateSpots.{SettledSpotsAreLate};

/// A run that goes on by a late operation, from a spot whose hart has the stores that are laid into memory behind it, is of those that stay.
pub fn late_runs_are_of_those_kept()
    ensures { LateRunsAreOfThoseKept }
{}

/// What is seen at the spots of a settled walk is enough for the runs that go on from them late.
pub fn settled_spots_are_late()
    ensures { SettledSpotsAreLate }
{}
