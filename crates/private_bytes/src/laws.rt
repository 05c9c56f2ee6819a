//! Laws of the definitions, each the contract of a function that does nothing.

ghost use Rattle.private_bytes.specs.Ahead.{LowerStatesAreAhead};
ghost use Rattle.private_bytes.specs.LaterLoads.{EarlyLoadsAreAhead};
ghost use Rattle.private_bytes.specs.PrivateTimes.{EarliestPrivateMoveIsLowest};
ghost use Rattle.private_bytes.specs.PrivateWalks.{PrivateTablesAreWhole};

/// If spots of the harts' runs against lists of stores to nobody's own bytes cover what each move of each of them leads to, and a table has the
/// endings to which spots lead, then it has the ending of every execution that RVWMO allows of at most so many instructions a hart.
pub fn private_tables_are_whole()
    ensures { PrivateTablesAreWhole }
{}

/// Of the moves by which an instruction touches own bytes the earliest leaves the lowest state: so one move is enough.
pub fn earliest_private_move_is_lowest()
    ensures { EarliestPrivateMoveIsLowest }
{}

/// A lower state is ahead, and so can stand for the other one.
pub fn lower_states_are_ahead()
    ensures { LowerStatesAreAhead }
{}

/// A load that may read, earlier, no store behind what its hart has seen need not be followed LATER as well.
pub fn early_loads_are_ahead()
    ensures { EarlyLoadsAreAhead }
{}
