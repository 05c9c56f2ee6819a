//! Laws of the definitions, each the contract of a function that does nothing.

ghost use Rattle.moments.specs.Laws.{MovesLeaveTheTrace, MovesReadWhatIsSeen, SightsAreBeforeMoves, SightsAreThePast, SightsEndInTheSchedule};

/// The accesses of a round's moves are what the round adds to the trace, in its order.
pub fn moves_leave_the_trace<H, C>()
    ensures { MovesLeaveTheTrace H C }
{}

/// What a move reads is what its hart sees before it, and after it the hart sees what it wrote, and else what it saw.
pub fn moves_read_what_is_seen<H, C>()
    ensures { MovesReadWhatIsSeen H C }
{}

/// What a hart is after each number of its instructions of a round is what it was by the past.
pub fn sights_are_the_past<H, C>()
    ensures { SightsAreThePast H C }
{}

/// What a hart is and sees after each number of its instructions of a round is what it is and sees before each of its moves.
pub fn sights_are_before_moves<H, C>()
    ensures { SightsAreBeforeMoves H C }
{}

/// What a hart is and sees at the end of its part of the parallel phase, and of its turn, is what the schedule leaves there. After fewer
/// instructions it is what a part, or a turn, of so many ends with.
pub fn sights_end_in_the_schedule<H, C>()
    ensures { SightsEndInTheSchedule H C }
{}
