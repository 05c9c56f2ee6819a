//! Laws of the definitions, each the contract of a function that does nothing.

ghost use Rattle.round_schedule.specs.HeldBy.{HeldIsByLastReserve};
ghost use Rattle.round_schedule.specs.ByReservations.{CommitsByReservations, RoundsByReservations, RunsByReservations};
ghost use Rattle.round_schedule.specs.ReservingTurn.{SerialPhaseByReservations};
ghost use Rattle.round_schedule.specs.Past.{PastEndsInRound};
ghost use Rattle.round_schedule.specs.Places.{EventsPass, PlacesOfRunsRise};
ghost use Rattle.round_schedule.specs.Preserved.{RoundsPreserve};
ghost use Rattle.round_schedule.specs.Schedule.{CommitIsLastStore, HartRoundIsLongest, SerialTurnIsLongest};
ghost use Rattle.round_schedule.specs.Sound.{TracesAreRoundTraces};
ghost use Rattle.round_schedule.specs.Stopped.{StoppedRunsPass};

/// A hart's round is the one longest sequence of its instructions.
///
/// Each instruction reads the bytes of the round's start under the stores that the hart made in this round.
/// The sequence ends where the quota is used up, where the hart is stopped or gets stopped, or before an
/// instruction that has to wait for the serial phase. There is exactly one such round.
pub fn hart_round_is_longest<H, C>()
    ensures { HartRoundIsLongest H C }
{}

/// A hart's serial turn is the one longest sequence of its instructions, up to the budget.
///
/// Each instruction reads memory, the console and the hart's reservation as the ones before it left them, and the number
/// of the round. The sequence ends where the budget is used up, where the hart is stopped or gets stopped, or before an
/// instruction that waits. There is exactly one such turn, and each sequence within the budget is a beginning of it.
pub fn serial_turn_is_longest<H, C>()
    ensures { SerialTurnIsLongest H C }
{}

/// Each byte after the commit is that of the last store to it in hart order, and else the byte of the round's start.
pub fn commit_is_last_store<H, C>()
    ensures { CommitIsLastStore H C }
{}

/// The reservation that a trace leaves a hart is that of its last LR, where no SC of the hart and no write of another
/// hart to its bytes came after; and where there is such an LR, the hart has its reservation.
pub fn held_is_by_last_reserve()
    ensures { HeldIsByLastReserve }
{}

/// The trace of every run over sound instructions is a round trace, whose opening bytes are those of the run's start.
///
/// Events go round by round, in a round the parallel ones first, and in a phase hart by hart. A parallel load returns
/// the last write among those of earlier rounds and its hart's own earlier ones; a serial load the last write of all
/// before it. LR, SC, AMO and fences that order stores before loads are serial, a turn has at most the budget's events,
/// and an SC that writes has its hart's reservation.
pub fn traces_are_round_traces<H, C>()
    ensures { TracesAreRoundTraces H C }
{}

/// Where a list of reservations is what the trace says, the serial phase over the list is that over the trace, and the
/// list after it is what the trace after it says.
pub fn serial_phase_by_reservations<H, C>()
    ensures { SerialPhaseByReservations H C }
{}

/// Where a list of reservations is what the trace says, the list after a commit is what the trace with the round's
/// parallel events says.
pub fn commits_by_reservations<H, C>()
    ensures { CommitsByReservations H C }
{}

/// Over sound instructions, and where the list is what the trace says, a round over the list is the round over the
/// trace: it ends in the same state, and the list after it is what the trace after it says.
///
/// It leaves bytes below 256, and as many harts and entries as there were, so that the law applies to the next round.
pub fn rounds_by_reservations<H, C>()
    ensures { RoundsByReservations H C }
{}

/// Over sound instructions, a run over a list that begins empty is the run over the trace. Its list is what the trace
/// says at its end, and its trace is a round trace.
pub fn runs_by_reservations<H, C>()
    ensures { RunsByReservations H C }
{}

/// Where `done` counts a hart's instructions and a run is too short for the counts to wrap, the places of a hart's
/// accesses rise through the trace.
pub fn places_of_runs_rise<H, C>()
    ensures { PlacesOfRunsRise H C }
{}

/// What each access that an instruction leaves passes, the access of each event of a run passes.
pub fn events_pass<H, C>()
    ensures { EventsPass H C }
{}

/// A test that each instruction preserves of its hart, a round preserves of all harts.
pub fn rounds_preserve<H, C>()
    ensures { RoundsPreserve H C }
{}

/// Where all harts have stopped, so many rounds change nothing but the number of rounds.
pub fn stopped_runs_pass<H, C>()
    ensures { StoppedRunsPass H C }
{}

/// What a hart was after each number of the instructions that it did in a round ends with the hart at the round's end.
pub fn past_ends_in_round<H, C>()
    ensures { PastEndsInRound H C }
{}
