/// A command of the user's, which is answered by a text.
#[derive(Clone, Copy, PartialEq)]
pub enum Command {
    /// Where the run stands.
    Where,
    /// Where each hart is.
    Harts,
    /// Which stores of the present hart are not committed.
    Buffer,
    /// What the step that comes next, or came last, reads or writes.
    Event,
    /// Which harts have a reservation.
    Reservations,
    /// The next run stops before this round.
    GotoRound(u64),
    /// The next run stops in this round, where this hart has done so many instructions.
    GotoPlace(u64, u64, u64),
    /// The next run stops behind the last round.
    GotoEnd,
    /// How many instructions each hart may do in this round.
    Plan,
    /// What the program has put out.
    Output,
    /// Stops at watchpoints tell the access from now on.
    HitsOn,
    /// They tell none from now on.
    HitsOff,
    /// Which commands there are.
    Help,
    /// None of these.
    Unknown,
}
