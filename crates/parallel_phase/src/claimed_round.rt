ghost use Rattle.std.specs.Prelude.{◌≡◌, Some};
ghost use Rattle.hart_rounds.specs.Ends.{round_at};

use crate::run_starts::RunStarts;
use hart_rounds::HartEnd;
use run_book::Ticket;
use std::marker::PhantomData;

/// The round of one hart: what the ticket's hart comes to from the start of the ticket's round of the run. Its type keeps that it is
/// that.
#[derive(Drop)]
pub struct HartRound<S: RunStarts> {
    pub(crate) ticket: Ticket,
    pub(crate) end: HartEnd,
    pub(crate) of: PhantomData<S>,
    ghost content: { round_at (S.starts ticket.round) ticket.hart ≡ Some end },
}
