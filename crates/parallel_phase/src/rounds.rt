ghost use Rattle.std.specs.Prelude.{◌≡◌, ◌<◌, length, IfOk};
ghost use Rattle.parallel_phase.specs.Rounds.{ticket_of};

use crate::claimed_round::HartRound;
use crate::run_starts::RunStarts;
use hart_rounds::{RoundStart, round_from};
use hart_step::Access;
use pages::OutOfMemory;
use run_book::Ticket;

/// Does the round of a ticket's hart, on the memory of the start of the ticket's round of the run. `room` is taken for its accesses
/// while the round goes on: what it holds is let go.
///
/// # Errors
///
/// The ticket is dropped then, and leaves its hart out of the history. The start is only read.
pub fn hart_round<S: RunStarts>(
    ticket: Ticket,
    start: &RoundStart<'_>,
    room: &mut Vec<Access>,
) -> Result<HartRound<S>, OutOfMemory>
    requires start { start.now ≡ S.starts ticket.round }
    requires hart { ticket.hart < length start.now.harts }
    ensures { IfOk result (λ r. ticket_of r ≡ ticket) }
{
    let number = ticket.hart() as usize;
    let end = round_from(number, start, room)?;
    Ok(HartRound::new(ticket, end))
}
