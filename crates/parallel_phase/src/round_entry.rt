//! What a hart's round is made of, and how a book sees it.

ghost use Rattle.std.specs.Prelude.{◌≡◌, Some};
ghost use Rattle.hart_rounds.specs.Ends.{round_at};
ghost use Rattle.parallel_phase.specs.Rounds.{end_in, seat_of, ticket_of, turn_in};

use crate::claimed_round::HartRound;
use crate::run_starts::RunStarts;
use hart_rounds::HartEnd;
use hart_step::Hart;
use run_book::{Entry, Ticket};
use std::marker::PhantomData;
use store_buffer::StoreBuffer;
use trace::Log;

impl<S: RunStarts> Entry for HartRound<S> {
    ghost turn = { λ r. turn_in r };

    ghost seat = { λ r. seat_of r };

    ghost right = { λ r. round_at (S.starts (ticket_of r).round) (ticket_of r).hart ≡
        Some (end_in r) };

    fn turn_number(&self) -> u64 {
        self.ticket.turn()
    }

    ghost is_right = { λ r. r.content };
}

impl<S: RunStarts> HartRound<S> {
    /// A round for a ticket. What it left is what the round of the ticket's hart leaves from the start of the ticket's round of the run.
    pub fn new(ticket: Ticket, end: HartEnd) -> HartRound<S>
        requires { round_at (S.starts ticket.round) ticket.hart ≡ Some end }
        ensures ticket { ticket_of result ≡ ticket }
        ensures content { end_in result ≡ end }
    {
        HartRound {
            ticket,
            end,
            of: PhantomData,
        }
    }

    /// The hart after its round.
    pub fn hart(&self) -> &Hart
        ensures { result.now ≡ (end_in self.now).hart }
    {
        &self.end.hart
    }

    /// The bytes that it stored.
    pub fn buffer(&self) -> &StoreBuffer
        ensures { result.now ≡ (end_in self.now).buffer }
    {
        &self.end.buffer
    }

    /// Its accesses in program order, or none where they were only counted.
    pub fn log(&self) -> &Log
        ensures { result.now ≡ (end_in self.now).log }
    {
        &self.end.log
    }

    /// How many accesses there were.
    pub fn accesses(&self) -> u64
        ensures { result ≡ (end_in self.now).accesses }
    {
        self.end.accesses
    }

    /// Whether it waits for the serial phase.
    pub fn waits(&self) -> bool
        ensures { result ≡ (end_in self.now).waits }
    {
        self.end.waits
    }

    /// What the round left, handed over.
    pub fn into_end(self) -> HartEnd
        ensures { result ≡ end_in self }
    {
        let HartRound { end, .. } = self;
        end
    }
}
