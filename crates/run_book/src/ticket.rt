ghost use Rattle.std.specs.Prelude.{◌≡◌};
ghost use Rattle.run_book.specs.Turns.{turn_of};

use crate::book::TURNS;
use std::marker::Model;

/// The right to put one hart's round: it names the round, the hart, and the seat that claimed it. It can't be copied.
#[derive(Drop)]
pub struct Ticket {
    pub(crate) round: u32,
    pub(crate) hart: u32,
    pub(crate) seat: u32,
}

impl Model for Ticket {
    ghost use Rattle.run_book.specs.Known.{Named};

    ghost Value = { Named };

    ghost view = { λ t. record { round = t.round; hart = t.hart; seat = t.seat } };
}

impl Ticket {
    /// The round in which it was claimed.
    pub fn round(&self) -> u32
        ensures { result ≡ self.now.round }
    {
        self.round
    }

    /// The hart that was claimed.
    pub fn hart(&self) -> u32
        ensures { result ≡ self.now.hart }
    {
        self.hart
    }

    /// The turn: the hart in its round.
    pub fn turn(&self) -> u64
        ensures { result ≡ turn_of self.now.round self.now.hart }
    {
        u64::from(self.round) * TURNS + u64::from(self.hart)
    }
}
