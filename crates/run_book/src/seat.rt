ghost use Rattle.std.specs.Prelude.{◌≡◌, length};

use crate::sitter::Sitters;
use atomic_table::Seat as Place;
use std::marker::Model;

/// A worker's place at a book, for a whole run. It claims turns, and puts what it claimed.
#[derive(Drop)]
pub struct Seat<E> {
    pub(crate) place: Place<Vec<E>, Sitters<E>>,
    pub(crate) number: u32,
    pub(crate) harts: u32,
    // Of the seat with number 0: the round that is open.
    pub(crate) round: u32,
    pub(crate) own: usize,
    pub(crate) seen: usize,
}

impl<E> Model for Seat<E> {
    ghost use Rattle.run_book.specs.Known.{Known, known};
    ghost use Rattle.run_book.specs.Seats.{Counted};
    ghost use Rattle.run_book.specs.Sitters.{sitter};

    ghost Value = { Known E };

    ghost view = { λ s. known s.place.table_id (sitter s.place.me.0) };

    ghost invariant = { λ s. Counted s.place.me s.number s.harts s.round s.own s.seen };
}

impl<E> Seat<E> {
    /// How many entries the seat has put, over all rounds.
    pub fn own(&self) -> usize
        ensures { result ≡ length self.now.own }
    {
        self.own
    }

    /// How many entries of the history the seat has seen, over all rounds.
    pub fn seen(&self) -> usize
        ensures { result ≡ length self.now.seen }
    {
        self.seen
    }
}
