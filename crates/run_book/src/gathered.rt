ghost use Rattle.std.specs.Prelude.{◌≡◌, ◌↔◌, ◌-◌, ◌<◌, ℕ, IfSome, IsTrue, option_map};
ghost use Rattle.run_book.specs.Histories.{SameTable, entry_of, harts_of};
ghost use Rattle.run_book.specs.Lists.{Apart, times};
ghost use Rattle.run_book.specs.Turns.{first_turn, turn_of};

use crate::book::TURNS;
use crate::entry::Entry;
use std::marker::Model;

/// What a round has gathered: the history of its puts, as it was taken out of a book.
#[derive(Drop)]
pub struct Gathered<E: Entry> {
    history: Vec<E>,
    round: u32,
    harts: u32,
}

impl<E: Entry> Model for Gathered<E> {
    ghost use Rattle.run_book.specs.Histories.{harts_of};
    ghost use Rattle.run_book.specs.Known.{Collected};
    ghost use Rattle.run_book.specs.Lists.{Apart};

    ghost Value = { Collected E };

    ghost view = { λ g. record { round = g.round; harts = g.harts; history = g.history.items } };

    ghost invariant = { λ g. Apart (harts_of E.turn E.seat g.history.items) };
}

impl<E: Entry> Gathered<E> {
    /// The history of a round of so many harts.
    pub fn new(round: u32, harts: u32, history: Vec<E>) -> Gathered<E>
        requires { Apart (harts_of E.turn E.seat history.items) }
        ensures { result ≡ record { round = round; harts = harts; history = history.items } }
    {
        Gathered {
            history,
            round,
            harts,
        }
    }

    /// The entry of a hart, if it was put.
    pub fn get(&self, hart: u32) -> Option<&E>
        ensures entry { option_map (λ e. e.now) result ≡
            entry_of E.turn E.seat (turn_of self.now.round hart) self.now.history }
        ensures right { IfSome result (λ e. E.right e.now) }
    {
        let turn = u64::from(self.round) * TURNS + u64::from(hart);
        self.history.iter().find(|e| e.turn_number() == turn)
    }

    /// Whether each hart was put. Any two complete legal histories of a round leave the same entries.
    pub fn is_complete(&self) -> bool
        ensures complete { IsTrue result ↔ ((h : ℕ) → h < self.now.harts →
            times (turn_of self.now.round h) (harts_of E.turn E.seat self.now.history) ≡ 1) }
        ensures law { SameTable (λ e. E.turn e - first_turn self.now.round) E.seat E.right
            self.now.harts }
    {
        for h in 0..self.harts {
            if self.get(h).is_none() {
                return false;
            }
        }
        true
    }
}
