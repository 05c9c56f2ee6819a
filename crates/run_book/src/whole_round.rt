//! The rounds of a run, from the calling thread's seat.

ghost use Rattle.std.specs.Prelude.{◌≡◌, ◌+◌, ◌<◌, ◌≤◌, ◌^◌, ◌++◌, [], All, IfOk, IfSome, vec_capacity};
ghost use Rattle.run_book.specs.Working.{IsCalling, IsHonest, IsWhole};

use crate::book::RunBook;
use crate::entry::Entry;
use crate::seat::Seat;
use std::alloc::{AllocError, Global};
use std::sync::Wait;

impl<E: Entry> RunBook<E> {
    /// A book, the seat of the calling thread, which ends the rounds, and those of the other workers.
    pub fn open_for_run(
        alloc: Global,
        harts: u32,
        workers: u32,
    ) -> Result<(RunBook<E>, Seat<E>, Vec<Seat<E>>), AllocError>
        requires { 0 < workers }
        ensures harts { IfOk result (λ r. r.0.harts ≡ harts) }
        ensures calling { IfOk result (λ r. IsCalling E.turn E.seat r.0.table r.0.harts r.1) }
        ensures first { IfOk result (λ r. (r.1.round ≡ 0) × (r.1.seen ≡ [])) }
        ensures others { IfOk result (λ r.
            All (IsHonest E.turn E.seat r.0.table r.0.harts) r.2.items) }
    {
        let (book, mut seats) = RunBook::open(alloc, harts, workers)?;
        let calling = seats.remove(0);
        Ok((book, calling, seats))
    }

    /// Opens a round, if it isn't open yet. Those before it are passed over.
    ///
    /// # Errors
    ///
    /// `None` where something was claimed in the round that was open.
    pub fn open_round<R: Wait>(
        &self,
        rt: &R,
        s: &mut Seat<E>,
        round: u32,
        blank: Vec<E>,
    ) -> Option<Vec<E>>
        requires seat { IsCalling E.turn E.seat self.now.table self.now.harts s.old }
        requires later { s.old.round ≤ round }
        requires blank { (blank.items ≡ []) × (self.now.harts ≤ vec_capacity blank) }
        ensures seat { IfSome result (λ _.
            IsCalling E.turn E.seat self.now.table self.now.harts s.new) }
        ensures round { IfSome result (λ _. s.new.round ≡ round) }
        ensures seen { IfSome result (λ _. s.new.seen ≡ s.old.seen) }
        ensures blank { IfSome result (λ v. (v.items ≡ []) × (self.now.harts ≤ vec_capacity v)) }
    {
        if s.round == round {
            return Some(blank);
        }
        let Ok(passed) = self.end_round(rt, s, round, blank) else {
            return None;
        };
        if passed.is_empty() {
            Some(passed)
        } else {
            None
        }
    }

    /// Takes the history of the open round out, and opens the next one. What it gives is whole.
    ///
    /// # Errors
    ///
    /// `None` where a hart wasn't claimed, or was claimed and not put.
    pub fn take_whole<R: Wait>(&self, rt: &R, s: &mut Seat<E>, blank: Vec<E>) -> Option<Vec<E>>
        requires seat { IsHonest E.turn E.seat self.now.table self.now.harts s.old }
        requires number { s.old.number ≡ 0 }
        requires next { s.old.round + 1 < 2 ^ 32 }
        requires blank { (blank.items ≡ []) × (self.now.harts ≤ vec_capacity blank) }
        ensures seat { IfSome result (λ _.
            IsCalling E.turn E.seat self.now.table self.now.harts s.new) }
        ensures round { IfSome result (λ _. s.new.round ≡ s.old.round + 1) }
        ensures seen { IfSome result (λ es. s.new.seen ≡ s.old.gone ++ es.items) }
        ensures whole { IfSome result (λ es.
            IsWhole E.turn E.seat E.right s.old.round self.now.harts es.items) }
        ensures room { IfSome result (λ es. self.now.harts ≤ vec_capacity es) }
    {
        let next = s.round + 1;
        let Ok(history) = self.end_round(rt, s, next, blank) else {
            return None;
        };
        if history.len() == self.harts as usize {
            Some(history)
        } else {
            None
        }
    }
}
