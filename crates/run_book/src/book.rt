//! The book itself: opening it, claims, puts, the end of a round.

ghost use Rattle.std.specs.Prelude.{◌≡◌, ℕ, ◌+◌, ◌*◌, ◌<◌, ◌≤◌, ◌^◌, ◌++◌, [], ◌∷◌, true, false, length, IfOk, IfErr, OnOk, OnErr, IfSome, IfNone, vec_capacity};
ghost use Rattle.run_book.specs.Lists.{has};
ghost use Rattle.run_book.specs.Histories.{harts_of};
ghost use Rattle.run_book.specs.Sitters.{newcomers, sitter, with_turn};
ghost use Rattle.run_book.specs.Known.{Bound, Puts, TakesRound, fresh_seats};
ghost use Rattle.run_book.specs.Rule.{AtRest, Ended, HasTaken};
ghost use Rattle.run_book.specs.Turns.{turn_of};

use crate::entry::Entry;
use crate::rule::{Acquires, BookRule, Claims, Others, Releases, Returns, Turns};
use crate::seat::Seat;
use crate::sitter::{Sitters, Size};
use crate::slot::replace_slot;
use crate::ticket::Ticket;
use atomic_table::{Seat as Place, Shared, Table};
use crossbeam_utils::Backoff;
use std::alloc::{AllocError, Global};
use std::marker::Model;
use std::sync::Wait;

/// How many turns a round has room for: the first turn of a round is that many times its number.
pub(crate) const TURNS: u64 = 4_294_967_296;

/// The shared book of a run: in each round each hart is claimed once, and what was put is one history.
///
/// It is a table with two words, the lock and the count of turns, and a slot with the history of the round that is open. While the lock is
/// free, its word is the position of the next entry in the run's history, from 1 on, and while a seat holds it 0.
#[derive(Drop)]
pub struct RunBook<E: Entry> {
    pub(crate) table: Table<Vec<E>, Sitters<E>, Size, BookRule, Global>,
    // For the empty list that stands in the slot while a put has the history.
    pub(crate) alloc: Global,
    pub(crate) harts: u32,
}

impl<E: Entry> Model for RunBook<E> {
    ghost Value = { Bound };

    ghost view = { λ b. record {
      table = b.table.shared.table_id;
      harts = b.table.shared.key.harts;
      seats = b.table.shared.key.seats;
    } };

    ghost invariant = { λ b. (b.table.shared.table_id.words ≡ 2) × (b.table.shared.table_id.slots ≡
        1) × (b.harts ≡ b.table.shared.key.harts) × (0 < b.table.shared.key.seats) };
}

impl<E: Entry> RunBook<E> {
    /// A book for so many harts, with an empty history, and its seats. Round 0 is open.
    pub fn open(
        alloc: Global,
        harts: u32,
        seats: u32,
    ) -> Result<(RunBook<E>, Vec<Seat<E>>), AllocError>
        requires { 0 < seats }
        ensures book { IfOk result (λ r. (r.0.harts ≡ harts) × (r.0.seats ≡ seats)) }
        ensures seats { IfOk result (λ r. r.1.items ≡ fresh_seats r.0.table harts seats) }
    {
        let size = Size { harts, seats };
        let history = Vec::with_capacity(alloc, harts as usize)?;
        let mut slots = Vec::with_capacity(alloc, 1)?;
        slots.push_reserved(history);
        let places = Vec::with_capacity(alloc, seats as usize)?;
        let Ok((table, place)) = Table::new(alloc, &[1, 0], slots, &size) else {
            return Err(AllocError);
        };
        let dealt = deal(&table.shared, place, harts, seats, places);
        let book = RunBook {
            table,
            alloc,
            harts,
        };
        Ok((book, dealt))
    }

    /// How many harts a round has.
    pub fn harts(&self) -> u32
        ensures { result ≡ self.now.harts }
    {
        self.harts
    }

    /// Claims the next hart of a round that nobody claimed, or answers None where every hart of it is claimed, or another round is
    /// open, or other seats were always faster.
    pub fn claim(&self, s: &mut Seat<E>, round: u32) -> Option<Ticket>
        requires { s.old.table ≡ self.now.table }
        ensures named { IfSome result (λ t. (t.round ≡ round) × (t.seat ≡ s.old.number) ×
            (t.hart < self.now.harts)) }
        ensures new { IfSome result (λ t. has s.old.claims (turn_of round t.hart) ≡ false) }
        ensures claims { IfSome result (λ t. s.new ≡
            record s.old { claims = s.old.claims ++ turn_of round t.hart ∷ [] }) }
        ensures none { IfNone result (s.new ≡ s.old) }
    {
        for _ in 0..self.harts {
            let found = self.table.shared.peek(1);
            let hart = hart_in(found, round, self.harts)?;
            if let Some(ticket) = self.try_claim(s, round, hart) {
                return Some(ticket);
            }
        }
        None
    }

    /// Claims a hart of a round, if it is the next one.
    fn try_claim(&self, s: &mut Seat<E>, round: u32, hart: u32) -> Option<Ticket>
        requires table { s.old.table ≡ self.now.table }
        requires hart { (hart < self.now.harts) × (hart + 1 < 2 ^ 32) }
        ensures named { IfSome result (λ t. (t.round ≡ round) × (t.seat ≡ s.old.number) ×
            (t.hart ≡ hart)) }
        ensures new { IfSome result (λ t. has s.old.claims (turn_of round hart) ≡ false) }
        ensures claims { IfSome result (λ t. s.new ≡
            record s.old { claims = s.old.claims ++ turn_of round hart ∷ [] }) }
        ensures none { IfNone result (s.new ≡ s.old) }
    {
        let old = u64::from(round) * TURNS + u64::from(hart);
        let words = &self.table.shared;
        if words.compare_exchange::<Claims>(&mut s.place, 1, old, old + 1) != old {
            return None;
        }
        Some(Ticket {
            round,
            hart,
            seat: s.number,
        })
    }

    /// Puts an entry, or hands it back where another seat holds the lock. It tries once and waits for nobody.
    ///
    /// # Errors
    ///
    /// The entry, unchanged; the seat is as it was.
    pub fn try_put(&self, s: &mut Seat<E>, e: E) -> Result<(), E>
        requires table { s.old.table ≡ self.now.table }
        requires claimed { (E.seat e ≡ s.old.number) × (has s.old.claims (E.turn e) ≡ true) }
        requires unput { has (harts_of E.turn E.seat s.old.own) (E.turn e) ≡ false }
        ensures put { OnOk result (Puts E.turn E.seat E.right s.old e s.new) }
        ensures back { IfErr result (λ r. r ≡ e) }
        ensures same { IfErr result (λ r. s.new ≡ s.old) }
    {
        let words = &self.table.shared;
        let Ok((mut history, position)) = try_take(words, &mut s.place, Vec::new(self.alloc)) else {
            return Err(e);
        };
        history.push_reserved(e);
        s.own += 1;
        s.seen = position as usize;
        let nothing = replace_slot(words, &mut s.place, history);
        nothing.destroy_empty();
        words.store::<Releases>(&mut s.place, 0, position + 1);
        Ok(())
    }

    /// Puts an entry. It tries again until it has the lock.
    pub fn put<R: Wait>(&self, rt: &R, s: &mut Seat<E>, mut e: E)
        requires table { s.old.table ≡ self.now.table }
        requires claimed { (E.seat e ≡ s.old.number) × (has s.old.claims (E.turn e) ≡ true) }
        requires unput { has (harts_of E.turn E.seat s.old.own) (E.turn e) ≡ false }
        ensures { Puts E.turn E.seat E.right s.old e s.new }
    {
        let backoff = Backoff::new();
        for _ in rt.forever() {
            match self.try_put(s, e) {
                Ok(()) => return,
                Err(back) => e = back,
            }
            backoff.snooze();
        }
        unreachable!()
    }

    /// Takes the history of the open round out, once all that was claimed in it is put, and opens a later round. The empty list takes
    /// its place. Only the seat with number 0 ends rounds. It may wait.
    ///
    /// # Errors
    ///
    /// Something that was claimed isn't put. The list is handed back, and the round stays open.
    pub fn end_round<R: Wait>(
        &self,
        rt: &R,
        s: &mut Seat<E>,
        next: u32,
        blank: Vec<E>,
    ) -> Result<Vec<E>, Vec<E>>
        requires table { s.old.table ≡ self.now.table }
        requires number { s.old.number ≡ 0 }
        requires later { s.old.round < next }
        requires blank { (blank.items ≡ []) × (self.now.harts ≤ vec_capacity blank) }
        ensures taken { IfOk result (λ es.
            TakesRound E.turn E.seat E.right s.old next es.items s.new) }
        ensures room { IfOk result (λ es. s.old.harts ≤ vec_capacity es) }
        ensures back { IfErr result (λ v. v ≡ blank) }
        ensures same { OnErr result (s.new ≡ record s.old { seen = s.new.seen }) }
    {
        let _harts = s.harts;
        let words = &self.table.shared;
        let (history, position) = take(rt, words, &mut s.place, blank);
        s.seen = position as usize - 1;
        let count = history.len() as u32;
        if try_turn(words, &mut s.place, s.round, next, count) {
            words.store::<Returns>(&mut s.place, 0, position);
            s.round = next;
            return Ok(history);
        }
        let back = replace_slot(words, &mut s.place, history);
        words.store::<Returns>(&mut s.place, 0, position);
        Err(back)
    }
}

/// The hart of a round whose turn this is.
fn hart_in(turn: u64, round: u32, harts: u32) -> Option<u32>
    ensures { IfSome result (λ h. (turn ≡ turn_of round h) × (h < harts) × (h + 1 < 2 ^ 32)) }
{
    let first = u64::from(round) * TURNS;
    if turn < first || turn - first >= u64::from(harts) {
        return None;
    }
    Some((turn - first) as u32)
}

/// Takes the history out of the slot, and leaves the other list there. It tries again until it has the lock. The number is the position of
/// the next entry in the run's history, from 1 on.
fn take<E: Entry, R: Wait>(
    rt: &R,
    words: &Shared<Vec<E>, Sitters<E>, Size, BookRule>,
    place: &mut Place<Vec<E>, Sitters<E>>,
    mut blank: Vec<E>,
) -> (Vec<E>, u64)
    requires table { (place.old.table_id ≡ words.now.table_id) × (words.now.table_id.words ≡ 2) }
    requires rest { AtRest place.old.me }
    ensures table { place.new.table_id ≡ place.old.table_id }
    ensures taken { HasTaken (λ v. v.items) (λ v. vec_capacity v) E.turn E.seat result.1
        (sitter place.old.me.0) result.0 blank place.new.me }
{
    let backoff = Backoff::new();
    for _ in rt.forever() {
        match try_take(words, place, blank) {
            Ok(taken) => return taken,
            Err(back) => blank = back,
        }
        backoff.snooze();
    }
    unreachable!()
}

/// The same at the first try, if the lock is free.
///
/// # Errors
///
/// The other list; the place is as it was.
fn try_take<E: Entry>(
    words: &Shared<Vec<E>, Sitters<E>, Size, BookRule>,
    place: &mut Place<Vec<E>, Sitters<E>>,
    blank: Vec<E>,
) -> Result<(Vec<E>, u64), Vec<E>>
    requires table { (place.old.table_id ≡ words.now.table_id) × (words.now.table_id.words ≡ 2) }
    requires rest { AtRest place.old.me }
    ensures table { place.new.table_id ≡ place.old.table_id }
    ensures taken { IfOk result (λ h. HasTaken (λ v. v.items) (λ v. vec_capacity v) E.turn E.seat
        h.1 (sitter place.old.me.0) h.0 blank place.new.me) }
    ensures back { IfErr result (λ v. v ≡ blank) }
    ensures same { IfErr result (λ v. place.new.me ≡ place.old.me) }
{
    let position = words.swap::<Acquires>(place, 0, 0);
    if position == 0 {
        return Err(blank);
    }
    Ok((replace_slot(words, place, blank), position))
}

/// Opens a later round, if all that was claimed in this one, so many turns, stands in the slot.
fn try_turn<E: Entry>(
    words: &Shared<Vec<E>, Sitters<E>, Size, BookRule>,
    place: &mut Place<Vec<E>, Sitters<E>>,
    round: u32,
    next: u32,
    count: u32,
) -> bool
    requires table { (place.old.table_id ≡ words.now.table_id) × (words.now.table_id.words ≡ 2) }
    requires later { round < next }
    requires number { (sitter place.old.me.0).number ≡ 0 }
    requires holds { (place.old.me.0 ≡ sitter place.old.me.0 ∷ []) ×
        ((sitter place.old.me.0).holding ≡ true) ×
        (length (sitter place.old.me.0).page ≡ count) }
    ensures table { place.new.table_id ≡ place.old.table_id }
    ensures turned { result ≡ true → (place.new.me.1 ≡ place.old.me.1) ×
        (place.new.me.0 ≡ with_turn next (sitter place.old.me.0) ∷ []) ×
        Ended E.turn E.seat (turn_of round count)
        (sitter place.old.me.0) }
    ensures same { result ≡ false → place.new.me ≡ place.old.me }
{
    let old = u64::from(round) * TURNS + u64::from(count);
    let first = u64::from(next) * TURNS;
    words.compare_exchange::<Turns>(place, 1, old, first) == old
}

/// Cuts the first place into as many as there are seats, each with one sitter, and puts the seats into a list with room.
fn deal<E: Entry>(
    table: &Shared<Vec<E>, Sitters<E>, Size, BookRule>,
    first: Place<Vec<E>, Sitters<E>>,
    harts: u32,
    count: u32,
    mut seats: Vec<Seat<E>>,
) -> Vec<Seat<E>>
    requires table { (first.table_id ≡ table.now.table_id) × (0 < table.now.table_id.words) }
    requires view { first.me ≡ (newcomers harts count, []) }
    requires room { (seats.items ≡ []) × (count ≤ vec_capacity seats) }
    ensures { result.items ≡ fresh_seats table.now.table_id harts count }
{
    let mut rest = first;
    for number in 0..count {
        let others = table.split_seat::<Others>(&mut rest);
        seats.push_reserved(Seat {
            place: rest,
            number,
            harts,
            round: 0,
            own: 0,
            seen: 0,
        });
        rest = others;
    }
    seats
}
