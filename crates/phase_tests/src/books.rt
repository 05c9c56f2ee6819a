//! Books, through the public calls of the crate `run_book`: of entries that say whose turn they are, and nothing else.

ghost use Rattle.std.specs.Prelude.{◌≡◌};
ghost use Rattle.run_book.specs.Turns.{turn_of};
ghost use Rattle.run_book.specs.Working.{IsCalling, IsHonest};

use run_book::{Entry, Gathered, RunBook, Seat, Ticket};
use std::alloc::Global;
use std::process::Abort;
use std::sync::Wait;
use std::test::Fail;
use std::thread::{self, Threads};

/// An entry that has its ticket alone.
#[derive(Drop)]
struct Mark {
    ticket: Ticket,
}

impl Entry for Mark {
    ghost turn = { λ e. turn_of e.ticket.round e.ticket.hart };

    ghost seat = { λ e. e.ticket.seat };

    ghost right = { λ e. Unit {0} };

    fn turn_number(&self) -> u64 {
        self.ticket.turn()
    }

    ghost is_right = { λ e. tt };
}

/// Claims a hart of a round, and puts it at the first try. Says whether there was a hart left, and the lock was free.
fn put_one(book: &RunBook<Mark>, s: &mut Seat<Mark>, round: u32) -> bool
    requires { IsHonest (λ e. turn_of e.ticket.round e.ticket.hart) (λ e. e.ticket.seat)
        book.now.table book.now.harts s.old }
    ensures seat { IsHonest (λ e. turn_of e.ticket.round e.ticket.hart) (λ e. e.ticket.seat)
        book.now.table book.now.harts s.new }
    ensures number { s.new.number ≡ s.old.number }
    ensures round { s.new.round ≡ s.old.round }
{
    let Some(ticket) = book.claim(s, round) else {
        return false;
    };
    match book.try_put(s, Mark { ticket }) {
        Ok(()) => true,
        Err(_) => false,
    }
}

/// Whether the rounds of harts 0 and 1 are there, and no third.
fn has_two(gathered: &Gathered<Mark>) -> bool {
    gathered.is_complete()
        && gathered.get(0).is_some()
        && gathered.get(1).is_some()
        && gathered.get(2).is_none()
}

/// A seat that is alone with its book puts both harts of a round at its first tries, and takes the round out.
fn one_alone<R: Abort + Wait>(rt: &R, alloc: Global) {
    let (book, mut seat, _) = RunBook::<Mark>::open_for_run(alloc, 2, 1).expect(rt, "memory");
    let blank = Vec::with_capacity(alloc, 2).expect(rt, "memory");
    assert!(rt; seat.own() == 0 && put_one(&book, &mut seat, 0) && seat.own() == 1);
    assert!(rt; put_one(&book, &mut seat, 0) && !put_one(&book, &mut seat, 0) && seat.seen() == 2);
    let history = book
        .take_whole(rt, &mut seat, blank)
        .expect(rt, "a whole round");
    assert!(rt; has_two(&Gathered::new(0, 2, history)));
    assert!(rt; !put_one(&book, &mut seat, 0) && put_one(&book, &mut seat, 1));
    assert!(rt; (seat.own(), seat.seen()) == (3, 3));
}

/// Two seats of one thread put a hart each, and meet, and the book is closed.
fn two_meet<R: Abort>(rt: &R, alloc: Global) {
    let (book, mut seats) = RunBook::<Mark>::open(alloc, 2, 2).expect(rt, "memory");
    let mut second = seats.pop().expect(rt, "two seats");
    let mut first = seats.pop().expect(rt, "two seats");
    assert!(rt; put_one(&book, &mut first, 0) && put_one(&book, &mut second, 0));
    assert!(rt; (first.seen(), second.seen()) == (1, 2));
    book.meet(&mut first, &mut second);
    assert!(rt; (first.seen(), second.seen()) == (2, 2));
    assert!(rt; (first.own(), second.own()) == (1, 1));
    let mut all = Vec::with_capacity(alloc, 2).expect(rt, "memory");
    all.push_reserved(first);
    all.push_reserved(second);
    let history = book.close(all);
    assert!(rt; has_two(&Gathered::new(0, 2, history)));
}

/// Claims harts of round 0 and puts each, until there is none left.
fn put_all<R: Wait>(rt: &R, book: &RunBook<Mark>, s: &mut Seat<Mark>)
    requires { IsHonest (λ e. turn_of e.ticket.round e.ticket.hart) (λ e. e.ticket.seat)
        book.now.table book.now.harts s.old }
    ensures seat { IsHonest (λ e. turn_of e.ticket.round e.ticket.hart) (λ e. e.ticket.seat)
        book.now.table book.now.harts s.new }
{
    for _ in rt.forever() {
        let Some(ticket) = book.claim(s, 0) else {
            return;
        };
        book.put(rt, s, Mark { ticket });
    }
    unreachable!()
}

/// Each of two seats puts what it can of round 0 on a thread of its own.
fn put_beside<R: Threads + Wait + Sync>(
    rt: &R,
    book: &RunBook<Mark>,
    first: &mut Seat<Mark>,
    second: &mut Seat<Mark>,
)
    requires first { IsHonest (λ e. turn_of e.ticket.round e.ticket.hart) (λ e. e.ticket.seat)
        book.now.table book.now.harts first.old }
    requires second { IsHonest (λ e. turn_of e.ticket.round e.ticket.hart) (λ e. e.ticket.seat)
        book.now.table book.now.harts second.old }
    ensures first { IsHonest (λ e. turn_of e.ticket.round e.ticket.hart) (λ e. e.ticket.seat)
        book.now.table book.now.harts first.new }
    ensures second { IsHonest (λ e. turn_of e.ticket.round e.ticket.hart) (λ e. e.ticket.seat)
        book.now.table book.now.harts second.new }
{
    thread::join_mut(
        rt,
        &mut || put_all(rt, book, first),
        &mut || put_all(rt, book, second),
    );
}

/// Two seats of two threads put the harts of a round between them, and meet, and the book is closed.
fn two_share<R: Abort + Threads + Wait + Sync>(rt: &R, alloc: Global) {
    let (book, mut seats) = RunBook::<Mark>::open(alloc, 64, 2).expect(rt, "memory");
    let mut second = seats.pop().expect(rt, "two seats");
    let mut first = seats.pop().expect(rt, "two seats");
    put_beside(rt, &book, &mut first, &mut second);
    book.meet(&mut first, &mut second);
    assert!(rt; (first.seen(), second.seen()) == (64, 64));
    assert!(rt; first.own().checked_add(second.own()) == Some(64));
    let mut all = Vec::with_capacity(alloc, 2).expect(rt, "memory");
    all.push_reserved(first);
    all.push_reserved(second);
    assert!(rt; Gathered::new(0, 64, book.close(all)).is_complete());
}

/// A ticket that is dropped leaves its hart out.
fn one_left_out<R: Abort>(rt: &R, alloc: Global) {
    let (book, mut seats) = RunBook::<Mark>::open(alloc, 2, 1).expect(rt, "memory");
    let mut seat = seats.pop().expect(rt, "one seat");
    drop(book.claim(&mut seat, 0));
    assert!(rt; put_one(&book, &mut seat, 0) && seat.own() == 1);
    let mut all = Vec::with_capacity(alloc, 1).expect(rt, "memory");
    all.push_reserved(seat);
    let gathered = Gathered::new(0, 2, book.close(all));
    assert!(rt; !gathered.is_complete() && gathered.get(0).is_none() && gathered.get(1).is_some());
}

#[test]
fn a_seat_alone_puts_at_its_first_try(rt: HostRuntime) -> Result<(), Fail> {
    one_alone(&rt, rt.alloc());
    Ok(())
}

#[test]
fn two_seats_meet(rt: HostRuntime) -> Result<(), Fail> {
    two_meet(&rt, rt.alloc());
    Ok(())
}

#[test]
fn two_threads_share_a_round(rt: HostRuntime) -> Result<(), Fail> {
    two_share(&rt, rt.alloc());
    Ok(())
}

#[test]
fn a_dropped_ticket_leaves_its_hart_out(rt: HostRuntime) -> Result<(), Fail> {
    one_left_out(&rt, rt.alloc());
    Ok(())
}
