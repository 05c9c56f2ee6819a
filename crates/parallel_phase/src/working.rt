//! What one worker does in a round, and all of them.

ghost use Rattle.std.specs.Prelude.{◌≡◌, ◌≤◌, length, All};
ghost use Rattle.parallel_phase.specs.Rounds.{IsWorker};
ghost use Rattle.run_book.specs.Working.{KeepsRound};

use crate::beside::{Work, work_on_each};
use crate::claimed_round::HartRound;
use crate::gate::Gate;
use crate::rounds::hart_round;
use crate::run_starts::RunStarts;
use hart_rounds::RoundStart;
use hart_step::Access;
use run_book::{RunBook, Seat};
use std::sync::Wait;
use std::thread::Threads;

/// Claims harts of a round and puts their rounds until every hart is claimed, or memory is refused. `room` is taken for the accesses
/// of a hart's round while it goes on.
pub fn take_part<S: RunStarts, G: Gate, R: Wait>(
    rt: &R,
    start: &RoundStart<'_>,
    round: u32,
    book: &RunBook<HartRound<S>>,
    seat: &mut Seat<HartRound<S>>,
    gate: &G,
    room: &mut Vec<Access>,
)
    requires start { start.now ≡ S.starts round }
    requires harts { book.now.harts ≤ length start.now.harts }
    requires seat { IsWorker book.now.table book.now.harts seat.old }
    ensures seat { IsWorker book.now.table book.now.harts seat.new }
    ensures kept { KeepsRound seat.old seat.new }
{
    for _ in rt.forever() {
        let Some(ticket) = book.claim(seat, round) else {
            return;
        };
        let hart = ticket.hart();
        gate.pass(hart);
        let Ok(entry) = hart_round::<S>(ticket, start, room) else {
            return;
        };
        book.put(rt, seat, entry);
        gate.done(hart);
    }
    unreachable!()
}

/// What every worker of a round works with.
#[derive(Drop)]
struct Worker<'a, 'b, S: RunStarts, G, R> {
    rt: &'a R,
    start: &'a RoundStart<'b>,
    round: u32,
    book: &'a RunBook<HartRound<S>>,
    gate: &'a G,
}

impl<'a, 'b, S: RunStarts, G: Gate, R: Wait> Work<Seat<HartRound<S>>> for Worker<'a, 'b, S, G, R> {
    ghost asks = { λ w k. (w.start.now ≡ S.starts w.round) ×
        (w.book.now.harts ≤ length w.start.now.harts) ×
        IsWorker w.book.now.table w.book.now.harts k };

    ghost leaves = { λ w k l. IsWorker w.book.now.table w.book.now.harts l × KeepsRound k l };

    fn work(&self, seat: &mut Seat<HartRound<S>>) {
        let mut room = Vec::new(self.start.pages().allocator());
        take_part(
            self.rt, self.start, self.round, self.book, seat, self.gate, &mut room,
        )
    }
}

/// Gives each seat to a worker of its own: the calling thread has one, and the others are started.
pub(crate) fn work_all<S: RunStarts + Send + Sync, G: Gate + Sync, R: Threads + Wait + Sync>(
    rt: &R,
    start: &RoundStart<'_>,
    round: u32,
    book: &RunBook<HartRound<S>>,
    gate: &G,
    seat: &mut Seat<HartRound<S>>,
    others: &mut [Seat<HartRound<S>>],
)
    requires start { start.now ≡ S.starts round }
    requires harts { book.now.harts ≤ length start.now.harts }
    requires seat { IsWorker book.now.table book.now.harts seat.old }
    requires others { All (λ k. IsWorker book.now.table book.now.harts k) others.old }
    ensures seat { IsWorker book.now.table book.now.harts seat.new }
    ensures kept { KeepsRound seat.old seat.new }
{
    let worker = Worker {
        rt,
        start,
        round,
        book,
        gate,
    };
    work_on_each(rt, &worker, seat, others);
}
