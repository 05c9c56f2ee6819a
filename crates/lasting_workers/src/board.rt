ghost use Rattle.std.specs.Prelude.{◌≡◌, ◌<◌, ◌≤◌, ◌+◌, ◌^◌, [], All, IfOk, IfSome, length, vec_capacity};
ghost use Rattle.std.specs.Arc.{arc_value};
ghost use Rattle.lasting_workers.specs.Sharing.{HasShared};
ghost use Rattle.parallel_phase.specs.Rounds.{IsCaller, IsWorker};
ghost use Rattle.run_book.specs.Working.{KeepsRound};
ghost use Rattle.round_schedule.specs.Bounds.{AreWorkers};

use crate::posted_start::PostedStart;
use crate::postings::Postings;
use hart_step::Access;
use pages::OutOfMemory;
use parallel_phase::{HartRound, Open, RunStarts, take_part};
use run_book::{RunBook, Seat};
use std::alloc::Global;
use std::sync::{Arc, Condvar, Mutex, Wait};

/// Where workers that last sleep between the rounds of a run, and find the start of the next one, beside the book that they share. What
/// they claim and put goes by the book alone.
// docs/decisions/threads.md
#[derive(Drop)]
pub struct Board<S: RunStarts> {
    alloc: Global,
    /// How many workers it is for.
    pub workers: u32,
    /// The book of the run.
    pub book: RunBook<HartRound<S>>,
    posted: Mutex<Postings<S>>,
    // Told to those who serve: a start was posted, or the board is closed.
    news: Condvar,
    // Told to the one who posts: a worker left.
    leaving: Condvar,
    ghost within: { AreWorkers workers },
}

impl<S: RunStarts> Board<S> {
    /// A board with no start for so many workers, with the book of a run of so many harts; the seat of the one who posts, and those of
    /// the other workers.
    pub fn open(
        alloc: Global,
        harts: u32,
        workers: u32,
    ) -> Result<(Board<S>, Seat<HartRound<S>>, Vec<Seat<HartRound<S>>>), OutOfMemory>
        requires { AreWorkers workers }
        ensures workers { IfOk result (λ r. r.0.workers ≡ workers) }
        ensures harts { IfOk result (λ r. r.0.book.harts ≡ harts) }
        ensures caller { IfOk result (λ r. IsCaller r.0.book.table r.0.book.harts r.1) }
        ensures first { IfOk result (λ r. (r.1.round ≡ 0) × (r.1.seen ≡ [])) }
        ensures others { IfOk result (λ r. All (IsWorker r.0.book.table r.0.book.harts) r.2.items) }
    {
        let Ok((book, seat, others)) = RunBook::<HartRound<S>>::open_for_run(alloc, harts, workers)
        else {
            return Err(OutOfMemory);
        };
        let board = Board {
            alloc,
            workers,
            book,
            posted: Mutex::new(Postings {
                start: None,
                count: 0,
                holders: 0,
                closed: false,
            }),
            news: Condvar::new(),
            leaving: Condvar::new(),
        };
        Ok((board, seat, others))
    }

    /// Works on each start that is posted, with a seat that the worker keeps, until the board is closed. Threads do so at once.
    pub fn serve<R: Wait>(&self, rt: &R, mut seat: Seat<HartRound<S>>)
        requires { IsWorker self.now.book.table self.now.book.harts seat }
    {
        let mut seen = 0;
        let mut room = Vec::new(self.alloc);
        for _ in rt.forever() {
            let Some(start) = self.next_start(rt, &mut seen) else {
                return;
            };
            self.work(rt, &start, &mut seat, &mut room);
            drop(start);
            self.leave(rt);
        }
    }

    /// Takes part in a round, if it has the harts of the book.
    fn work<R: Wait>(
        &self,
        rt: &R,
        start: &PostedStart<S>,
        seat: &mut Seat<HartRound<S>>,
        room: &mut Vec<Access>,
    )
        requires { IsWorker self.now.book.table self.now.book.harts seat.old }
        ensures seat { IsWorker self.now.book.table self.now.book.harts seat.new }
        ensures kept { KeepsRound seat.old seat.new }
    {
        let lent = start.lent();
        if self.book.harts() as usize <= lent.harts().len() {
            take_part(rt, &lent, start.done, &self.book, seat, &Open, room);
        }
    }

    /// A worker has let the start go.
    fn leave<R: Wait>(&self, rt: &R) {
        let mut posted = self.posted.lock(rt);
        posted.holders = posted.holders.wrapping_sub(1);
        drop(posted);
        self.leaving.notify_one();
    }

    /// The next start that this worker has not seen, or none once the board is closed.
    fn next_start<R: Wait>(&self, rt: &R, seen: &mut u64) -> Option<Arc<PostedStart<S>, Global>> {
        let mut posted = self.posted.lock(rt);
        for _ in rt.forever() {
            if posted.closed {
                return None;
            }
            if let Some(start) = posted.take_start(seen) {
                return Some(start);
            }
            posted = self.news.wait(rt, posted);
        }
        unreachable!()
    }

    /// Posts a start, works on it beside those who serve, and gives it back with the history of its round, which the seat takes out of
    /// the book: it is whole. The empty list takes its place.
    ///
    /// # Errors
    ///
    /// `None` where a worker was refused memory. The book serves no further round then.
    pub fn share<R: Wait>(
        &self,
        rt: &R,
        start: PostedStart<S>,
        seat: &mut Seat<HartRound<S>>,
        blank: Vec<HartRound<S>>,
        room: &mut Vec<Access>,
    ) -> (PostedStart<S>, Option<Vec<HartRound<S>>>)
        requires seat { IsCaller self.now.book.table self.now.book.harts seat.old }
        requires later { (seat.old.round ≤ start.done) × (start.done + 1 < 2 ^ 32) }
        requires blank { (blank.items ≡ []) × (self.now.book.harts ≤ vec_capacity blank) }
        ensures start { result.0 ≡ start }
        ensures shared { IfSome result.1 (λ es. HasShared self.now.book.table start.done
            self.now.book.harts seat.old es.items seat.new) }
        ensures room { IfSome result.1 (λ es. self.now.book.harts ≤ vec_capacity es) }
    {
        let Some(blank) = self.book.open_round(rt, seat, start.done, blank) else {
            return (start, None);
        };
        let start = self.work_beside(rt, start, seat, room);
        let Some(history) = self.book.take_whole(rt, seat, blank) else {
            return (start, None);
        };
        (start, Some(history))
    }

    /// Posts a start, works on it beside those who serve, and takes it back. Where it can't be posted the calling thread works alone.
    fn work_beside<R: Wait>(
        &self,
        rt: &R,
        start: PostedStart<S>,
        seat: &mut Seat<HartRound<S>>,
        room: &mut Vec<Access>,
    ) -> PostedStart<S>
        requires { IsWorker self.now.book.table self.now.book.harts seat.old }
        ensures start { result ≡ start }
        ensures seat { IsWorker self.now.book.table self.now.book.harts seat.new }
        ensures kept { KeepsRound seat.old seat.new }
    {
        let shared = match Arc::new(self.alloc, start) {
            Ok(shared) => shared,
            Err(refused) => {
                let start = refused.value;
                self.work(rt, &start, seat, room);
                return start;
            }
        };
        self.post(rt, &shared);
        self.work(rt, &shared, seat, room);
        self.recall(rt);
        sole(rt, shared)
    }

    /// Posts a start.
    fn post<R: Wait>(&self, rt: &R, start: &Arc<PostedStart<S>, Global>) {
        let mut posted = self.posted.lock(rt);
        posted.start = Arc::try_clone(start).ok();
        posted.count = posted.count.wrapping_add(1);
        drop(posted);
        self.news.notify_all();
    }

    /// Takes the start from the board, and waits until no worker holds it.
    fn recall<R: Wait>(&self, rt: &R) {
        let mut posted = self.posted.lock(rt);
        posted.start = None;
        for _ in rt.forever() {
            if posted.holders == 0 {
                break;
            }
            posted = self.leaving.wait(rt, posted);
        }
    }

    /// Ends what serves the board.
    pub fn close<R: Wait>(&self, rt: &R) {
        self.posted.lock(rt).closed = true;
        self.news.notify_all();
    }
}

/// The value that no other thread holds any more. It waits until that is so.
fn sole<T, R: Wait>(rt: &R, shared: Arc<T, Global>) -> T
    ensures { result ≡ arc_value shared }
{
    let mut shared = shared;
    for _ in rt.forever() {
        match Arc::try_unwrap(shared) {
            Ok(value) => return value,
            Err(back) => shared = back,
        }
    }
    unreachable!()
}
