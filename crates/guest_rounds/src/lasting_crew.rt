ghost use Rattle.std.specs.Prelude.{◌≡◌, ◌<◌, ◌≤◌, ◌+◌, ◌^◌, ℕ, length, IfOk, [], ◌∷◌};
ghost use Rattle.hart_rounds.specs.Starts.{keeps_log};
ghost use Rattle.parallel_phase.specs.Rounds.{HasGatheredRounds, IsWholeHistory};
ghost use Rattle.guest_rounds.specs.Crews.{MayShare};
ghost use Rattle.guest_rounds.specs.NextStarts.{AreOfGuest, next_start};
ghost use Rattle.round_schedule.specs.Bounds.{AreWorkers};

use crate::crew::{Crew, MANY_LINES};
use crate::guest::GuestState;
use crate::parallel::{set_quotas, take_ends};
use hart_rounds::{HartEnd, LogForm};
use hart_step::{Access, DecodedCode, Hart};
use lasting_workers::{Board, BorrowedStart, PostedStart};
use pages::{OutOfMemory, Pages};
use parallel_phase::{HartRound, Open, RunStarts};
use round_planner::Plan;
use run_book::Seat;
use serial_phase::SharedState;
use std::alloc::Global;
use std::mem;
use std::sync::Wait;

/// Workers that last for a run, with what the calling thread needs to share rounds with them.
#[derive(Drop)]
pub struct LastingCrew<'a, S: RunStarts, R> {
    /// Who commits: threads are started for a commit of many lines.
    pub crew: Crew<'a, Open, R>,
    /// Where the starts of rounds are posted.
    board: &'a Board<S>,
    /// The calling thread's seat at the book of the run: it ends the rounds.
    seat: Seat<HartRound<S>>,
    /// An empty list, which takes the place of the next history.
    blank: Vec<HartRound<S>>,
    /// Room for the accesses of one hart's round at a time.
    room: Vec<Access>,
    /// What stands in the guest while the workers hold what they borrow of it.
    stand_in: Option<BorrowedStart>,
    ghost within: { AreWorkers crew.workers },
}

impl<'a, S: RunStarts, R> LastingCrew<'a, S, R> {
    /// A crew that shares rounds by this board, with the seat of the calling thread. This takes no memory.
    pub fn new(
        rt: &'a R,
        alloc: Global,
        board: &'a Board<S>,
        seat: Seat<HartRound<S>>,
        form: LogForm,
    ) -> LastingCrew<'a, S, R>
        ensures form { result.crew.form ≡ form }
        ensures board { result.board.now ≡ board.now }
        ensures seat { result.seat ≡ seat }
        ensures blank { result.blank.items ≡ [] }
    {
        LastingCrew {
            crew: Crew {
                rt,
                workers: board.workers,
                gate: &Open,
                least_lines: MANY_LINES,
                form,
            },
            board,
            seat,
            blank: Vec::new(alloc),
            room: Vec::new(alloc),
            stand_in: None,
        }
    }

    /// What may stand in a guest for a while, with room for the quotas of so many harts.
    fn take_stand_in(&mut self, alloc: Global, harts: usize) -> Result<BorrowedStart, OutOfMemory>
        ensures sized { IfOk result (λ p. length p.quotas.items ≡ harts) }
        ensures form { IfOk result (λ p. p.form ≡ self.old.crew.form) }
        ensures crew { self.new.crew.form ≡ self.old.crew.form }
        ensures kept { (self.new.board.now.book ≡ self.old.board.now.book) ×
            (self.new.seat ≡ self.old.seat) × (self.new.blank.items ≡ self.old.blank.items) }
    {
        let form = self.crew.form;
        let Some(mut borrowed) = self.stand_in.take() else {
            return stand_in(alloc, harts, form);
        };
        if borrowed.quotas.len() != harts {
            drop(borrowed);
            return stand_in(alloc, harts, form);
        }
        borrowed.form = form;
        Ok(borrowed)
    }
}

/// A page of memory, and no hart.
fn stand_in(alloc: Global, harts: usize, form: LogForm) -> Result<BorrowedStart, OutOfMemory>
    ensures sized { IfOk result (λ p. length p.quotas.items ≡ harts) }
    ensures form { IfOk result (λ p. p.form ≡ form) }
{
    let quotas = Vec::from_elem(alloc, 0, harts)?;
    let pages = Pages::new(alloc, 1, &[], &[])?;
    let code = DecodedCode::new(alloc, &pages, 0, 0)?;
    Ok(BorrowedStart {
        pages,
        code,
        harts: Vec::new(alloc),
        quotas,
        form,
    })
}

/// Has what is borrowed change places with what stands in a guest.
// docs/decisions/threads.md
fn swap_borrowed(harts: &mut Vec<Hart>, shared: &mut SharedState, borrowed: &mut BorrowedStart)
    ensures harts { harts.new ≡ borrowed.old.harts }
    ensures shared { shared.new ≡ record shared.old {
      pages = borrowed.old.pages;
      code = borrowed.old.code;
      shows = borrowed.old.shows;
    } }
    ensures borrowed { borrowed.new ≡ record borrowed.old {
      pages = shared.old.pages;
      code = shared.old.code;
      shows = shared.old.shows;
      harts = harts.old;
    } }
{
    mem::swap(harts, &mut borrowed.harts);
    mem::swap(&mut shared.pages, &mut borrowed.pages);
    mem::swap(&mut shared.code, &mut borrowed.code);
}

impl<S: RunStarts, R: Wait> LastingCrew<'_, S, R> {
    /// Does the rounds of all harts of a guest after so many rounds, whose next one starts as the run says. Refused or not, the guest
    /// is as it was.
    pub fn do_parallel(
        &mut self,
        guest: &mut GuestState,
        plan: &Plan,
        done: u32,
    ) -> Result<Vec<HartEnd>, OutOfMemory>
        requires start { S.starts done ≡
            next_start (keeps_log self.old.crew.form) plan.now done guest.old }
        requires harts { length guest.old.harts ≡ plan.now.harts }
        requires done { done + 1 < 2 ^ 32 }
        requires may { MayShare done plan.now.harts self.old.board.now.book self.old.seat
            self.old.blank.items }
        ensures guest { guest.new ≡ guest.old }
        ensures form { self.new.crew.form ≡ self.old.crew.form }
        ensures whole { IfOk result (λ os. IsWholeHistory (next_start
            (keeps_log self.old.crew.form) plan.now done guest.old) os.items) }
        ensures ends { IfOk result (λ os.
            AreOfGuest (keeps_log self.old.crew.form) plan.now done guest.old os.items) }
        ensures may { IfOk result (λ _. MayShare (done + 1) plan.now.harts self.new.board.now.book
            self.new.seat self.new.blank.items) }
        ensures gathered { IfOk result (λ _. HasGatheredRounds (done ∷ []) plan.now.harts
            self.old.seat self.new.seat) }
    {
        let alloc = guest.shared.pages.allocator();
        // At most 64.
        let _harts = plan.harts();
        let mut borrowed = self.take_stand_in(alloc, guest.harts.len())?;
        let mut spare = guest.spare.take_ends(alloc);
        // The round before has what it left until here: two rounds' stores would be in memory at once.
        spare.clear();
        set_quotas(plan, done + 1, borrowed.quotas.as_mut_slice());
        swap_borrowed(&mut guest.harts, &mut guest.shared, &mut borrowed);
        let start = PostedStart::new(done, borrowed);
        let (start, ends) = self.share(start, spare);
        let mut borrowed = start.into_borrowed();
        swap_borrowed(&mut guest.harts, &mut guest.shared, &mut borrowed);
        drop(self.stand_in.replace(borrowed));
        ends
    }

    /// Shares the rounds of a start, and gives it back with what they left, in hart order, in an empty list that is taken for its capacity.
    fn share(
        &mut self,
        start: PostedStart<S>,
        spare: Vec<HartEnd>,
    ) -> (PostedStart<S>, Result<Vec<HartEnd>, OutOfMemory>)
        requires empty { spare.items ≡ [] }
        requires done { start.done + 1 < 2 ^ 32 }
        requires may { MayShare start.done (length start.borrowed.harts.items)
            self.old.board.now.book self.old.seat self.old.blank.items }
        ensures start { result.0 ≡ start }
        ensures whole { IfOk result.1 (λ os. IsWholeHistory (S.starts start.done) os.items) }
        ensures form { self.new.crew.form ≡ self.old.crew.form }
        ensures may { IfOk result.1 (λ _. MayShare (start.done + 1)
            (length start.borrowed.harts.items) self.new.board.now.book self.new.seat
            self.new.blank.items) }
        ensures gathered { IfOk result.1 (λ _. HasGatheredRounds (start.done ∷ [])
            (length start.borrowed.harts.items) self.old.seat self.new.seat) }
    {
        let alloc = start.borrowed.pages.allocator();
        let mut blank = mem::replace(&mut self.blank, Vec::new(alloc));
        if blank.reserve(self.board.book.harts() as usize).is_err() {
            return (start, Err(OutOfMemory));
        }
        let (start, history) = self
            .board
            .share(self.crew.rt, start, &mut self.seat, blank, &mut self.room);
        let Some(mut history) = history else {
            return (start, Err(OutOfMemory));
        };
        let ends = take_ends(&start.lent(), start.done, &mut history, spare);
        self.blank = history;
        (start, ends)
    }
}
