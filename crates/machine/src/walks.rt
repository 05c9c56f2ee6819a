//! Walks over a run: round after round, on the calling thread, or by workers whose threads are started once for many rounds.
ghost use Rattle.std.specs.Prelude.{◌≡◌, ◌<◌, ◌≤◌, ◌+◌, ◌-◌, ◌^◌, ◌⊎◌, ◌++◌, ℕ, List, [], ◌∷◌, true, IfOk, IfSome, MatchBool, OnOk, OnErr};
ghost use denote.Param.Send.{IsSync};
ghost use Rattle.round_schedule.specs.declared.event.Event.{Event};
ghost use Rattle.hart_rounds.specs.Starts.{keeps_log};
ghost use Rattle.guest_rounds.specs.Crews.{MayShare};
ghost use Rattle.parallel_phase.specs.Rounds.{HasGatheredRounds, IsCaller, IsWorker};
ghost use Rattle.machine.specs.RoundStarts.{AreOfNext, next_start_of, start_at};
ghost use Rattle.machine.specs.Untraced.{HasRun, MayGoOn, RanFor, next_events, untraced_round};
ghost use Rattle.machine.specs.Walks.{AreSeats, HasDone, HasEnded, HasLearned, HasSeats, HasShared, HasStopped, HasWalked, IsCutOff, IsUpToDate, MayWalk};
ghost use Rattle.round_schedule.specs.Bounds.{AreWorkers};

use crate::untraced::UntracedMachine;
use crate::visiting::{Next, Visitor};
use guest_rounds::{Crew, EventKeeper, LastingCrew, NoTrace};
use hart_rounds::HartEnd;
use lasting_workers::Board;
use pages::OutOfMemory;
use parallel_phase::{HartRound, RunStarts};
use run_book::Seat;
use std::marker::Brand;
use std::sync::Wait;
use std::thread::{self, Threads};

/// What a part of a walk is to be.
#[derive(Clone, Copy)]
pub(crate) struct Stretch {
    /// How many rounds it is to have.
    rounds: u32,
    /// It ends early before a round that is worth more than one of so many workers. With 1 there is no such round.
    most_workers: u32,
}

/// What a part of a walk was.
#[derive(Clone, Copy)]
pub(crate) struct Walked {
    /// How many rounds are done.
    rounds: u32,
    /// How many of them were shared.
    shared: u32,
    /// Whether it ended before a round that is worth more workers.
    wants_workers: bool,
}

/// The seats of a run's workers, while their threads are started.
#[derive(Drop)]
struct Seats<S: RunStarts> {
    /// The calling thread's.
    own: Seat<HartRound<S>>,
    /// Those of the threads that are still to be started.
    others: Vec<Seat<HartRound<S>>>,
}

impl UntracedMachine {
    /// Does so many rounds, on 1 to 16 workers, and shows the machine to a visitor after each. The visitor may end the walk.
    /// Answers how many rounds are done. It may wait.
    ///
    /// How many workers there are makes no difference to the machine, nor to what the visitor sees. Threads are started once,
    /// before the first round that is worth them. Rounds in which no hart runs are shown too, and cost nothing else.
    ///
    /// # Errors
    ///
    /// `OutOfMemory`, of the machine or of the visitor. The rounds that are done are whole.
    pub fn walk<V: Visitor, R: Threads + Wait + Sync>(
        &mut self,
        rt: &R,
        rounds: u32,
        workers: u32,
        visitor: &mut V,
    ) -> Result<u32, OutOfMemory>
        requires workers { AreWorkers workers }
        requires rounds { self.old.rounds + rounds < 2 ^ 32 }
        requires known { V.knows visitor.old visitor.old self.old rounds 0 }
        ensures done { IfOk result (λ k. HasDone k self.old self.new) }
        ensures most { IfOk result (λ k. k ≤ rounds) }
        ensures known { IfOk result (λ k. V.knows visitor.old visitor.new self.old rounds k) }
        ensures ended { IfOk result (λ k. (k ≡ rounds) ⊎ V.has_enough visitor.new self.new) }
        ensures cut_off { OnErr result ((k : ℕ) × IsCutOff V.may_fail rounds k ×
            HasDone k self.old self.new) }
    {
        self.walk_keeping(rt, rounds, workers, &mut NoTrace, visitor)
    }

    /// Does what `walk` does, and hands the events of these rounds to a keeper, which may keep those of each of them.
    ///
    /// # Errors
    ///
    /// Those of `walk`. The keeper has the events of the rounds that are done.
    pub fn walk_keeping<E: EventKeeper, V: Visitor, R: Threads + Wait + Sync>(
        &mut self,
        rt: &R,
        rounds: u32,
        workers: u32,
        keeper: &mut E,
        visitor: &mut V,
    ) -> Result<u32, OutOfMemory>
        requires workers { AreWorkers workers }
        requires rounds { self.old.rounds + rounds < 2 ^ 32 }
        requires sound { (es : List Event) × E.keeps keeper.old es ×
            MayGoOn E.may_keep rounds es self.old }
        requires known { V.knows visitor.old visitor.old self.old rounds 0 }
        ensures done { IfOk result (λ k. HasRun k self.old self.new (E.keeps keeper.old)
            (E.keeps keeper.new)) }
        ensures most { IfOk result (λ k. k ≤ rounds) }
        ensures known { IfOk result (λ k. V.knows visitor.old visitor.new self.old rounds k) }
        ensures ended { IfOk result (λ k. (k ≡ rounds) ⊎ V.has_enough visitor.new self.new) }
        ensures cut_off { OnErr result ((k : ℕ) × IsCutOff V.may_fail rounds k ×
            HasRun k self.old self.new (E.keeps keeper.old) (E.keeps keeper.new)) }
        ensures opening { E.opens_with keeper.new ≡ E.opens_with keeper.old }
    {
        let alone = Stretch {
            rounds,
            most_workers: workers,
        };
        let walked = self.walk_on_board::<Brand, E, V, R>(rt, 1, alone, keeper, visitor)?;
        if !walked.wants_workers {
            return Ok(walked.rounds);
        }
        let workers = workers.min(self.running_harts().max(1));
        let rest = Stretch {
            rounds: rounds - walked.rounds,
            most_workers: 1,
        };
        let more = self.walk_on_board::<Brand, E, V, R>(rt, workers, rest, keeper, visitor)?;
        Ok(walked.rounds + more.rounds)
    }

    /// A part of a walk by so many workers, with a board for the starts of its rounds.
    fn walk_on_board<
        S: RunStarts + Send + Sync,
        E: EventKeeper,
        V: Visitor,
        R: Threads + Wait + Sync,
    >(
        &mut self,
        rt: &R,
        workers: u32,
        stretch: Stretch,
        keeper: &mut E,
        visitor: &mut V,
    ) -> Result<Walked, OutOfMemory>
        requires workers { AreWorkers workers }
        requires starts { (n : ℕ) → S.starts n ≡ start_at E.logs self.old n }
        requires rounds { self.old.rounds + stretch.rounds < 2 ^ 32 }
        requires sound { MayWalk E.may_keep (E.keeps keeper.old) stretch.rounds self.old }
        requires known { IsUpToDate V.knows stretch.rounds self.old visitor.old }
        ensures walked { HasWalked result V.may_fail stretch.rounds self.old self.new
            (E.keeps keeper.old) (E.keeps keeper.new) }
        ensures sound { IfOk result (λ w. MayWalk E.may_keep (E.keeps keeper.new)
            (stretch.rounds - w.rounds) self.new) }
        ensures known { IfOk result (λ w. HasLearned V.knows stretch.rounds w.rounds self.old
            visitor.old visitor.new) }
        ensures ended { IfOk result (λ w. HasEnded w stretch.rounds stretch.most_workers
            (V.has_enough visitor.new self.new)) }
        ensures opening { E.opens_with keeper.new ≡ E.opens_with keeper.old }
    {
        if stretch.rounds == 0 {
            return Ok(Walked {
                rounds: 0,
                shared: 0,
                wants_workers: false,
            });
        }
        let (board, own, others) = Board::<S>::open(self.allocator(), self.plan.harts(), workers)?;
        let seats = Seats { own, others };
        let walked = self.walk_beside(rt, &board, seats, stretch, keeper, visitor);
        drop(board);
        walked
    }

    /// Starts a thread for each of the other seats, which serves a board with it, and then does a part of a walk.
    #[cycle(others)]
    fn walk_beside<
        S: RunStarts + Send + Sync,
        E: EventKeeper,
        V: Visitor,
        R: Threads + Wait + Sync,
    >(
        &mut self,
        rt: &R,
        board: &Board<S>,
        mut seats: Seats<S>,
        stretch: Stretch,
        keeper: &mut E,
        visitor: &mut V,
    ) -> Result<Walked, OutOfMemory>
        requires seats { AreSeats board.now.book seats }
        requires harts { board.now.book.harts ≡ self.old.plan.harts }
        requires starts { (n : ℕ) → S.starts n ≡ start_at E.logs self.old n }
        requires rounds { self.old.rounds + stretch.rounds < 2 ^ 32 }
        requires sound { MayWalk E.may_keep (E.keeps keeper.old) stretch.rounds self.old }
        requires known { IsUpToDate V.knows stretch.rounds self.old visitor.old }
        ensures walked { HasWalked result V.may_fail stretch.rounds self.old self.new
            (E.keeps keeper.old) (E.keeps keeper.new) }
        ensures sound { IfOk result (λ w. MayWalk E.may_keep (E.keeps keeper.new)
            (stretch.rounds - w.rounds) self.new) }
        ensures known { IfOk result (λ w. HasLearned V.knows stretch.rounds w.rounds self.old
            visitor.old visitor.new) }
        ensures ended { IfOk result (λ w. HasEnded w stretch.rounds stretch.most_workers
            (V.has_enough visitor.new self.new)) }
        ensures opening { E.opens_with keeper.new ≡ E.opens_with keeper.old }
    {
        let Some(other) = seats.others.pop() else {
            let Seats { own, .. } = seats;
            let result = self.walk_lasting(rt, board, own, stretch, keeper, visitor);
            board.close(rt);
            return result;
        };
        let (mut other, mut seats) = (Some(other), Some(seats));
        self.walk_with(rt, board, &mut other, &mut seats, stretch, keeper, visitor)
    }

    /// Starts a thread that serves a board with one seat, and goes on with the others.
    // All that is lent has one lifetime: with several, the borrow checker doesn't cover the closures.
    #[cycle(others)]
    fn walk_with<
        'a,
        S: RunStarts + Send + Sync,
        E: EventKeeper,
        V: Visitor,
        R: Threads + Wait + Sync,
    >(
        &'a mut self,
        rt: &'a R,
        board: &'a Board<S>,
        other: &'a mut Option<Seat<HartRound<S>>>,
        seats: &'a mut Option<Seats<S>>,
        stretch: Stretch,
        keeper: &'a mut E,
        visitor: &'a mut V,
    ) -> Result<Walked, OutOfMemory>
        requires other { IfSome other.old (IsWorker board.now.book.table board.now.book.harts) }
        requires seats { HasSeats board.now.book seats.old }
        requires harts { board.now.book.harts ≡ self.old.plan.harts }
        requires starts { (n : ℕ) → S.starts n ≡ start_at E.logs self.old n }
        requires rounds { self.old.rounds + stretch.rounds < 2 ^ 32 }
        requires sound { MayWalk E.may_keep (E.keeps keeper.old) stretch.rounds self.old }
        requires known { IsUpToDate V.knows stretch.rounds self.old visitor.old }
        ensures walked { HasWalked result V.may_fail stretch.rounds self.old self.new
            (E.keeps keeper.old) (E.keeps keeper.new) }
        ensures sound { IfOk result (λ w. MayWalk E.may_keep (E.keeps keeper.new)
            (stretch.rounds - w.rounds) self.new) }
        ensures known { IfOk result (λ w. HasLearned V.knows stretch.rounds w.rounds self.old
            visitor.old visitor.new) }
        ensures ended { IfOk result (λ w. HasEnded w stretch.rounds stretch.most_workers
            (V.has_enough visitor.new self.new)) }
        ensures opening { E.opens_with keeper.new ≡ E.opens_with keeper.old }
    {
        let mut theirs = ||
            requires { IfSome other.now (IsWorker board.now.book.table board.now.book.harts) }
        {
            if let Some(seat) = other.take() {
                board.serve(rt, seat);
            }
        };
        let mut ours = || -> Result<Walked, OutOfMemory>
            requires { IsSync R.row × IsSync S.row × HasSeats board.now.book seats.now ×
                (board.now.book.harts ≡ self.now.plan.harts) ×
                ((n : ℕ) → S.starts n ≡ start_at E.logs self.now n) ×
                (self.now.rounds + stretch.rounds < 2 ^ 32) ×
                MayWalk E.may_keep (E.keeps keeper.now) stretch.rounds self.now ×
                IsUpToDate V.knows stretch.rounds self.now visitor.now }
            ensures walked { HasWalked result V.may_fail stretch.rounds self.entry.now
                self.exit.now (E.keeps keeper.entry.now) (E.keeps keeper.exit.now) }
            ensures sound { IfOk result (λ w. MayWalk E.may_keep (E.keeps keeper.exit.now)
                (stretch.rounds - w.rounds) self.exit.now) }
            ensures known { IfOk result (λ w. HasLearned V.knows stretch.rounds w.rounds
                self.entry.now visitor.entry.now visitor.exit.now) }
            ensures ended { IfOk result (λ w. HasEnded w stretch.rounds stretch.most_workers
                (V.has_enough visitor.exit.now self.exit.now)) }
            ensures opening { E.opens_with keeper.exit.now ≡ E.opens_with keeper.entry.now }
        {
            let Some(seats) = seats.take() else {
                unreachable!()
            };
            self.walk_beside(rt, board, seats, stretch, keeper, visitor)
        };
        let (_, result) = thread::join_mut(rt, &mut theirs, &mut ours);
        result
    }

    /// A part of a walk, each round by all who serve a board where it is worth it.
    fn walk_lasting<S: RunStarts, E: EventKeeper, V: Visitor, R: Threads + Wait + Sync>(
        &mut self,
        rt: &R,
        board: &Board<S>,
        own: Seat<HartRound<S>>,
        stretch: Stretch,
        keeper: &mut E,
        visitor: &mut V,
    ) -> Result<Walked, OutOfMemory>
        requires own { IsCaller board.now.book.table board.now.book.harts own }
        requires first { own.round ≡ 0 }
        requires harts { board.now.book.harts ≡ self.old.plan.harts }
        requires starts { (n : ℕ) → S.starts n ≡ start_at E.logs self.old n }
        requires rounds { self.old.rounds + stretch.rounds < 2 ^ 32 }
        requires sound { MayWalk E.may_keep (E.keeps keeper.old) stretch.rounds self.old }
        requires known { IsUpToDate V.knows stretch.rounds self.old visitor.old }
        ensures walked { HasWalked result V.may_fail stretch.rounds self.old self.new
            (E.keeps keeper.old) (E.keeps keeper.new) }
        ensures sound { IfOk result (λ w. MayWalk E.may_keep (E.keeps keeper.new)
            (stretch.rounds - w.rounds) self.new) }
        ensures known { IfOk result (λ w. HasLearned V.knows stretch.rounds w.rounds self.old
            visitor.old visitor.new) }
        ensures ended { IfOk result (λ w. HasEnded w stretch.rounds stretch.most_workers
            (V.has_enough visitor.new self.new)) }
        ensures opening { E.opens_with keeper.new ≡ E.opens_with keeper.old }
    {
        let alloc = self.allocator();
        let mut crew = LastingCrew::new(rt, alloc, board, own, keeper.log_form());
        let walked = self.walk_by(&mut crew, stretch, keeper, visitor);
        drop(crew);
        walked
    }

    /// The same by a crew that is lent.
    fn walk_by<S: RunStarts, E: EventKeeper, V: Visitor, R: Threads + Wait + Sync>(
        &mut self,
        crew: &mut LastingCrew<'_, S, R>,
        stretch: Stretch,
        keeper: &mut E,
        visitor: &mut V,
    ) -> Result<Walked, OutOfMemory>
        requires form { keeps_log crew.old.crew.form ≡ E.logs }
        requires may { MayShare self.old.rounds self.old.plan.harts crew.old.board.now.book
            crew.old.seat crew.old.blank.items }
        requires starts { (n : ℕ) → S.starts n ≡ start_at E.logs self.old n }
        requires rounds { self.old.rounds + stretch.rounds < 2 ^ 32 }
        requires sound { MayWalk E.may_keep (E.keeps keeper.old) stretch.rounds self.old }
        requires known { IsUpToDate V.knows stretch.rounds self.old visitor.old }
        ensures walked { HasWalked result V.may_fail stretch.rounds self.old self.new
            (E.keeps keeper.old) (E.keeps keeper.new) }
        ensures sound { IfOk result (λ w. MayWalk E.may_keep (E.keeps keeper.new)
            (stretch.rounds - w.rounds) self.new) }
        ensures known { IfOk result (λ w. HasLearned V.knows stretch.rounds w.rounds self.old
            visitor.old visitor.new) }
        ensures ended { IfOk result (λ w. HasEnded w stretch.rounds stretch.most_workers
            (V.has_enough visitor.new self.new)) }
        ensures opening { E.opens_with keeper.new ≡ E.opens_with keeper.old }
        ensures gathered { IfOk result (λ w. HasShared w.shared self.old.plan.harts self.old
            self.new crew.old.seat crew.new.seat) }
    {
        let mut shared = 0;
        for done in 0..stretch.rounds {
            if self.wants_workers(stretch.most_workers) {
                return Ok(Walked {
                    rounds: done,
                    shared,
                    wants_workers: true,
                });
            }
            let shares = self.shares_next(crew.crew.workers);
            self.walk_round(crew, keeper, shares)?;
            shared += u32::from(shares);
            match visitor.after_round(self)? {
                Next::Round => {}
                Next::Enough => {
                    return Ok(Walked {
                        rounds: done + 1,
                        shared,
                        wants_workers: false,
                    });
                }
            }
        }
        Ok(Walked {
            rounds: stretch.rounds,
            shared,
            wants_workers: false,
        })
    }

    /// Whether the next round is shared by so many workers. A round in which no hart runs is not.
    fn shares_next(&self, workers: u32) -> bool
        ensures workers { result ≡ true → 1 < workers }
        ensures runs { result ≡ true → ¬ HasStopped self.now }
    {
        // One worker shares nothing: that is asked first for speed.
        self.wants_workers(workers) && self.running_harts() > 0
    }

    /// Whether the next round is worth more than one of so many workers.
    fn wants_workers(&self, most: u32) -> bool
        ensures { result ≡ true → 1 < most }
    {
        // One worker is never worth two: it is asked first for speed.
        most > 1 && self.worth_workers(most) > 1
    }

    /// Does one round, shared by a crew or on the calling thread. Once all harts have stopped it costs nothing.
    fn walk_round<S: RunStarts, E: EventKeeper, R: Threads + Wait + Sync>(
        &mut self,
        crew: &mut LastingCrew<'_, S, R>,
        keeper: &mut E,
        shares: bool,
    ) -> Result<(), OutOfMemory>
        requires runs { shares ≡ true → ¬ HasStopped self.old }
        requires may { MayShare self.old.rounds self.old.plan.harts crew.old.board.now.book
            crew.old.seat crew.old.blank.items }
        requires rounds { self.old.rounds + 1 < 2 ^ 32 }
        requires form { keeps_log crew.old.crew.form ≡ E.logs }
        requires start { (S.starts self.old.rounds ≡ next_start_of E.logs self.old) ⊎
            HasStopped self.old }
        requires sound { ((es : List Event) × E.keeps keeper.old es ×
            E.may_keep (es ++ next_events self.old)) ⊎ HasStopped self.old }
        ensures ran { RanFor result 1 self.old self.new (E.keeps keeper.old)
            (E.keeps keeper.new) }
        ensures next { OnOk result (((self.new ≡ untraced_round self.old) ×
            ((es : List Event) → E.keeps keeper.old es →
            E.keeps keeper.new (es ++ next_events self.old))) ⊎ HasStopped self.new) }
        ensures stopped { HasStopped self.old → OnOk result (HasStopped self.new) }
        ensures opening { E.opens_with keeper.new ≡ E.opens_with keeper.old }
        ensures form { crew.new.crew.form ≡ crew.old.crew.form }
        ensures plan { OnOk result (self.new.plan ≡ self.old.plan) }
        ensures may { OnOk result (MayShare self.new.rounds self.old.plan.harts
            crew.new.board.now.book crew.new.seat crew.new.blank.items) }
        ensures gathered { OnOk result (MatchBool shares (HasGatheredRounds
            (self.old.rounds ∷ []) self.old.plan.harts crew.old.seat crew.new.seat)
            (crew.new.seat ≡ crew.old.seat)) }
    {
        if self.running_harts() == 0 {
            self.pass(1);
            return Ok(());
        }
        let ends = self.do_parallel_by(crew, shares)?;
        // Where a round isn't worth sharing, what its harts stored isn't either.
        let workers = if shares { crew.crew.workers } else { 1 };
        let committing = Crew {
            workers,
            ..crew.crew
        };
        self.end_round(&committing, keeper, ends)?;
        Ok(())
    }

    /// Does the rounds of all harts, shared by the crew or on the calling thread alone. Refused or not, the machine is as it was.
    fn do_parallel_by<S: RunStarts, R: Threads + Wait + Sync>(
        &mut self,
        crew: &mut LastingCrew<'_, S, R>,
        shares: bool,
    ) -> Result<Vec<HartEnd>, OutOfMemory>
        requires start { S.starts self.old.rounds ≡
            next_start_of (keeps_log crew.old.crew.form) self.old }
        requires rounds { self.old.rounds + 1 < 2 ^ 32 }
        requires may { MayShare self.old.rounds self.old.plan.harts crew.old.board.now.book
            crew.old.seat crew.old.blank.items }
        ensures stays { self.new ≡ self.old }
        ensures form { crew.new.crew.form ≡ crew.old.crew.form }
        ensures ends { IfOk result (λ os.
            AreOfNext (keeps_log crew.old.crew.form) self.old os.items) }
        ensures may { OnOk result (MayShare (self.old.rounds + 1) self.old.plan.harts
            crew.new.board.now.book crew.new.seat crew.new.blank.items) }
        ensures gathered { OnOk result (MatchBool shares (HasGatheredRounds
            (self.old.rounds ∷ []) self.old.plan.harts crew.old.seat crew.new.seat)
            (crew.new.seat ≡ crew.old.seat)) }
    {
        if shares {
            crew.do_parallel(&mut self.guest, &self.plan, self.rounds)
        } else {
            let alone = Crew {
                workers: 1,
                ..crew.crew
            };
            self.do_parallel(&alone)
        }
    }
}
