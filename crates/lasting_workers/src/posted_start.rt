ghost use Rattle.std.specs.Prelude.{◌≡◌};
ghost use Rattle.lasting_workers.specs.Borrowed.{Fits, start_of};

use crate::borrowed_start::BorrowedStart;
use hart_rounds::RoundStart;
use parallel_phase::RunStarts;
use std::marker::PhantomData;

/// The start of a round of a run, which several workers read at once. Its type keeps that it is that.
#[derive(Drop)]
pub struct PostedStart<S: RunStarts> {
    /// How many rounds were done before.
    pub done: u32,
    /// What it starts from.
    pub borrowed: BorrowedStart,
    of: PhantomData<S>,
    ghost fits: { Fits borrowed },
    ghost start: { S.starts done ≡ start_of borrowed },
}

impl<S: RunStarts> PostedStart<S> {
    /// The start of the round after so many.
    pub fn new(done: u32, borrowed: BorrowedStart) -> PostedStart<S>
        requires fits { Fits borrowed }
        requires start { S.starts done ≡ start_of borrowed }
        ensures done { result.done ≡ done }
        ensures borrowed { result.borrowed ≡ borrowed }
    {
        PostedStart {
            done,
            borrowed,
            of: PhantomData,
        }
    }

    /// The start as the rounds of harts read it.
    pub fn lent(&self) -> RoundStart<'_>
        ensures { result ≡ S.starts self.now.done }
    {
        let from = &self.borrowed;
        let start = RoundStart::new(&from.pages, &from.code, &from.harts, &from.quotas);
        start.with_form(from.form)
    }

    /// What it starts from, handed back.
    pub fn into_borrowed(self) -> BorrowedStart
        ensures { result ≡ self.borrowed }
    {
        let PostedStart { borrowed, .. } = self;
        borrowed
    }
}
