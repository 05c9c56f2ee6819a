//! The end of a book.

ghost use Rattle.std.specs.Prelude.{◌≡◌, ◌++◌, length};
ghost use Rattle.run_book.specs.Closing.{IsClosed, gone_of};
ghost use Rattle.run_book.specs.Lists.{Each};

use crate::book::RunBook;
use crate::entry::Entry;
use crate::rule::Together;
use crate::seat::Seat;

impl<E: Entry> RunBook<E> {
    /// Closes the book with all its seats, and gives the history of the round that was open.
    pub fn close(self, mut seats: Vec<Seat<E>>) -> Vec<E>
        requires all { length seats.items ≡ self.seats }
        requires table { Each (λ k. k.table ≡ self.table) seats.items }
        ensures { IsClosed E.turn E.seat E.right self.harts seats.items
            (gone_of seats.items ++ result.items) result.items }
    {
        let RunBook { table, .. } = self;
        let Some(last) = seats.pop() else {
            unreachable!()
        };
        let Seat { place, .. } = last;
        let mut all = place;
        while let Some(seat) = seats.pop() {
            let Seat { mut place, .. } = seat;
            table.shared.join_seat::<Together>(&mut place, all);
            all = place;
        }
        let mut closed = table.close_with(all);
        let history = closed.take(0);
        closed.free();
        history
    }
}
