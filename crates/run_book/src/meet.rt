//! Two seats of a book meet.

ghost use Rattle.std.specs.Prelude.{◌≡◌, ◌⊎◌, ℕ, true, false};
ghost use Rattle.run_book.specs.Lists.{Begins, has};

use crate::book::RunBook;
use crate::entry::Entry;
use crate::rule::{Compares, Everyone, Others, Together};
use crate::seat::Seat;

impl<E: Entry> RunBook<E> {
    /// Tells each of two seats what the other has seen. It waits for nobody. The seat that ends the rounds may then have seen more than it
    /// took out, and opens no round (`open_round`) until it has taken one out (`take_whole`).
    pub fn meet(&self, a: &mut Seat<E>, b: &mut Seat<E>)
        requires { (a.old.table ≡ self.now.table) × (b.old.table ≡ self.now.table) }
        ensures same_seen { a.new.seen ≡ b.new.seen }
        ensures longer { (a.new.seen ≡ a.old.seen) ⊎ (a.new.seen ≡ b.old.seen) }
        ensures begins_a { Begins a.old.seen a.new.seen }
        ensures begins_b { Begins b.old.seen b.new.seen }
        ensures apart { (t : ℕ) → has a.old.claims t ≡ true → has b.old.claims t ≡ false }
        ensures rest_of_a { a.new ≡ record a.old { seen = a.new.seen } }
        ensures rest_of_b { b.new ≡ record b.old { seen = b.new.seen } }
    {
        let words = &self.table.shared;
        let other = words.split_seat::<Everyone>(&mut b.place);
        words.join_seat::<Together>(&mut a.place, other);
        words.load::<Compares>(&mut a.place, 0);
        b.place = words.split_seat::<Others>(&mut a.place);
        a.seen = a.seen.max(b.seen);
        b.seen = a.seen;
    }
}
