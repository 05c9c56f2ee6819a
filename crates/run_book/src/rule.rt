//! The rule of a book's table, and what each step tells.

ghost use Rattle.std.specs.Prelude.{[], ◌++◌, vec_capacity};
ghost use Rattle.run_book.specs.Rule.{BookHolds, Claimed, Acquired, Released, Returned, Turned, Compared};
ghost use Rattle.run_book.specs.Sitters.{newcomers, first_of, others_of};

use crate::entry::Entry;
use crate::sitter::{Sitters, Size};
use atomic_table::{Join, Play, Split, TableRule};

pub struct BookRule;

impl<E: Entry> TableRule<Vec<E>, Sitters<E>, Size> for BookRule {
    ghost holds = { BookHolds (λ v. v.items) (λ v. vec_capacity v) E.turn E.seat };

    ghost first = { λ k. newcomers k.harts k.seats };
}

/// A turn is claimed.
pub(crate) struct Claims;

impl<E: Entry> Play<Vec<E>, Sitters<E>> for Claims {
    ghost then = { Claimed (λ v. v.items) (λ v. vec_capacity v) E.turn E.seat };
}

/// The lock is taken, or it was taken already.
pub(crate) struct Acquires;

impl<E: Entry> Play<Vec<E>, Sitters<E>> for Acquires {
    ghost then = { Acquired (λ v. v.items) (λ v. vec_capacity v) E.turn E.seat };
}

/// The lock is given up, with one entry more.
pub(crate) struct Releases;

impl<E: Entry> Play<Vec<E>, Sitters<E>> for Releases {
    ghost then = { Released (λ v. v.items) (λ v. vec_capacity v) E.turn E.seat };
}

/// The lock is given up, with what its holder knows of the slot.
pub(crate) struct Returns;

impl<E: Entry> Play<Vec<E>, Sitters<E>> for Returns {
    ghost then = { Returned (λ v. v.items) (λ v. vec_capacity v) E.turn E.seat };
}

/// The round is ended, and another one begun.
pub(crate) struct Turns;

impl<E: Entry> Play<Vec<E>, Sitters<E>> for Turns {
    ghost then = { Turned (λ v. v.items) (λ v. vec_capacity v) E.turn E.seat };
}

/// Two sitters tell each other what they saw.
pub(crate) struct Compares;

impl<E: Entry> Play<Vec<E>, Sitters<E>> for Compares {
    ghost then = { Compared (λ v. v.items) (λ v. vec_capacity v) E.turn E.seat };
}

/// The first sitter stays, and the others go to a new seat.
pub(crate) struct Others;

impl<E: Entry> Split<Sitters<E>> for Others {
    ghost left = { first_of };

    ghost right = { others_of };
}

/// All sitters go to a new seat.
pub(crate) struct Everyone;

impl<E: Entry> Split<Sitters<E>> for Everyone {
    ghost left = { λ v. [] };

    ghost right = { λ v. v };
}

/// The sitters of both.
pub(crate) struct Together;

impl<E: Entry> Join<Sitters<E>> for Together {
    ghost both = { λ v w. v ++ w };

    ghost spent = { [] };
}
