//! What a seat knows, for proofs alone, and the size of a book.

use std::collections::LinkedList;

/// What one seat knows. No value of it is made.
pub struct Sitter<E> {
    /// The seat's number.
    pub number: u32,
    /// How many harts there are.
    pub harts: u32,
    /// The turns that it claimed, in order.
    pub claims: LinkedList<u64>,
    /// The beginning of the history that it has seen.
    pub seen: LinkedList<E>,
    /// What it put, in order.
    pub own: LinkedList<E>,
    /// What stands in the slot, while it holds the lock.
    pub page: LinkedList<E>,
    /// Of the seat with number 0, which ends the rounds: the round that is open.
    pub round: u32,
    /// Of that seat: the histories of the rounds that it ended.
    pub gone: LinkedList<E>,
    /// Whether it holds the lock.
    pub holding: bool,
}

/// A view of the table: the sitter of an open seat, and all of them in one seat while the book is opened.
pub(crate) type Sitters<E> = LinkedList<Sitter<E>>;

/// How many harts and seats a book has.
#[derive(Drop)]
pub struct Size {
    /// How many harts.
    pub harts: u32,
    /// How many seats.
    pub seats: u32,
}
