ghost use Rattle.std.specs.Prelude.{◌≡◌, ℕ};

/// What a book gathers: one entry for each turn, put by the seat that claimed the turn. A turn is a hart in a round.
pub trait Entry: Drop {
    // The turn that the entry is of, and the seat that claimed it.
    ghost turn: { Self → ℕ };

    ghost seat: { Self → ℕ };

    // Its content is what it has to be.
    ghost right: { Self → Type 0 };

    /// The turn that the entry is of.
    fn turn_number(&self) -> u64
        ensures { result ≡ turn self.now };

    // The type keeps the content.
    ghost is_right: { (e : Self) → right e };
}
