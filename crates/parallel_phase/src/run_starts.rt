ghost use Rattle.std.specs.Prelude.{ℕ};
ghost use Rattle.hart_rounds.specs.Starts.{Start, empty_start};

use std::marker::Brand;

/// What each round of a run starts from, by how many rounds were done before it, in proofs alone. Each call that opens a book picks
/// it.
pub trait RunStarts {
    ghost starts: { ℕ → Start };
}

impl RunStarts for Brand {
    ghost starts = { λ _. empty_start };
}
