ghost use Rattle.std.specs.Prelude.{◌≡◌, ℕ, List};

use hart_rounds::HartEnd;
use store_buffer::StoreBuffer;

/// What the round of a hart left, as a commit sees it: its buffer.
pub trait Buffered {
    ghost bytes: { Self → List (ℕ × ℕ) };

    /// The stores of the round.
    fn buffer(&self) -> &StoreBuffer
        ensures { result.now ≡ bytes self.now };
}

impl Buffered for StoreBuffer {
    ghost bytes = { λ b. b };

    fn buffer(&self) -> &StoreBuffer {
        self
    }
}

impl Buffered for HartEnd {
    ghost bytes = { λ e. e.buffer };

    fn buffer(&self) -> &StoreBuffer {
        &self.buffer
    }
}
