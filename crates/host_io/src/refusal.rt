ghost use Rattle.std.specs.Prelude.{◌≡◌, ℕ};

/// Why something isn't done, with the number that the program prints for it.
pub trait NumberedRefusal {
    /// Its number, by the table of refusals.
    ghost refusal_number: { Self → ℕ };

    /// The number of the refusal, as the program prints it.
    fn number(&self) -> u32
        ensures { result ≡ refusal_number self.now };
}
