ghost use Rattle.std.specs.Prelude.{◌≡◌, OnOk, OnErr, Err};

use host_io::{RunError, Sink};

/// Standard output: a sink that keeps what it takes back, until it is told to hand it on.
pub trait Output: Sink {
    /// All that it took is handed on.
    ghost is_out: { Self → Type 0 };
    /// It couldn't hand on all that it took.
    ghost is_stuck: { Self → Type 0 };

    /// Hands on all that it took.
    ///
    /// # Errors
    ///
    /// `SinkFailed`.
    fn hand_on(&mut self) -> Result<(), RunError>
        ensures took { Self.took self.new ≡ Self.took self.old }
        ensures out { OnOk result (is_out self.new) }
        ensures stuck { OnErr result (is_stuck self.new) }
        ensures errors { OnErr result (result ≡ Err RunError.SinkFailed) };
}
