ghost use Rattle.std.specs.Prelude.{◌≡◌, ℕ, ◌+◌, ◌≤◌, ◌<◌, List, [], ◌∷◌, ◌++◌, OnOk, OnErr, IfOk, length, take, Result};
ghost use Rattle.host_io.specs.Taken.{BeganText, Counted};

use crate::error::RunError;

/// A sink could not take any of the bytes.
#[derive(Clone, Copy, Debug, PartialEq, Eq)]
pub struct SinkFault;

/// Where text goes: it takes bytes, and counts how often it failed.
pub trait Sink {
    /// All the bytes that it has taken.
    ghost took: { Self → List ℕ };
    /// How often it failed.
    ghost failures: { Self → ℕ };

    /// Takes some of the bytes, from the first on, and says how many. To take none of some bytes is a failure too.
    fn put(&mut self, bytes: &[u8]) -> Result<usize, SinkFault>
        ensures within { IfOk result (λ n. n ≤ length bytes.now) }
        ensures took { IfOk result (λ n. took self.new ≡ took self.old ++ take n bytes.now) }
        ensures err { OnErr result (took self.new ≡ took self.old) }
        ensures counts { Counted bytes.now result (failures self.old) (failures self.new) };
}

/// Puts all the bytes.
pub fn put_all<S: Sink>(out: &mut S, bytes: &[u8]) -> Result<(), RunError>
    ensures ok { OnOk result (S.took out.new ≡ S.took out.old ++ bytes.now) }
    ensures begun { OnErr result (BeganText (S.took out.old) (S.took out.new) bytes.now) }
    ensures failed { OnErr result (S.failures out.old < S.failures out.new) }
    ensures only_sink { OnErr result (result ≡ Err RunError.SinkFailed) }
    ensures counts { OnOk result (S.failures out.new ≡ S.failures out.old) }
{
    let mut rest = bytes;
    while !rest.is_empty() {
        match out.put(rest) {
            Ok(0) => return Err(RunError::SinkFailed),
            Ok(n) => rest = &rest[n..],
            Err(_) => return Err(RunError::SinkFailed),
        }
    }
    Ok(())
}
