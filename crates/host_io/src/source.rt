ghost use Rattle.std.specs.Prelude.{◌≡◌, ℕ, ◌+◌, ◌≤◌, ◌<◌, List, ◌++◌, OnOk, OnErr, IfOk, IfErr, ◌⊎◌, MatchResult, Err, length, take};
ghost use Rattle.host_io.specs.Given.{Ended};

use crate::error::RunError;
use std::alloc::Global;

/// A source could not give any of its bytes.
#[derive(Clone, Copy, Debug, PartialEq, Eq)]
pub struct SourceFault;

/// Where bytes come from: it gives bytes, and counts how often it said its end and how often it failed.
pub trait Source {
    /// All the bytes that it has given.
    ghost gave: { Self → List ℕ };
    /// How often it said that it is at its end.
    ghost ends: { Self → ℕ };
    /// How often it failed.
    ghost failures: { Self → ℕ };

    /// Gives some bytes, to the front of the buffer, and says how many. To give none where there is room says the end.
    fn get(&mut self, buf: &mut [u8]) -> Result<usize, SourceFault>
        ensures within { IfOk result (λ n. n ≤ length buf.new) }
        ensures gave { IfOk result (λ n. gave self.new ≡ gave self.old ++ take n buf.new) }
        ensures err { OnErr result (gave self.new ≡ gave self.old) }
        ensures ends { Ended buf.new result (ends self.old) (ends self.new) }
        ensures counts { MatchResult result (λ _. failures self.new ≡
            failures self.old) (λ _. failures self.new ≡ failures self.old + 1) };
}

/// How many bytes are asked for at once.
const PIECE: usize = 4096;

/// Reads all the bytes of a source, up to the first end that it says.
///
/// # Errors
///
/// `OutOfMemory` where the bytes found no memory, and `SourceFailed` where the source failed.
pub fn read_all<S: Source>(alloc: Global, src: &mut S) -> Result<Vec<u8>, RunError>
    ensures bytes { IfOk result (λ v. S.gave src.new ≡ S.gave src.old ++ v.items) }
    ensures end { OnOk result (S.ends src.new ≡ S.ends src.old + 1) }
    ensures no_end { OnErr result (S.ends src.new ≡ S.ends src.old) }
    ensures counts { OnOk result (S.failures src.new ≡ S.failures src.old) }
    ensures failed { result ≡ Err RunError.SourceFailed → S.failures src.old < S.failures src.new }
    ensures errors { IfErr result (λ e. (e ≡ RunError.OutOfMemory) ⊎ (e ≡ RunError.SourceFailed)) }
{
    let mut bytes = Vec::new(alloc);
    let mut piece = [0; PIECE];
    for _i in 0..u64::MAX {
        match src.get(&mut piece) {
            Ok(0) => return Ok(bytes),
            Ok(n) => {
                if bytes.extend_from_slice(&piece[..n]).is_err() {
                    return Err(RunError::OutOfMemory);
                }
            }
            Err(_) => return Err(RunError::SourceFailed),
        }
    }
    // More bytes than there can be in memory.
    Err(RunError::OutOfMemory)
}
