ghost use Rattle.std.specs.Prelude.{◌≡◌, ◌≤◌, ◌-◌, ℕ, List, [], drop, take, IfOk, IfNone, OnErr, Ok, Err, OnOk, option_to_list};
ghost use Rattle.host_io.specs.declared.error.RunError.TheVariants as refusals;
ghost use Rattle.gdb_packets.specs.Reads.{GoesOn};

use host_io::{RunError, Source};
use std::marker::Model;

/// How many bytes are asked for at once.
const PIECE: usize = 4096;

/// Reads what a debugger says, packet by packet, and holds the bytes that came behind it.
#[derive(Drop)]
pub struct Reader {
    piece: [u8; PIECE],
    start: usize,
    end: usize,
}

impl Model for Reader {
    ghost use Rattle.std.specs.Prelude.{◌≤◌, ◌-◌, ℕ, List, drop, take};

    ghost Value = { List ℕ };

    ghost view = { λ r. take (r.end - r.start) (drop r.start r.piece) };

    ghost invariant = { λ r. (r.start ≤ r.end) × (r.end ≤ 4096) };
}

impl Reader {
    /// A reader that holds nothing.
    pub fn new() -> Reader
        ensures { result ≡ [] }
    {
        Reader {
            piece: [0; PIECE],
            start: 0,
            end: 0,
        }
    }

    /// The next byte, of those that are held or else of the source; none at the end of the source.
    pub(crate) fn byte<S: Source>(&mut self, src: &mut S) -> Result<Option<u8>, RunError>
        ensures ok { IfOk result (λ x.
            GoesOn (S.gave src.old) self.old (S.gave src.new) self.new (option_to_list x)) }
        ensures end { IfOk result (λ x. IfNone x (self.new ≡ [])) }
        ensures err { OnErr result (result ≡ Err refusals.SourceFailed) }
    {
        if self.start == self.end {
            let Ok(count) = src.get(&mut self.piece) else {
                return Err(RunError::SourceFailed);
            };
            self.start = 0;
            self.end = count;
            if count == 0 {
                return Ok(None);
            }
        }
        let byte = self.piece[self.start];
        self.start += 1;
        Ok(Some(byte))
    }
}
