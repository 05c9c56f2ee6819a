ghost use Rattle.std.specs.Prelude.{◌≡◌, ℕ, List, Err, IfOk, IfErr, ◌⊎◌};
ghost use Rattle.host_io.specs.declared.error.RunError.TheVariants as refusals;
ghost use Rattle.gdb_packets.specs.Drafts.{IsDraft};
ghost use Rattle.gdb_packets.specs.Reads.{Loses, Reads};
ghost use Rattle.gdb_packets.specs.Stream.{closed_by, framed, next_of};

use crate::draft::Draft;
use crate::item::Item;
use crate::reader::Reader;
use host_io::{RunError, Source};
use std::alloc::Global;

const INTERRUPT: u8 = 3;

impl Reader {
    /// What is told next; none at the end of the source. Bytes that neither tell something nor begin a packet are passed over.
    ///
    /// # Errors
    ///
    /// `OutOfMemory` where a packet found no memory: it was read, and the next call goes on behind it. `SourceFailed` where the
    /// source failed: what was read of a packet is gone.
    pub fn next<S: Source>(&mut self, alloc: Global, src: &mut S) -> Result<Option<Item>, RunError>
        ensures told { IfOk result (λ x.
            Reads next_of (S.gave src.old) self.old (S.gave src.new) self.new x) }
        ensures lost { result ≡ Err refusals.OutOfMemory →
            Loses next_of (S.gave src.old) self.old (S.gave src.new) self.new }
        ensures errors { IfErr result (λ e. (e ≡ refusals.OutOfMemory) ⊎
            (e ≡ refusals.SourceFailed)) }
    {
        for _i in 0..u64::MAX {
            let byte = match self.byte(src)? {
                Some(byte) => byte,
                None => return Ok(None),
            };
            match byte {
                b'$' => return self.frame(alloc, src),
                b'+' => return Ok(Some(Item::Accepted)),
                b'-' => return Ok(Some(Item::Again)),
                INTERRUPT => return Ok(Some(Item::Interrupt)),
                _ => {}
            }
        }
        // More bytes than a source gives in any time.
        Err(RunError::SourceFailed)
    }

    /// The packet whose `$` was read.
    fn frame<S: Source>(&mut self, alloc: Global, src: &mut S) -> Result<Option<Item>, RunError>
        ensures told { IfOk result (λ x.
            Reads framed (S.gave src.old) self.old (S.gave src.new) self.new x) }
        ensures lost { result ≡ Err refusals.OutOfMemory →
            Loses framed (S.gave src.old) self.old (S.gave src.new) self.new }
        ensures errors { IfErr result (λ e. (e ≡ refusals.OutOfMemory) ⊎
            (e ≡ refusals.SourceFailed)) }
    {
        let mut draft = Draft::new(alloc);
        for _i in 0..u64::MAX {
            let byte = match self.byte(src)? {
                Some(byte) => byte,
                None => return Ok(None),
            };
            if byte == b'#' {
                return self.close(alloc, src, draft);
            }
            draft.add(byte);
        }
        Err(RunError::SourceFailed)
    }

    /// The packet of this data, whose `#` was read.
    fn close<S: Source>(
        &mut self,
        alloc: Global,
        src: &mut S,
        draft: Draft,
    ) -> Result<Option<Item>, RunError>
        ensures told { (bs : List ℕ) → IsDraft bs draft → IfOk result
            (λ x. Reads (closed_by bs) (S.gave src.old) self.old (S.gave src.new) self.new x) }
        ensures lost { (bs : List ℕ) → result ≡ Err refusals.OutOfMemory →
            Loses (closed_by bs) (S.gave src.old) self.old (S.gave src.new) self.new }
        ensures errors { IfErr result (λ e. (e ≡ refusals.OutOfMemory) ⊎
            (e ≡ refusals.SourceFailed)) }
    {
        let high = match self.byte(src)? {
            Some(high) => high,
            None => return Ok(None),
        };
        let low = match self.byte(src)? {
            Some(low) => low,
            None => return Ok(None),
        };
        Ok(Some(draft.end(alloc, high, low)?))
    }
}
