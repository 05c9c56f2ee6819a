ghost use Rattle.std.specs.Prelude.{◌≡◌, ◌+◌, ◌<◌, ◌≤◌, IfNone, IfOk, IfSome, Some, length, slice_index};
ghost use Rattle.hart_step.specs.DecodedCode.{Shows};
ghost use Rattle.hart_step.specs.Words.{words_of};
ghost use Rattle.moments.specs.Sights.{part_sights};
ghost use Rattle.round_schedule.specs.Past.{last_of};
ghost use Rattle.moments.specs.Bytes.{bytes_from, sight_of};

use hart_step::{AccessCount, Buffered, DecodedCode, Hart, hart_round};
use pages::{OutOfMemory, Pages, Width};
use std::alloc::Global;
use std::marker::Model;
use store_buffer::StoreBuffer;

/// A hart, and memory as it sees it.
#[derive(Drop)]
pub struct Sight {
    hart: Hart,
    pages: Pages,
    /// The hart's own stores that are not committed.
    own: StoreBuffer,
}

impl Model for Sight {
    ghost use Rattle.hart_step.specs.declared.hart.Hart.{Hart as HartOf};
    ghost use Rattle.moments.specs.Sights.{Sight as SightOf};
    ghost use Rattle.pages.specs.Memory.{stored};
    ghost use Rattle.moments.specs.Bytes.{sight_of};
    ghost use Rattle.store_buffer.specs.Covered.{stores_of};

    ghost Value = { SightOf HartOf };

    ghost view = { λ s. sight_of s.hart (stored s.pages.memory (stores_of s.own)) };
}

impl Sight {
    /// A hart at the end of a part of the parallel phase of at most `quota` instructions, which begins with this memory. So it was
    /// after as many instructions of any longer part in which it does more.
    ///
    /// # Errors
    ///
    /// `OutOfMemory` alone.
    pub fn after_part(
        pages: Pages,
        code: &DecodedCode,
        hart: Hart,
        quota: u32,
    ) -> Result<Sight, OutOfMemory>
        requires { Shows pages.memory code.now.first code.now.instructions }
        ensures { IfOk result (λ s. last_of (part_sights (words_of pages.memory.code) quota
            (sight_of hart pages.memory)) ≡ Some s) }
    {
        let mut turned = hart;
        let mut view = Buffered::new(pages.allocator(), &pages);
        let mut count = AccessCount { count: 0 };
        let _waits = hart_round(&mut turned, &mut view, code, quota, &mut count)?;
        let own = view.into_buffer();
        Ok(Sight {
            hart: turned,
            pages,
            own,
        })
    }

    /// A hart that sees memory itself, as in its serial turn.
    pub fn of_memory(hart: Hart, pages: Pages) -> Sight
        ensures { result ≡ sight_of hart pages.memory }
    {
        let own = StoreBuffer::new(pages.allocator());
        Sight { hart, pages, own }
    }

    /// The hart.
    pub fn hart(&self) -> Hart
        ensures { result ≡ self.now.hart }
    {
        self.hart
    }

    /// Another state of the hart, which sees the same.
    pub fn with_hart(self, hart: Hart) -> Sight
        ensures { result ≡ record self { hart = hart } }
    {
        Sight { hart, ..self }
    }

    /// At most `count` bytes of memory from an address on, as the hart sees them: fewer where memory ends before.
    ///
    /// # Errors
    ///
    /// `OutOfMemory` alone.
    pub fn bytes(&self, alloc: Global, address: u64, count: u64) -> Result<Vec<u8>, OutOfMemory>
        ensures { IfOk result (λ v. v.items ≡ bytes_from self.now.bytes address count) }
    {
        let mut bytes = Vec::new(alloc);
        for offset in 0..count {
            match self.byte(address, offset) {
                Some(byte) => bytes.push(byte)?,
                None => return Ok(bytes),
            }
        }
        Ok(bytes)
    }

    /// The byte so many after an address; none past the end of memory.
    fn byte(&self, address: u64, offset: u64) -> Option<u8>
        ensures past { IfNone result (length self.now.bytes ≤ address + offset) }
        ensures within { IfSome result (λ _. address + offset < length self.now.bytes) }
        ensures byte { IfSome result (λ byte.
            byte ≡ slice_index self.now.bytes (address + offset)) }
    {
        // At most 64 MiB, each of which is a byte.
        self.pages.bytes_fit();
        let _count = self.pages.count();
        if offset > u64::MAX - address {
            return None;
        }
        match self.own.read_over(&self.pages, address + offset, Width::W1) {
            Ok(number) => {
                let byte = number as u8;
                Some(byte)
            }
            Err(_) => None,
        }
    }
}
