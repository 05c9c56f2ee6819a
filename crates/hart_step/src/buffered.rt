ghost use Rattle.std.specs.Prelude.{◌≡◌, []};

use crate::bus::Bus;
use pages::{Fault, OutOfMemory, Pages, Store, Width};
use std::alloc::Global;
use std::marker::Model;
use store_buffer::StoreBuffer;

/// Guest memory seen through a store buffer, which takes each store: the buffered view. It has room where the
/// buffer has a byte of the store's line of 64.
#[derive(Drop)]
pub struct Buffered<'a> {
    pages: &'a Pages,
    buffer: StoreBuffer,
}

impl<'a> Model for Buffered<'a> {
    ghost use Rattle.hart_step.specs.Buffered.{Overlay, Clear};

    ghost Value = { Overlay };

    ghost view = { λ v. record { base = v.pages.now.memory; bytes = v.buffer } };

    ghost invariant = { λ v. Clear v.pages.now.memory.code v.buffer };
}

impl<'a> Buffered<'a> {
    /// Guest memory as it is, with an empty buffer. It takes no memory.
    #[inline]
    pub fn new(alloc: Global, pages: &'a Pages) -> Buffered<'a>
        ensures { result ≡ record { base = pages.now.memory; bytes = [] } }
    {
        Buffered {
            pages,
            buffer: StoreBuffer::new(alloc),
        }
    }

    /// The buffer, with the stores that were taken.
    #[inline]
    pub fn into_buffer(self) -> StoreBuffer
        ensures { result ≡ self.entry.bytes }
    {
        let Buffered { pages: _, buffer } = self;
        buffer
    }
}

impl Bus for Buffered<'_> {
    ghost use Rattle.hart_step.specs.Buffered.{seen_through, HasLine, Puts, puts_none, puts_more};

    ghost memory = { λ v. seen_through v };

    ghost has_room = { λ v s. HasLine v s };

    ghost takes = { λ v ss w. Puts v ss w };

    #[inline(always)]
    fn fetch(&self, pc: u64) -> Option<u32> {
        self.pages.fetch(pc)
    }

    #[inline(always)]
    fn load(&self, address: u64, width: Width) -> Result<u64, Fault> {
        self.buffer.read_over(self.pages, address, width)
    }

    #[inline(always)]
    fn store(&mut self, s: Store) -> Result<Result<(), Fault>, OutOfMemory> {
        match self.pages.check_store(s.address, s.width) {
            Err(f) => Ok(Err(f)),
            Ok(()) => {
                self.buffer.bytes_rise();
                self.buffer.put(s)?;
                Ok(Ok(()))
            }
        }
    }

    ghost takes_none = { λ v. puts_none v };

    ghost takes_more = { λ u v w ss ts p q. puts_more u v w ss ts p q };
}
