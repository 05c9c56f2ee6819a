ghost use Rattle.std.specs.Prelude.{◌≡◌, ◌/◌, ◌%◌, ◌^◌, ◌<◌, ◌↔◌, ℕ, [], All, IsTrue, OnOk, OnErr, IsOk, IsSome};
ghost use Rattle.pages.specs.Memory.{loaded, stored, width_bytes};
ghost use Rattle.store_buffer.specs.declared.line.Line.{Line as LineOf};
ghost use Rattle.store_buffer.specs.Lines.{lent_bytes};
ghost use Rattle.store_buffer.specs.Covered.{Rising, byte_at, stores_of, with_store};

use crate::line::LINE_BYTES;
use crate::line_map::LineMap;
use crate::{Lines, Stores};
use pages::{Fault, OutOfMemory, Pages, Store, Width};
use std::alloc::Global;
use std::marker::Model;

/// The bytes that stores have put, each with its address.
pub struct StoreBuffer {
    lines: LineMap,
}

// By hand, so that a proof has one step for it wherever one is dropped, in this crate and above.
impl Drop for StoreBuffer {
    fn drop(self) {
        let StoreBuffer { lines } = self;
        drop(lines);
    }
}

impl Model for StoreBuffer {
    ghost use Rattle.std.specs.Prelude.{ℕ, List};

    ghost Value = { List (ℕ × ℕ) };

    ghost use Rattle.store_buffer.specs.Held.{Held};
    ghost use Rattle.store_buffer.specs.Lines.{lines_bytes};

    ghost view = { λ b. lines_bytes b.lines };

    ghost invariant = { λ b. Held b.lines };
}

impl StoreBuffer {
    /// An empty buffer. It takes no memory.
    pub fn new(alloc: Global) -> StoreBuffer
        ensures { result ≡ [] }
    {
        StoreBuffer {
            lines: LineMap::new(alloc),
        }
    }

    /// Puts the bytes of a store over those that are there. A line of 64 bytes that is there takes no memory.
    #[inline]
    pub fn put(&mut self, s: Store) -> Result<(), OutOfMemory>
        requires { s.address % width_bytes s.width ≡ 0 }
        ensures ok { OnOk result (self.new ≡ with_store self.old s) }
        ensures err { OnErr result (self.new ≡ self.old) }
        ensures room { (x : ℕ) → x / 64 ≡ s.address / 64 → IsSome (byte_at self.old x) →
            IsOk result }
        ensures rising { Rising 0 self.new }
    {
        let at = s.address % LINE_BYTES;
        self.lines.put(s.address / LINE_BYTES, at, s.width, s.value)
    }

    /// The number of this width at an address of guest memory, with the buffer's bytes over those of memory,
    /// or why it cannot be loaded.
    #[inline]
    pub fn read_over(&self, p: &Pages, address: u64, width: Width) -> Result<u64, Fault>
        ensures { result ≡ loaded (stored p.now.memory (stores_of self.now)) address width }
    {
        let number = p.read(address, width)?;
        p.bytes_fit();
        match self.lines.get(address / LINE_BYTES) {
            Some(line) => Ok(line.over(number, address % LINE_BYTES, width)),
            None => Ok(number),
        }
    }

    /// Each byte once, as a store of width 1, in rising address.
    #[inline]
    pub fn stores(&self) -> Stores<'_>
        ensures { result ≡ self.now }
    {
        Stores::new(self.lines.iter())
    }

    /// The lines that hold bytes, each with the address of its first, in rising address.
    #[inline]
    pub fn lines(&self) -> Lines<'_>
        ensures bytes { lent_bytes result ≡ self.now }
        ensures aligned { All (λ (e : ℕ × LineOf). (e.0 % 64 ≡ 0) × (e.0 < 2 ^ 64)) result }
    {
        Lines::new(self.lines.iter())
    }

    /// Whether there are no bytes.
    pub fn is_empty(&self) -> bool
        ensures { IsTrue result ↔ (self.now ≡ []) }
    {
        // Of the buffers that are asked, most have no line.
        if self.lines.is_empty() {
            return true;
        }
        self.stores().next().is_none()
    }

    /// Takes all bytes out.
    pub fn clear(&mut self)
        ensures { self.new ≡ [] }
    {
        self.lines.clear();
    }

    /// The addresses of the buffer's bytes rise, and each of them is a byte.
    #[inline(always)]
    pub fn bytes_rise(&self)
        ensures { Rising 0 self.now }
    {
        let _lines = &self.lines;
    }
}
