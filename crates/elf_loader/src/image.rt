ghost use Rattle.std.specs.Prelude.{◌≡◌, ◌+◌, ◌*◌, ◌%◌, ◌≤◌, true, length, All, AllPairs, IfOk};
ghost use Rattle.elf_loader.specs.Image.{AreApart};
ghost use Rattle.pages.specs.Initial.{bytes_from};
ghost use Rattle.pages.specs.Memory.{all_code, IsBytes};
ghost use Rattle.pages.specs.declared.access.Piece.{Piece as PieceOf};
ghost use Rattle.pages.specs.declared.access.Range.{Range as RangeOf};

use pages::{MOST_PAGES, OutOfMemory, Pages, Piece, Range};
use std::alloc::Global;
use std::marker::Model;

/// A guest program, ready to be laid into guest memory.
pub struct Image {
    pub(crate) pieces: Vec<Piece>,
    pub(crate) code: Vec<Range>,
    pub(crate) entry: u64,
    pub(crate) pages: u32,
}

// By hand, so that a proof has one step for it wherever one is dropped, in this crate and above.
impl Drop for Image {
    fn drop(self) {
        let Image {
            pieces,
            code,
            entry: _,
            pages: _,
        } = self;
        drop(pieces);
        drop(code);
    }
}

impl Model for Image {
    ghost use Rattle.std.specs.Prelude.{◌*◌};
    ghost use Rattle.elf_loader.specs.Image.{IsImage, Loaded};
    ghost use Rattle.pages.specs.Initial.{bytes_from};

    ghost Value = { Loaded };

    ghost view = { λ i. record {
      bytes = bytes_from i.pieces.items 0 (4096 * i.pages);
      code = i.code.items;
      entry = i.entry;
      pages = i.pages;
    } };

    ghost invariant = { λ i. IsImage i.pieces.items i.code.items i.entry i.pages };
}

impl Image {
    /// The bytes of the program that come from its file. The rest of guest memory is 0 at the start.
    pub fn pieces(&self) -> &[Piece]
        ensures bytes { bytes_from result.now 0 (4096 * self.now.pages) ≡ self.now.bytes }
        // There is a byte for each address of guest memory.
        ensures length { length self.now.bytes ≡ 4096 * self.now.pages }
        ensures is_bytes { IsBytes self.now.bytes }
        ensures within { All (λ (p : PieceOf). p.start + length p.bytes.items ≤
            4096 * self.now.pages) result.now }
        ensures apart { AllPairs AreApart result.now }
    {
        self.pieces.as_slice()
    }

    /// The same bytes, handed over.
    pub fn into_pieces(self) -> Vec<Piece>
        ensures bytes { bytes_from result.items 0 (4096 * self.pages) ≡ self.bytes }
        ensures within { All (λ (p : PieceOf). p.start + length p.bytes.items ≤
            4096 * self.pages) result.items }
    {
        let Image {
            pieces,
            code,
            entry: _,
            pages: _,
        } = self;
        drop(code);
        pieces
    }

    /// The addresses that are code.
    pub fn code(&self) -> &[Range]
        ensures code { result.now ≡ self.now.code }
        ensures within { All (λ (r : RangeOf). r.start + r.len ≤ 4096 * self.now.pages) result.now }
    {
        self.code.as_slice()
    }

    /// The address of the first instruction, a multiple of 4, whose four bytes are code.
    pub fn entry(&self) -> u64
        ensures entry { result ≡ self.now.entry }
        ensures aligned { result % 4 ≡ 0 }
        ensures fetched { all_code self.now.code result 4 ≡ true }
    {
        self.entry
    }

    /// The size of guest memory in pages of 4096 bytes.
    pub fn pages(&self) -> u32
        ensures pages { result ≡ self.now.pages }
        ensures some_pages { 1 ≤ result }
        ensures few_pages { result ≤ MOST_PAGES }
    {
        self.pages
    }

    /// Guest memory as the program finds it before its first instruction.
    ///
    /// # Errors
    ///
    /// `OutOfMemory` alone.
    #[tactic(auto, unfolding(pages::specs::Initial::initial))]
    pub fn to_pages(&self, alloc: Global) -> Result<Pages, OutOfMemory>
        ensures bytes { IfOk result (λ p. p.memory.bytes ≡ self.now.bytes) }
        ensures code { IfOk result (λ p. p.memory.code ≡ self.now.code) }
    {
        Pages::new(alloc, self.pages(), self.pieces(), self.code())
    }
}
