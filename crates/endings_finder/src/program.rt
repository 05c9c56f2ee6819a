//! A guest program as its executions begin with it.

ghost use Rattle.std.specs.Prelude.{◌≡◌, ◌+◌, ◌*◌, ◌≤◌, ℕ, All, IfOk, IsTrue, length, slice_index};
ghost use Rattle.elf_loader.specs.Image.{memory_of};
ghost use Rattle.endings_finder.specs.Fences.{HasFence, IsFence, without};
ghost use Rattle.execution_scripts.specs.Findings.{start_of};
ghost use Rattle.guest_rounds.specs.Guests.{opening_guest};
ghost use Rattle.guest_rounds.specs.Opening.{opening_harts};
ghost use Rattle.pages.specs.Initial.{bytes_from};
ghost use Rattle.pages.specs.declared.access.Piece.{Piece as PieceOf};
ghost use Rattle.pages.specs.declared.access.Range.{Range as RangeOf};
ghost use Rattle.rv64_decode.specs.Table.{instr_of};
ghost use Rattle.trace.specs.Traced.{opening_at};

use elf_loader::Image;
use execution::Execution;
use guest_rounds::opening_harts;
use hart_step::{Hart, decode_around};
use pages::{MOST_PAGES, OutOfMemory, Pages, Piece, Range};
use round_schedule::MOST_HARTS;
use rv64_decode::{Instr, decode};
use serial_phase::SharedState;
use std::alloc::Global;
use std::marker::Model;
use trace::Trace;

/// The instruction that does nothing, `addi x0, x0, 0` (manual, section 2.4).
const NOP: [u8; 4] = [0x13, 0, 0, 0];

/// A guest program as its executions begin with it: as its image has it, or with a NOP in the place of a fence.
pub(crate) struct Program {
    // None is ready, so that a copy of them copies no page's bytes.
    memory: Pages,
    opening: Trace,
    entry: u64,
    pages: u32,
}

// By hand, so that a proof has one step for it wherever one is dropped.
impl Drop for Program {
    fn drop(self) {
        let Program {
            memory,
            opening,
            entry: _,
            pages: _,
        } = self;
        drop(memory);
        drop(opening);
    }
}

impl Model for Program {
    ghost use Rattle.std.specs.Prelude.{◌≡◌, ℕ, slice_index};
    ghost use Rattle.elf_loader.specs.Image.{Loaded};
    ghost use Rattle.trace.specs.Traced.{opening_at};

    ghost Value = { Loaded };

    ghost view = { λ p. record {
      bytes = p.memory.memory.bytes;
      code = p.memory.memory.code;
      entry = p.entry;
      pages = p.pages;
    } };

    ghost invariant = { λ p. (x : ℕ) → opening_at p.opening.opening x ≡
        slice_index p.memory.memory.bytes x };
}

impl Program {
    /// The program of an image.
    ///
    /// # Errors
    ///
    /// `OutOfMemory` alone.
    pub(crate) fn new(alloc: Global, image: Image) -> Result<Program, OutOfMemory>
        ensures { IfOk result (λ p. p ≡ image) }
    {
        let code = Vec::from_slice(alloc, image.code())?;
        let (entry, pages) = (image.entry(), image.pages());
        laid(alloc, image.into_pieces(), &code, entry, pages)
    }

    /// The program in which a fence of the image does nothing.
    ///
    /// # Errors
    ///
    /// `OutOfMemory` alone.
    pub(crate) fn without(alloc: Global, image: Image, pc: u64) -> Result<Program, OutOfMemory>
        requires { HasFence image pc }
        ensures { IfOk result (λ p. p ≡ without image pc) }
    {
        let code = Vec::from_slice(alloc, image.code())?;
        let (entry, pages) = (image.entry(), image.pages());
        let nop = Piece {
            start: pc,
            bytes: Vec::from_slice(alloc, &NOP)?,
        };
        let mut pieces = image.into_pieces();
        // The byte at an address is that of the first piece that has it.
        pieces.insert(0, nop)?;
        laid(alloc, pieces, &code, entry, pages)
    }

    /// Its memory.
    ///
    /// # Errors
    ///
    /// `OutOfMemory` alone.
    pub(crate) fn memory(&self, alloc: Global) -> Result<Pages, OutOfMemory>
        ensures { IfOk result (λ p. p.memory ≡ memory_of self.now) }
    {
        self.memory.copy(alloc)
    }

    /// Its harts.
    ///
    /// # Errors
    ///
    /// `OutOfMemory` alone.
    pub(crate) fn harts(&self, alloc: Global, harts: u32) -> Result<Vec<Hart>, OutOfMemory>
        ensures harts { IfOk result (λ hs.
            hs.items ≡ opening_harts self.now.entry harts 0 harts) }
        ensures count { IfOk result (λ hs. length hs.items ≡ harts) }
    {
        opening_harts(alloc, self.entry, harts)
    }

    /// The bytes that its memory opens with.
    pub(crate) fn opening(&self) -> &Trace
        ensures { (x : ℕ) → opening_at result.now.opening x ≡ slice_index self.now.bytes x }
    {
        &self.opening
    }

    /// The execution in which nothing is done yet.
    ///
    /// # Errors
    ///
    /// `OutOfMemory` alone.
    pub(crate) fn open(
        &self,
        alloc: Global,
        input: &[u8],
        harts: u32,
    ) -> Result<Execution, OutOfMemory>
        requires { harts ≤ MOST_HARTS }
        ensures memory { IfOk result (λ e. e.memory ≡ memory_of self.now) }
        ensures standing { IfOk result (λ e. e.standing ≡
            start_of (opening_guest self.now input.now harts)) }
    {
        let memory = self.memory(alloc)?;
        let code = decode_around(alloc, &memory, self.entry)?;
        let input = Vec::from_slice(alloc, input)?;
        let opened = self.harts(alloc, harts)?;
        Execution::new(
            alloc,
            opened,
            SharedState::open(alloc, memory, code, input, harts),
        )
    }

    /// Whether a fence stands at an address.
    pub(crate) fn has_fence(&self, pc: u64) -> bool
        ensures { IsTrue result → HasFence self.now pc }
    {
        if pc % 4 != 0 {
            return false;
        }
        match self.memory.fetch(pc) {
            Some(word) => is_fence(word),
            None => false,
        }
    }
}

/// Whether a word is a fence.
fn is_fence(word: u32) -> bool
    ensures { IsTrue result → IsFence (instr_of word) }
{
    matches!(decode(word), Some(Instr::Fence { .. }))
}

/// The program of pieces that are laid into memory.
#[tactic(auto, using(crate::proofs::Opened::opened_at), unfolding(pages::specs::Initial::initial))]
fn laid(
    alloc: Global,
    pieces: Vec<Piece>,
    code: &[Range],
    entry: u64,
    pages: u32,
) -> Result<Program, OutOfMemory>
    requires least { 1 ≤ pages }
    requires most { pages ≤ MOST_PAGES }
    requires pieces { All (λ (p : PieceOf). p.start + length p.bytes.items ≤
        4096 * pages) pieces.items }
    requires code { All (λ (r : RangeOf). r.start + r.len ≤ 4096 * pages) code.now }
    ensures { IfOk result (λ p. p ≡ record {
      bytes = bytes_from pieces.items 0 (4096 * pages);
      code = code.now;
      entry = entry;
      pages = pages;
    }) }
{
    let mut ready = Pages::new(alloc, pages, &pieces, code)?;
    let memory = ready.share(alloc)?;
    Ok(Program {
        memory,
        opening: Trace::new(alloc, pieces),
        entry,
        pages,
    })
}
