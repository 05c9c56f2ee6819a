ghost use Rattle.std.specs.Prelude.{◌≡◌, ◌+◌, ◌-◌, ◌*◌, ◌/◌, ◌%◌, ◌^◌, ◌<◌, ◌≤◌, ◌⊎◌, ℕ, List, [], true, false, length, replicate, slice_index, slice_index_or, map, min, All, IfOk, OnOk, OnErr, IfNone, MatchOption, MatchResult, Some, None};
ghost use Rattle.std.specs.Borrow.{sem};
ghost use Rattle.pages.specs.declared.access.Piece.{Piece as PieceOf};
ghost use Rattle.pages.specs.declared.access.Range.{Range as RangeOf};
ghost use Rattle.pages.specs.Flat.{blank, flat, is_ready, page_bytes};
ghost use Rattle.pages.specs.Initial.{initial};
ghost use Rattle.pages.specs.PagesHold.{PagesHold};
ghost use Rattle.pages.specs.Lending.{LendsParts};
ghost use Rattle.pages.specs.Memory.{IsBytes, fetched, loaded, store_fault, width_bytes};
ghost use Rattle.pages.specs.Paged.{all_ready, applied, count_unready, is_page_ready};

use crate::code::{all_code_at, has_word_at, touches_code};
use crate::making::{bounds_of, copies_of, parts_of, share_all};
use crate::prepare::{add_spares, count_all, known_count, make_all_ready, put_into, ready_page};
use crate::spare::Spare;
use crate::{Fault, OutOfMemory, Part, Piece, Range, Store, Width};
use std::alloc::Global;
use std::marker::Model;

/// The most pages that guest memory has: 64 MiB.
pub const MOST_PAGES: u32 = 16_384;

/// Guest memory from address 0 on, in pages of 4096 bytes. A page takes memory once it is ready, and copies may share it.
// docs/decisions/storage.md
pub struct Pages {
    parts: Vec<Part>,
    spares: Vec<Spare>,
    // How many pages are not ready, where that is known.
    unready: Option<u32>,
    code: Vec<Range>,
    code_start: u64,
    code_end: u64,
}

// By hand, so that a proof has one step for it wherever one is dropped, in this crate and above.
impl Drop for Pages {
    fn drop(self) {
        let Pages {
            parts,
            spares,
            unready: _,
            code,
            code_start: _,
            code_end: _,
        } = self;
        drop(parts);
        drop(spares);
        drop(code);
    }
}

impl Model for Pages {
    ghost use Rattle.std.specs.Prelude.{length, map};
    ghost use Rattle.pages.specs.Paged.{Paged};

    ghost Value = { Paged };

    ghost use Rattle.pages.specs.Flat.{flat, is_ready};
    ghost use Rattle.pages.specs.PagesHold.{PagesHold};

    ghost view = { λ p. record {
      memory = record {
        bytes = flat p.parts.items;
        code = p.code.items;
      };
      ready = map is_ready p.parts.items;
      spare = length p.spares.items;
    } };

    ghost invariant = { λ p.
        PagesHold p.parts.items (length p.spares.items) p.unready p.code.items p.code_start
        p.code_end };
}

impl Pages {
    /// Guest memory of so many pages, each byte that of the first piece that holds it, else 0. The pages
    /// that a piece touches are ready.
    pub fn new(
        alloc: Global,
        count: u32,
        pieces: &[Piece],
        code: &[Range],
    ) -> Result<Pages, OutOfMemory>
        requires least { 1 ≤ count }
        requires most { count ≤ MOST_PAGES }
        requires pieces { All (λ (p : PieceOf). p.start + length p.bytes.items ≤
            4096 * count) pieces.now }
        requires code { All (λ (r : RangeOf). r.start + r.len ≤ 4096 * count) code.now }
        ensures { IfOk result (λ p. p ≡ initial count pieces.now code.now) }
    {
        let (code_start, code_end) = bounds_of(code);
        let parts = parts_of(alloc, count, pieces)?;
        let unready = Some(count_all(&parts));
        Ok(Pages {
            parts,
            spares: Vec::new(alloc),
            unready,
            code: Vec::from_slice(alloc, code)?,
            code_start,
            code_end,
        })
    }

    /// Equal guest memory, with no spare page.
    pub fn copy(&self, alloc: Global) -> Result<Pages, OutOfMemory>
        ensures memory { IfOk result (λ p. p.memory ≡ self.now.memory) }
        ensures ready { IfOk result (λ p. p.ready ≡ self.now.ready) }
        ensures spare { IfOk result (λ p. p.spare ≡ 0) }
    {
        Ok(Pages {
            parts: copies_of(alloc, &self.parts)?,
            spares: Vec::new(alloc),
            unready: self.unready,
            code: Vec::from_slice(alloc, &self.code)?,
            code_start: self.code_start,
            code_end: self.code_end,
        })
    }

    /// Equal guest memory with no spare page, which shares what the pages hold. From then on neither of the two has a page
    /// that is ready: each gets one of its own once the page is prepared, or written to with a spare page. No page's bytes
    /// are copied.
    ///
    /// # Errors
    ///
    /// `OutOfMemory`, and the bytes are what they were.
    pub fn share(&mut self, alloc: Global) -> Result<Pages, OutOfMemory>
        ensures memory { IfOk result (λ p. p.memory ≡ self.old.memory) }
        ensures unready { IfOk result (λ p. p.ready ≡ replicate (length self.old.ready) false) }
        ensures no_spare { IfOk result (λ p. p.spare ≡ 0) }
        ensures left_unready { OnOk result (self.new.ready ≡
            replicate (length self.old.ready) false) }
        ensures stays { self.new.memory ≡ self.old.memory }
        ensures spare { self.new.spare ≡ self.old.spare }
        ensures count { length self.new.ready ≡ length self.old.ready }
    {
        // Refused, it is not known how many share what they hold.
        self.unready = None;
        share_all(alloc, self.parts.as_mut_slice())?;
        self.unready = Some(self.count());
        self.copy(alloc)
    }

    /// How many pages there are.
    #[inline]
    pub fn count(&self) -> u32
        ensures pages { result ≡ length self.now.ready }
        ensures bytes { 4096 * result ≡ length self.now.memory.bytes }
        ensures most { result ≤ MOST_PAGES }
    {
        self.parts.len() as u32
    }

    /// How many spare pages are left.
    #[inline]
    pub fn spare(&self) -> u32
        ensures { result ≡ self.now.spare }
    {
        self.spares.len() as u32
    }

    /// How many pages are not ready. The number is noted, so that each page is looked at only where `parts` lent them since.
    pub fn unready(&self) -> u32
        ensures { result ≡ count_unready self.now.ready }
    {
        known_count(&self.parts, self.unready)
    }

    /// Keeps how many pages are not ready. A caller that did no more than stores on pages that `parts` lent knows it, and so
    /// spares the next count the look at each page.
    // docs/decisions/storage.md
    #[inline]
    pub fn keep_unready(&mut self, unready: u32)
        requires { unready ≡ count_unready self.old.ready }
        ensures { self.new ≡ self.old }
    {
        self.unready = Some(unready);
    }

    /// Whether a page is ready. None is past the last.
    #[inline]
    pub fn ready(&self, page: u32) -> bool
        ensures { result ≡ is_page_ready self.now page }
    {
        match self.parts.get(page as usize) {
            Some(part) => part.ready(),
            None => false,
        }
    }

    /// The 4096 bytes of a page, if it holds some. One that holds none reads 0.
    pub fn page(&self, page: u32) -> Option<&[u8]>
        ensures ready { IfNone result (is_page_ready self.now page ≡ false) }
        ensures bytes { MatchOption result (page < length self.now.ready →
            page_bytes self.now.memory.bytes page ≡ blank) (λ bytes. bytes.now ≡
            page_bytes self.now.memory.bytes page) }
    {
        match self.parts.get(page as usize) {
            Some(part) => part.bytes(),
            None => None,
        }
    }

    /// The number of this width at an address, or why it cannot be loaded.
    #[inline(always)]
    pub fn read(&self, address: u64, width: Width) -> Result<u64, Fault>
        ensures value { result ≡ loaded self.now.memory address width }
        ensures fits { IfOk result (λ v. v < 2 ^ (8 * width_bytes width)) }
    {
        if address % width.bytes() != 0 {
            return Err(Fault::LoadMisaligned);
        }
        match self.parts.get((address / 4096) as usize) {
            Some(part) => Ok(part.number(address % 4096, width)),
            None => Err(Fault::LoadOutside),
        }
    }

    /// The byte at an address of guest memory.
    #[inline]
    pub fn byte(&self, address: u64) -> u8
        requires { address < length self.now.memory.bytes }
        ensures { result ≡ slice_index self.now.memory.bytes address }
    {
        self.parts[(address / 4096) as usize].number(address % 4096, Width::W1) as u8
    }

    /// Each byte of guest memory is one.
    pub fn bytes_fit(&self)
        ensures { IsBytes self.now.memory.bytes }
    {
        let _parts = &self.parts;
    }

    /// The allocator that the pages come from.
    #[inline]
    pub fn allocator(&self) -> Global {
        *self.parts.allocator()
    }

    /// The code ranges.
    #[inline]
    pub fn code(&self) -> &[Range]
        ensures { result.now ≡ self.now.memory.code }
    {
        &self.code
    }

    /// The word at an address, if its four bytes lie in memory and are code.
    #[inline(always)]
    pub fn fetch(&self, pc: u64) -> Option<u32>
        ensures { result ≡ fetched self.now.memory pc }
    {
        let place = pc % 4096;
        if place <= 4092 && has_word_at(&self.code, pc) {
            return match self.parts.get((pc / 4096) as usize) {
                Some(part) => Some(part.number(place, Width::W4) as u32),
                None => None,
            };
        }
        self.fetch_apart(pc)
    }

    // The same for a word of two pages or of several ranges.
    #[cold]
    #[inline(never)]
    fn fetch_apart(&self, pc: u64) -> Option<u32>
        ensures { result ≡ fetched self.now.memory pc }
    {
        let len = 4096 * u64::from(self.count());
        if pc >= len || len - pc < 4 {
            return None;
        }
        if !all_code_at(&self.code, pc) {
            return None;
        }
        Some(u32::from_le_bytes([
            self.byte(pc),
            self.byte(pc + 1),
            self.byte(pc + 2),
            self.byte(pc + 3),
        ]))
    }

    /// Whether a store of this width may be done at an address, or its fault.
    #[inline]
    pub fn check_store(&self, address: u64, width: Width) -> Result<(), Fault>
        ensures { MatchResult result (λ _. store_fault self.now.memory address width ≡
            None) (λ e. store_fault self.now.memory address width ≡ Some e) }
    {
        if address % width.bytes() != 0 {
            return Err(Fault::StoreMisaligned);
        }
        if address / 4096 >= self.parts.len() as u64 {
            return Err(Fault::StoreOutside);
        }
        if touches_code(&self.code, self.code_start, self.code_end, address, width) {
            return Err(Fault::StoreToCode);
        }
        Ok(())
    }

    /// Makes these pages ready, and sees that at least `spare` spare pages are left, or as many as there are
    /// pages that are not ready. Refused, it changes no byte, and pages that were ready stay ready.
    #[inline]
    pub fn prepare(&mut self, alloc: Global, pages: &[u32], spare: u32) -> Result<(), OutOfMemory>
        requires { All (λ (p : ℕ). p < length self.old.ready) pages.now }
        ensures memory { self.new.memory ≡ self.old.memory }
        ensures ready { OnOk result (self.new.ready ≡ all_ready self.old.ready pages.now) }
        ensures spare { OnOk result (min spare (count_unready self.new.ready) ≤ self.new.spare) }
        ensures count { length self.new.ready ≡ length self.old.ready }
        ensures stays { (p : ℕ) → is_page_ready self.old p ≡ true →
            is_page_ready self.new p ≡ true }
    {
        let parts = self.parts.as_mut_slice();
        make_all_ready(alloc, parts, &mut self.spares, &mut self.unready, pages)?;
        if self.spares.len() >= spare as usize {
            return Ok(());
        }
        let unready = known_count(parts, self.unready);
        self.unready = Some(unready);
        add_spares(alloc, &mut self.spares, unready as usize, spare as usize)
    }

    /// Does a store that has no fault, on a page that is ready or with a spare page left. It takes no memory.
    #[inline(always)]
    pub fn apply(&mut self, s: Store)
        requires accepted { store_fault self.old.memory s.address s.width ≡ None }
        requires room { (is_page_ready self.old (s.address / 4096) ≡ true) ⊎ (0 < self.old.spare) }
        ensures { self.new ≡ applied self.old s }
    {
        let parts = self.parts.as_mut_slice();
        ready_page(
            parts,
            &mut self.spares,
            &mut self.unready,
            (s.address / 4096) as usize,
        );
        put_into(parts, s);
    }

    /// The pages, one part each, in rising order. How many are not ready has to be counted again, or told by `keep_unready`.
    #[inline]
    pub fn parts(&mut self) -> &mut [Part]
        ensures* writes_back { sem 𝓛 (LendsParts self.entry result) }
        ensures bytes { flat result.now ≡ self.old.memory.bytes }
        ensures ready { map is_ready result.now ≡ self.old.ready }
    {
        // Other pages may come back.
        self.unready = None;
        self.parts.as_mut_slice()
    }
}
