ghost use Rattle.std.specs.Prelude.{◌≡◌, ◌-◌, ◌+◌, ◌*◌, ◌^◌, ◌%◌, ◌≤◌, ◌<◌, ◌⊎◌, ℕ, [], true, false, length, slice_index, if◌then◌else◌, IfOk, IfSome, MatchOption, OnOk};
ghost use Rattle.pages.specs.Flat.{Page, absent, blank, bytes_in, full, in_page, is_ready, page_of};
ghost use Rattle.pages.specs.Memory.{in_range, put, value_at, width_bytes};

use crate::number::{lay_over, number_in, write_number};
use crate::spare::Spare;
use crate::{OutOfMemory, Store, Width};
use std::alloc::Global;
use std::marker::Model;
use std::mem;
use std::sync::Arc;

/// How many bytes a page has.
pub(crate) const PAGE_BYTES: usize = 4096;

/// The bytes, if there are some.
#[inline]
fn if_some(bytes: &[u8]) -> Option<&[u8]>
    ensures { MatchOption result (length bytes.now ≡ 0) (λ b. (0 < length bytes.now) ×
        (b.now ≡ bytes.now) × ((k : ℕ) → slice_index bytes.now k < 2 ^ 8)) }
{
    if bytes.is_empty() {
        return None;
    }
    Some(bytes)
}

/// One page of guest memory. It holds bytes of its own, or reads those that it shares with equal copies, or holds none.
#[derive(Drop)]
pub struct Part {
    own: Vec<u8>,
    // What the page reads while it has no bytes of its own.
    shared: Option<Arc<Vec<u8>>>,
}

impl Model for Part {
    ghost Value = { Page };

    ghost view = { λ p. page_of p.own.items (bytes_in p.shared (λ a. a.value.items)) };

    ghost invariant = { λ p. ((length p.own.items ≡ 0) ⊎ (length p.own.items ≡ 4096)) ×
        IfSome p.shared (λ a. length a.value.items ≡ 4096) };
}

impl Part {
    /// A page that holds no bytes. It takes no memory.
    pub(crate) fn absent(alloc: Global) -> Part
        ensures { result ≡ absent }
    {
        Part {
            own: Vec::new(alloc),
            shared: None,
        }
    }

    /// An equal page: its own bytes are copied, and those that it shares are shared.
    #[inline]
    pub(crate) fn copy(&self, alloc: Global) -> Result<Part, OutOfMemory>
        ensures { IfOk result (λ p. p ≡ self.now) }
    {
        let shared = match &self.shared {
            Some(bytes) => Some(bytes.clone()?),
            None => None,
        };
        // Most pages of a guest that was opened many times have no bytes of their own.
        let own = if self.own.is_empty() {
            Vec::new(alloc)
        } else {
            Vec::from_slice(alloc, &self.own)?
        };
        Ok(Part { own, shared })
    }

    /// Has copies share the bytes from here on, so that the page has none of its own. Refused, it keeps its own.
    pub(crate) fn share(&mut self, alloc: Global) -> Result<(), OutOfMemory>
        ensures bytes { self.new.bytes ≡ self.old.bytes }
        ensures unready { OnOk result (is_ready self.new ≡ false) }
    {
        if self.own.is_empty() {
            return Ok(());
        }
        match Arc::new(alloc, mem::replace(&mut self.own, Vec::new(alloc))) {
            Ok(shared) => {
                self.shared = Some(shared);
                Ok(())
            }
            Err(refused) => {
                self.own = refused.value;
                Err(OutOfMemory)
            }
        }
    }

    /// Takes a spare page's room for bytes of its own, and what the page reads stays.
    pub(crate) fn take_spare(&mut self, spare: Spare)
        requires unready { is_ready self.old ≡ false }
        ensures bytes { full self.new ≡ full self.old }
        ensures ready { is_ready self.new ≡ true }
    {
        let own = match &self.shared {
            Some(bytes) => spare.holding(bytes),
            None => spare.zeroed(),
        };
        self.own = own;
        self.shared = None;
    }

    // Sees that the page has bytes of its own.
    fn make_own(&mut self, alloc: Global) -> Result<(), OutOfMemory>
        ensures bytes { OnOk result (full self.new ≡ full self.old) }
        ensures ready { OnOk result (is_ready self.new ≡ true) }
    {
        if self.own.is_empty() {
            self.take_spare(Spare::new(alloc)?);
        }
        Ok(())
    }

    /// Lays bytes into the page from a place on, which makes it ready.
    pub(crate) fn fill(
        &mut self,
        alloc: Global,
        place: usize,
        bytes: &[u8],
    ) -> Result<(), OutOfMemory>
        requires { place + length bytes.now ≤ 4096 }
        ensures bytes { OnOk result ((k : ℕ) → k < 4096 → slice_index (full self.new) k ≡
            (if in_range place (length bytes.now) k then slice_index bytes.now (k -
            place) else slice_index (full self.old) k)) }
        ensures ready { OnOk result (is_ready self.new ≡ true) }
    {
        self.make_own(alloc)?;
        lay_over(&mut self.own, place, bytes);
        Ok(())
    }

    /// Whether the page holds bytes of its own, so that a store can be done in place.
    #[inline]
    pub fn ready(&self) -> bool
        ensures { result ≡ is_ready self.now }
    {
        !self.own.is_empty()
    }

    /// The page's bytes, its own or those that it shares, if it holds some.
    pub(crate) fn bytes(&self) -> Option<&[u8]>
        ensures { MatchOption result ((is_ready self.now ≡ false) ×
            (full self.now ≡ blank)) (λ bytes. bytes.now ≡ full self.now) }
    {
        if_some(self.held())
    }

    // The same, none where it holds none.
    fn held(&self) -> &[u8]
        ensures bytes { result.now ≡ self.now.bytes }
        ensures size { (length result.now ≡ 0) ⊎ (length result.now ≡ 4096) }
        ensures own { length result.now ≡ 0 → is_ready self.now ≡ false }
    {
        if self.own.is_empty() {
            if let Some(bytes) = &self.shared {
                return bytes.as_slice();
            }
        }
        &self.own
    }

    /// The number of this width from a place in the page on.
    #[inline(always)]
    pub(crate) fn number(&self, place: u64, width: Width) -> u64
        requires { place + width_bytes width ≤ 4096 }
        ensures value { result ≡ value_at (full self.now) place width }
        ensures fits { result < 2 ^ (8 * width_bytes width) }
    {
        if self.own.is_empty() {
            return self.number_apart(place, width);
        }
        number_in(&self.own, place as usize, width)
    }

    // The same for a page with no bytes of its own.
    #[inline(never)]
    fn number_apart(&self, place: u64, width: Width) -> u64
        requires { place + width_bytes width ≤ 4096 }
        ensures value { result ≡ value_at (full self.now) place width }
        ensures fits { result < 2 ^ (8 * width_bytes width) }
    {
        let bytes = self.held();
        if bytes.is_empty() {
            return 0;
        }
        number_in(bytes, place as usize, width)
    }

    /// Does a store, at its address modulo 4096.
    #[inline(always)]
    pub fn apply(&mut self, s: Store)
        requires ready { is_ready self.old ≡ true }
        requires aligned { s.address % width_bytes s.width ≡ 0 }
        ensures bytes { full self.new ≡ put (full self.old) (in_page s) }
        ensures ready { is_ready self.new ≡ true }
    {
        write_number(&mut self.own, (s.address % 4096) as usize, s.width, s.value);
    }
}
