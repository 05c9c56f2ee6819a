//! Memory where a list of stores begins.
ghost use Rattle.std.specs.Prelude.{◌≡◌, ℕ, if◌then◌else◌};
ghost use Rattle.all_endings.specs.Endings.{opening_bytes};
ghost use Rattle.all_endings.specs.StoreLists.{byte_in, has_byte};
ghost use Rattle.all_endings.specs.Tables.{memory_of};
ghost use Rattle.hart_states.specs.States.{listed, stored_of};

use crate::listed_store::ListedStore;
use pages::{Pages, Width};
use round_schedule::Access;

/// Guest memory where a list begins: what stores left of it that stand before the list.
#[derive(Clone, Copy)]
pub struct OpeningMemory<'a> {
    /// Memory as the program begins.
    pub pages: &'a Pages,
    /// The stores behind which the list stands, in their order: each to nobody's own bytes.
    pub behind: &'a [ListedStore],
}

impl OpeningMemory<'_> {
    ghost use Rattle.std.specs.Prelude.{◌≡◌};
    ghost use Rattle.all_endings.specs.Tables.{memory_of};
    ghost use Rattle.hart_states.specs.Opening.{opening_of};
    ghost use Rattle.hart_states.specs.States.{listed};

    /// The byte at an address: outside of memory 0.
    pub fn byte(&self, address: u64) -> u8
        ensures { result ≡ opening_of self.now address }
    {
        left_by(self.behind, address, opening_byte(self.pages, address))
    }

    /// The byte at an address after a list.
    pub fn byte_after(&self, list: &[ListedStore], address: u64) -> u8
        ensures { result ≡ memory_of (listed list.now) (opening_of self.now) address }
    {
        left_by(list, address, self.byte(address))
    }
}

/// The byte at an address after stores, where this was there before: that of the last one that writes it.
fn left_by(list: &[ListedStore], address: u64, before: u8) -> u8
    ensures { (opening : ℕ → ℕ) → before ≡ opening address →
        result ≡ memory_of (listed list.now) opening address }
{
    let mut byte = before;
    for store in list {
        byte = byte_behind(store, address, byte);
    }
    byte
}

/// The byte at an address behind a store, where this was there before it.
fn byte_behind(store: &ListedStore, address: u64, before: u8) -> u8
    ensures { result ≡ (if has_byte (stored_of store.now) address
        then byte_in (stored_of store.now) address else before) }
{
    if store.writes(address) {
        byte_in(store, address)
    } else {
        before
    }
}

/// The byte at an address as the program begins: outside of memory 0.
fn opening_byte(pages: &Pages, address: u64) -> u8
    ensures { result ≡ opening_bytes pages.now.memory address }
{
    if address < u64::from(pages.count()) * 4096 {
        pages.byte(address)
    } else {
        0
    }
}

/// The byte that a store has for an address at or behind its own.
fn byte_in(store: &ListedStore, address: u64) -> u8
    ensures { result ≡ byte_in (stored_of store.now) address }
{
    let written = Access::Store {
        width: Width::W8,
        place: 0,
        address: 0,
        written: store.number,
    };
    written.byte_written(address.saturating_sub(store.address))
}
