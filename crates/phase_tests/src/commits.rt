//! The commit of the harts' stores, through the public calls of the crate `commit_phase`.

ghost use Rattle.std.specs.Prelude.{◌≡◌, ◌/◌, ◌<◌, ◌%◌, ℕ, true, All, None, IsTrue};
ghost use Rattle.pages.specs.declared.access.Width.TheVariants.{W1};
ghost use Rattle.pages.specs.Memory.{store_fault, width_bytes};
ghost use Rattle.pages.specs.Paged.{is_page_ready};

mod shards;

use pages::{OutOfMemory, Pages, Store};
use std::alloc::Global;
use store_buffer::StoreBuffer;

/// A buffer of two stores.
fn buffer_of(alloc: Global, first: Store, second: Store) -> Result<StoreBuffer, OutOfMemory>
    requires first { first.address % width_bytes first.width ≡ 0 }
    requires second { second.address % width_bytes second.width ≡ 0 }
{
    let mut buffer = StoreBuffer::new(alloc);
    buffer.put(first)?;
    buffer.put(second)?;
    Ok(buffer)
}

/// Whether a store has no fault, and its page is ready.
fn is_writable(pages: &Pages, s: Store) -> bool
    ensures fits { IsTrue result → store_fault pages.now.memory s.address s.width ≡ None }
    ensures ready { IsTrue result → is_page_ready pages.now (s.address / 4096) ≡ true }
{
    let page = s.address / 4096;
    page < 16_384 && pages.ready(page as u32) && pages.check_store(s.address, s.width).is_ok()
}

/// Whether the bytes of a buffer lie on pages that are ready, and are not code.
fn fits(pages: &Pages, buffer: &StoreBuffer) -> bool
    ensures fits { IsTrue result →
        All (λ (e : ℕ × ℕ). store_fault pages.now.memory e.0 W1 ≡ None) buffer.now }
    ensures ready { IsTrue result →
        All (λ (e : ℕ × ℕ). is_page_ready pages.now (e.0 / 4096) ≡ true) buffer.now }
{
    for s in buffer.stores() {
        if !is_writable(pages, s) {
            return false;
        }
    }
    true
}
