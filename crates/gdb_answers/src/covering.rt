ghost use Rattle.std.specs.Prelude.{◌≡◌, IfOk, OnOk, length};
ghost use Rattle.store_buffer.specs.Covered.{with_store};
ghost use Rattle.gdb_answers.specs.Stores.{bytes_covered};

use pages::{OutOfMemory, Store};
use std::alloc::Global;
use store_buffer::StoreBuffer;

/// How many bytes some stores cover, each address counted once.
pub(crate) fn bytes_covered(alloc: Global, stores: &[Store]) -> Result<u64, OutOfMemory>
    ensures { IfOk result (λ n. n ≡ bytes_covered stores.now) }
{
    let mut covered = StoreBuffer::new(alloc);
    for store in stores {
        put(&mut covered, *store)?;
    }
    count(&covered)
}

/// Puts the bytes of a store over those that are there.
fn put(covered: &mut StoreBuffer, store: Store) -> Result<(), OutOfMemory>
    ensures { OnOk result (covered.new ≡ with_store covered.old store) }
{
    if store.address % store.width.bytes() != 0 {
        // A hart that does such a store stops in its place.
        return Err(OutOfMemory);
    }
    covered.put(store)
}

/// How many bytes there are.
fn count(covered: &StoreBuffer) -> Result<u64, OutOfMemory>
    ensures { IfOk result (λ n. n ≡ length covered.now) }
{
    let mut count: u64 = 0;
    for _byte in covered.stores() {
        match count.checked_add(1) {
            Some(more) => count = more,
            None => return Err(OutOfMemory),
        }
    }
    Ok(count)
}
