//! Stores that are told in a form that doesn't grow: of those to the same bytes the last one, in rising address.
ghost use Rattle.std.specs.Prelude.{◌≡◌, ℕ, false, true, IfOk, IsTrue, OnOk};
ghost use Rattle.all_endings.specs.StoreLists.{byte_in, has_byte};
ghost use Rattle.all_endings.specs.Tables.{memory_of};
ghost use Rattle.hart_states.specs.States.{listed, stored_of};
ghost use Rattle.ending_nodes.specs.Memories.{IsAsBut, Leaves, left_by};

use hart_states::ListedStore;
use pages::OutOfMemory;
use std::alloc::Global;

/// Some stores and a list laid together: they leave what the list leaves behind them. Of those to the same bytes the last one is kept, and they
/// stand in rising address unless they overlap. So two that leave the same are mostly the same.
///
/// # Errors
///
/// `OutOfMemory` alone.
pub(crate) fn laid_together(
    alloc: Global,
    behind: &[ListedStore],
    list: &[ListedStore],
) -> Result<Vec<ListedStore>, OutOfMemory>
    ensures { IfOk result (λ v. (opening : ℕ → ℕ) (x : ℕ) → memory_of (listed v.items) opening x ≡
        memory_of (listed list.now) (memory_of (listed behind.now) opening) x) }
{
    let mut all = Vec::from_slice(alloc, behind)?;
    for store in list {
        let more = inserted(alloc, &all, nobodys(*store))?;
        all = more;
    }
    Ok(all)
}

/// The same store, whoever did it.
fn nobodys(store: ListedStore) -> ListedStore
    ensures bytes { (x : ℕ) → has_byte (stored_of result) x ≡ has_byte (stored_of store) x }
    ensures number { (x : ℕ) → byte_in (stored_of result) x ≡ byte_in (stored_of store) x }
{
    ListedStore { hart: 0, ..store }
}

/// Some stores and one more: the others of its bytes alone are dropped, and it stands before those of higher addresses, or last where one of
/// these has a byte of it.
fn inserted(
    alloc: Global,
    behind: &[ListedStore],
    store: ListedStore,
) -> Result<Vec<ListedStore>, OutOfMemory>
    ensures { IfOk result (λ v. (opening : ℕ → ℕ) (x : ℕ) → memory_of (listed v.items) opening x ≡
        left_by (stored_of store) (memory_of (listed behind.now) opening) x) }
{
    let mut all = Vec::new(alloc);
    let mut stands = false;
    for other in behind {
        stands = put(&mut all, *other, store, stands)?;
    }
    if stands {
        return Ok(all);
    }
    push(&mut all, store)?;
    Ok(all)
}

/// Puts one of the others behind those so far, and before it the store, if this is its place. Says whether what the store leaves stands.
fn put(
    all: &mut Vec<ListedStore>,
    other: ListedStore,
    store: ListedStore,
    stands: bool,
) -> Result<bool, OutOfMemory>
    ensures others { OnOk result (IsAsBut (stored_of store) (stored_of other)
        (listed all.old.items) (listed all.new.items)) }
    ensures stands { IfOk result (λ b. IsTrue b →
        (IsTrue stands → Leaves (stored_of store) (listed all.old.items)) →
        Leaves (stored_of store) (listed all.new.items)) }
{
    if is_within(&other, &store) {
        return Ok(stands);
    }
    let here = put_before(all, store, other.address, stands)?;
    push(all, other)?;
    if meets(&other, &store) {
        return Ok(false);
    }
    Ok(here)
}

/// Puts a store before one at an address, unless what it leaves stands, or the address is no higher. Says whether it stands then.
fn put_before(
    all: &mut Vec<ListedStore>,
    store: ListedStore,
    address: u64,
    stands: bool,
) -> Result<bool, OutOfMemory>
    ensures others { OnOk result ((opening : ℕ → ℕ) (x : ℕ) → has_byte (stored_of store) x ≡ false →
        memory_of (listed all.new.items) opening x ≡ memory_of (listed all.old.items) opening x) }
    ensures stands { IfOk result (λ b. IsTrue b →
        (IsTrue stands → Leaves (stored_of store) (listed all.old.items)) →
        Leaves (stored_of store) (listed all.new.items)) }
{
    if stands || address <= store.address {
        return Ok(stands);
    }
    push(all, store)?;
    Ok(true)
}

fn push(all: &mut Vec<ListedStore>, store: ListedStore) -> Result<(), OutOfMemory>
    ensures { OnOk result ((opening : ℕ → ℕ) (x : ℕ) → memory_of (listed all.new.items) opening x ≡
        left_by (stored_of store) (memory_of (listed all.old.items) opening) x) }
{
    all.push(store)?;
    Ok(())
}

/// Whether each byte of a store is one of another one.
fn is_within(store: &ListedStore, other: &ListedStore) -> bool
    ensures { IsTrue result → (x : ℕ) → has_byte (stored_of store.now) x ≡ true →
        has_byte (stored_of other.now) x ≡ true }
{
    let (few, many) = (store.width.bytes(), other.width.bytes());
    few <= many && other.address <= store.address && store.address - other.address <= many - few
}

/// Whether two stores share a byte.
pub(crate) fn meets(store: &ListedStore, other: &ListedStore) -> bool
    ensures { result ≡ false → (x : ℕ) → has_byte (stored_of other.now) x ≡ true →
        has_byte (stored_of store.now) x ≡ false }
{
    if store.address <= other.address {
        other.address - store.address < store.width.bytes()
    } else {
        store.address - other.address < other.width.bytes()
    }
}
