//! Which stores of a list stay in it, where the others are laid into memory.
ghost use Rattle.std.specs.Prelude.{◌≡◌, ℕ, true, false, [], ◌∷◌, ◌++◌, length, slice_index_or, IfOk, IsTrue, OnOk};
ghost use Rattle.all_endings.specs.StoreLists.{has_byte, no_store};
ghost use Rattle.hart_states.specs.States.{listed};
ghost use Rattle.list_suffixes.specs.Staying.{MayBeLaid, kept, laid, stays_at};
ghost use Rattle.ending_nodes.specs.Raising.{MeetsNone};

use crate::laying::meets;
use hart_states::{ListedStore, store_at};
use late_spots::stays_at;
use pages::OutOfMemory;
use std::alloc::Global;

/// Which stores of a list stay, where some are marked: with these each one that shares a byte with one before it that stays, since memory would have
/// this byte as the later one left it.
pub(crate) fn held(
    alloc: Global,
    list: &[ListedStore],
    marked: &[bool],
) -> Result<Vec<bool>, OutOfMemory>
    ensures many { IfOk result (λ v. length v.items ≡ length list.now) }
    ensures free { IfOk result (λ v. MayBeLaid v.items (listed list.now)) }
{
    let mut stays = Vec::new(alloc);
    for store in 0..list.len() {
        let stay = has_to_stay(list, marked, &stays, store);
        stays.push(stay)?;
    }
    Ok(stays)
}

/// Whether a store is marked, or shares a byte with one before it that stays.
fn has_to_stay(list: &[ListedStore], marked: &[bool], stays: &[bool], store: usize) -> bool
    ensures { result ≡ false → MeetsNone stays.now (listed list.now) store }
{
    if stays_at(marked, store) {
        return true;
    }
    for before in 0..store {
        if stays_over(list, stays, before, store) {
            return true;
        }
    }
    false
}

/// Whether a store stays, and shares a byte with another one.
fn stays_over(list: &[ListedStore], stays: &[bool], before: usize, store: usize) -> bool
    ensures { result ≡ false → stays_at stays.now before ≡ true → (x : ℕ) →
        has_byte (slice_index_or (listed list.now) before no_store) x ≡ true →
        has_byte (slice_index_or (listed list.now) store no_store) x ≡ true → ⊥ }
{
    if !stays_at(stays, before) {
        return false;
    }
    are_met(list, before, store)
}

/// Whether the stores at two places of a list share a byte.
fn are_met(list: &[ListedStore], before: usize, store: usize) -> bool
    ensures { result ≡ false → (x : ℕ) →
        has_byte (slice_index_or (listed list.now) before no_store) x ≡ true →
        has_byte (slice_index_or (listed list.now) store no_store) x ≡ false }
{
    match store_at(list, before) {
        Some(first) => match store_at(list, store) {
            Some(second) => meets(&second, &first),
            None => false,
        },
        None => false,
    }
}

/// Whether each store stays.
pub(crate) fn all_stay(stays: &[bool]) -> bool {
    for stay in stays {
        if !*stay {
            return false;
        }
    }
    true
}

/// The stores of a list that stay.
pub(crate) fn kept_stores(
    alloc: Global,
    list: &[ListedStore],
    stays: &[bool],
) -> Result<Vec<ListedStore>, OutOfMemory>
    ensures { IfOk result (λ v. listed v.items ≡ kept stays.now (listed list.now)) }
{
    let mut kept = Vec::new(alloc);
    for index in 0..list.len() {
        push_if(stays_at(stays, index), &mut kept, list[index])?;
    }
    Ok(kept)
}

/// Those that are laid into memory.
pub(crate) fn laid_stores(
    alloc: Global,
    list: &[ListedStore],
    stays: &[bool],
) -> Result<Vec<ListedStore>, OutOfMemory>
    ensures { IfOk result (λ v. listed v.items ≡ laid stays.now (listed list.now)) }
{
    let mut laid = Vec::new(alloc);
    for index in 0..list.len() {
        push_if(!stays_at(stays, index), &mut laid, list[index])?;
    }
    Ok(laid)
}

/// Adds a store, if it is one of those.
fn push_if(
    wanted: bool,
    stores: &mut Vec<ListedStore>,
    store: ListedStore,
) -> Result<(), OutOfMemory>
    ensures yes { OnOk result (IsTrue wanted →
        stores.new.items ≡ stores.old.items ++ store ∷ []) }
    ensures no { OnOk result (wanted ≡ false → stores.new.items ≡ stores.old.items) }
{
    if !wanted {
        return Ok(());
    }
    stores.push(store)?;
    Ok(())
}
