ghost use Rattle.std.specs.Prelude.{◌≡◌, ◌+◌, ◌/◌, ◌%◌, ◌<◌, ◌≤◌, ◌⊎◌, ℕ, true, false, length, slice_index_or, slice_set, map, max, min, All, IfSome, OnOk, OnErr, vec_len};
ghost use Rattle.pages.specs.Flat.{absent, flat, is_ready};
ghost use Rattle.pages.specs.PagesHold.{IsCounted};
ghost use Rattle.pages.specs.Paged.{all_ready, count_unready, spare_after};
ghost use Rattle.pages.specs.Memory.{put, width_bytes};

use crate::pages::MOST_PAGES;
use crate::spare::Spare;
use crate::{OutOfMemory, Part, Store};
use std::alloc::Global;

/// Makes a page ready with a spare one, which takes over what the page reads.
pub(crate) fn use_spare(
    parts: &mut [Part],
    spares: &mut Vec<Spare>,
    unready: &mut Option<u32>,
    page: usize,
)
    requires page { page < length parts.old }
    requires unready { is_ready (slice_index_or parts.old page absent) ≡ false }
    requires room { 0 < vec_len spares.old }
    requires counted { IsCounted unready.old (map is_ready parts.old) }
    ensures bytes { flat parts.new ≡ flat parts.old }
    ensures ready { map is_ready parts.new ≡ slice_set (map is_ready parts.old) page true }
    ensures spares { vec_len spares.new + 1 ≡ vec_len spares.old }
    ensures counted { IsCounted unready.new (map is_ready parts.new) }
{
    count_less(unready);
    if let Some(spare) = spares.pop() {
        parts[page].take_spare(spare);
    }
}

// One page less is not ready.
#[inline]
fn count_less(unready: &mut Option<u32>)
    requires { IfSome unready.old (λ n. 0 < n) }
    ensures { (n : ℕ) → IfSome unready.old (λ k. k ≡ n + 1) → IfSome unready.new (λ k. k ≡ n) }
{
    if let Some(count) = unready {
        *count -= 1;
    }
}

/// Sees that a page is ready, with a spare one if it is not.
#[inline(always)]
pub(crate) fn ready_page(
    parts: &mut [Part],
    spares: &mut Vec<Spare>,
    unready: &mut Option<u32>,
    page: usize,
)
    requires page { page < length parts.old }
    requires room { (is_ready (slice_index_or parts.old page absent) ≡ true) ⊎
        (0 < vec_len spares.old) }
    requires counted { IsCounted unready.old (map is_ready parts.old) }
    ensures bytes { flat parts.new ≡ flat parts.old }
    ensures ready { map is_ready parts.new ≡ slice_set (map is_ready parts.old) page true }
    ensures spares { vec_len spares.new ≡
        spare_after (is_ready (slice_index_or parts.old page absent)) (vec_len spares.old) }
    ensures counted { IsCounted unready.new (map is_ready parts.new) }
{
    if parts[page].ready() {
        return;
    }
    use_spare(parts, spares, unready, page);
}

/// Does a store on its page, which is ready.
#[inline(always)]
pub(crate) fn put_into(parts: &mut [Part], s: Store)
    requires page { s.address / 4096 < length parts.old }
    requires ready { is_ready (slice_index_or parts.old (s.address / 4096) absent) ≡ true }
    requires aligned { s.address % width_bytes s.width ≡ 0 }
    ensures bytes { flat parts.new ≡ put (flat parts.old) s }
    ensures ready { map is_ready parts.new ≡ map is_ready parts.old }
{
    parts[(s.address / 4096) as usize].apply(s);
}

/// Makes a page ready, with a spare one if there is one.
pub(crate) fn make_ready(
    alloc: Global,
    parts: &mut [Part],
    spares: &mut Vec<Spare>,
    unready: &mut Option<u32>,
    page: usize,
) -> Result<(), OutOfMemory>
    requires page { page < length parts.old }
    requires counted { IsCounted unready.old (map is_ready parts.old) }
    ensures bytes { flat parts.new ≡ flat parts.old }
    ensures ready { OnOk result (map is_ready parts.new ≡
        slice_set (map is_ready parts.old) page true) }
    ensures err { OnErr result (map is_ready parts.new ≡ map is_ready parts.old) }
    ensures spares { vec_len spares.new ≤ vec_len spares.old }
    ensures counted { IsCounted unready.new (map is_ready parts.new) }
{
    if parts[page].ready() {
        return Ok(());
    }
    if spares.is_empty() {
        spares.push(Spare::new(alloc)?)?;
    }
    use_spare(parts, spares, unready, page);
    Ok(())
}

/// Makes the pages of a list ready.
pub(crate) fn make_all_ready(
    alloc: Global,
    parts: &mut [Part],
    spares: &mut Vec<Spare>,
    unready: &mut Option<u32>,
    pages: &[u32],
) -> Result<(), OutOfMemory>
    requires pages { All (λ (p : ℕ). p < length parts.old) pages.now }
    requires counted { IsCounted unready.old (map is_ready parts.old) }
    ensures bytes { flat parts.new ≡ flat parts.old }
    ensures ready { OnOk result (map is_ready parts.new ≡
        all_ready (map is_ready parts.old) pages.now) }
    ensures stays { (p : ℕ) → slice_index_or (map is_ready parts.old) p false ≡ true →
        slice_index_or (map is_ready parts.new) p false ≡ true }
    ensures spares { vec_len spares.new ≤ vec_len spares.old }
    ensures counted { IsCounted unready.new (map is_ready parts.new) }
{
    for page in pages {
        make_ready(alloc, parts, spares, unready, *page as usize)?;
    }
    Ok(())
}

/// How many pages are not ready: the number that is noted, and where none is, all pages are counted.
pub(crate) fn known_count(parts: &[Part], unready: Option<u32>) -> u32
    requires most { length parts.now ≤ MOST_PAGES }
    requires counted { IsCounted unready (map is_ready parts.now) }
    ensures { result ≡ count_unready (map is_ready parts.now) }
{
    match unready {
        Some(count) => count,
        None => count_all(parts),
    }
}

/// Counts the pages that are not ready.
pub(crate) fn count_all(parts: &[Part]) -> u32
    requires { length parts.now ≤ MOST_PAGES }
    ensures { result ≡ count_unready (map is_ready parts.now) }
{
    parts.iter().filter(|part| !part.ready()).count() as u32
}

/// Adds spare pages until there are so many, or as many as pages that are not ready, of which it is told the number.
pub(crate) fn add_spares(
    alloc: Global,
    spares: &mut Vec<Spare>,
    unready: usize,
    count: usize,
) -> Result<(), OutOfMemory>
    ensures count { OnOk result (min count unready ≤ vec_len spares.new) }
    ensures few { vec_len spares.new ≤ max (vec_len spares.old) unready }
{
    while spares.len() < unready.min(count) {
        spares.push(Spare::new(alloc)?)?;
    }
    Ok(())
}
