ghost use Rattle.std.specs.Prelude.{◌≡◌, ◌+◌, ◌-◌, ◌*◌, ◌<◌, ◌≤◌, ◌^◌, ◌||◌, ℕ, false, length, replicate, slice_index, if◌then◌else◌, map, All, IfOk, OnOk};
ghost use Rattle.std.specs.List.{range_with_len};
ghost use Rattle.pages.specs.declared.access.Piece.{Piece as PieceOf};
ghost use Rattle.pages.specs.declared.access.Range.{Range as RangeOf};
ghost use Rattle.pages.specs.Code.{overlaps};
ghost use Rattle.pages.specs.Flat.{flat, full, is_ready};
ghost use Rattle.pages.specs.Initial.{bytes_from, is_touched};
ghost use Rattle.pages.specs.PagesHold.{LiesWithin};
ghost use Rattle.pages.specs.Memory.{in_range};

use crate::pages::MOST_PAGES;
use crate::{OutOfMemory, Part, Piece, Range};
use std::alloc::Global;

/// So many pages that hold these pieces, of which only the touched ones take memory.
pub(crate) fn parts_of(
    alloc: Global,
    count: u32,
    pieces: &[Piece],
) -> Result<Vec<Part>, OutOfMemory>
    requires most { count ≤ MOST_PAGES }
    requires pieces { All (λ (p : PieceOf). p.start + length p.bytes.items ≤ 2 ^ 26) pieces.now }
    ensures bytes { IfOk result (λ v. flat v.items ≡ bytes_from pieces.now 0 (4096 * count)) }
    ensures ready { IfOk result (λ v. map is_ready v.items ≡
        map (is_touched pieces.now) (range_with_len 0 count)) }
{
    let mut parts = Vec::with_capacity(alloc, count as usize)?;
    for page in 0..count {
        parts.push(part_of(alloc, page, pieces)?)?;
    }
    Ok(parts)
}

/// Equal pages.
pub(crate) fn copies_of(alloc: Global, parts: &[Part]) -> Result<Vec<Part>, OutOfMemory>
    ensures { IfOk result (λ v. v.items ≡ parts.now) }
{
    let mut copies = Vec::with_capacity(alloc, parts.len())?;
    for part in parts {
        copies.push(part.copy(alloc)?)?;
    }
    Ok(copies)
}

/// Has copies share what each page holds.
pub(crate) fn share_all(alloc: Global, parts: &mut [Part]) -> Result<(), OutOfMemory>
    ensures bytes { flat parts.new ≡ flat parts.old }
    ensures unready { OnOk result (map is_ready parts.new ≡ replicate (length parts.old) false) }
{
    for page in 0..parts.len() {
        parts[page].share(alloc)?;
    }
    Ok(())
}

// The page of this number. The first piece wins, so it is laid last.
fn part_of(alloc: Global, page: u32, pieces: &[Piece]) -> Result<Part, OutOfMemory>
    requires page { page < MOST_PAGES }
    requires pieces { All (λ (p : PieceOf). p.start + length p.bytes.items ≤ 2 ^ 26) pieces.now }
    ensures bytes { IfOk result (λ p. full p ≡ bytes_from pieces.now (4096 * page) 4096) }
    ensures ready { IfOk result (λ p. is_ready p ≡ is_touched pieces.now page) }
{
    let mut part = Part::absent(alloc);
    let mut left = pieces.len();
    while left > 0 {
        left -= 1;
        lay(alloc, &mut part, 4096 * u64::from(page), &pieces[left])?;
    }
    Ok(part)
}

// Lays a piece into the page that starts at an address, as far as it reaches there.
fn lay(alloc: Global, part: &mut Part, start: u64, piece: &Piece) -> Result<(), OutOfMemory>
    requires start { start < 2 ^ 26 }
    requires piece { piece.now.start + length piece.now.bytes.items ≤ 2 ^ 26 }
    ensures bytes { OnOk result ((k : ℕ) → k < 4096 → slice_index (full part.new) k ≡
        (if in_range piece.now.start (length piece.now.bytes.items) (start + k) then slice_index
        piece.now.bytes.items (start + k - piece.now.start) else slice_index (full part.old) k)) }
    ensures ready { OnOk result (is_ready part.new ≡
        (overlaps piece.now.start (length piece.now.bytes.items) start 4096 || is_ready part.old)) }
{
    let from = piece.start.max(start);
    let to = (piece.start + piece.bytes.len() as u64).min(start + 4096);
    if from < to {
        let bytes = &piece.bytes[(from - piece.start) as usize..(to - piece.start) as usize];
        part.fill(alloc, (from - start) as usize, bytes)?;
    }
    Ok(())
}

/// Two addresses that all ranges lie within.
pub(crate) fn bounds_of(code: &[Range]) -> (u64, u64)
    requires { All (λ (r : RangeOf). r.start + r.len ≤ 2 ^ 26) code.now }
    ensures within { All (λ (r : RangeOf). LiesWithin result.0 result.1 r) code.now }
    ensures below { result.1 ≤ 2 ^ 26 }
{
    let mut start = u64::MAX;
    let mut end = 0u64;
    for range in code {
        start = start.min(range.start);
        end = end.max(range.start + range.len);
    }
    (start, end)
}
