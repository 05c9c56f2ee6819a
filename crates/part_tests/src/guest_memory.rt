//! Guest memory, through the public calls of the crate `pages`.

use crate::loads::are_read;
use pages::Width::{W1, W2, W4, W8};
use pages::{Fault, OutOfMemory, Pages, Piece, Range, Store, Width};
use std::alloc::Global;
use std::test::Fail;

/// Eight pages with the bytes 1 to 8 from 0 on.
fn eight_pages(alloc: Global) -> Result<Pages, OutOfMemory> {
    let piece = Piece {
        start: 0,
        bytes: [1, 2, 3, 4, 5, 6, 7, 8].to_vec(alloc)?,
    };
    Pages::new(alloc, 8, &[piece], &[])
}

/// Whether a page has 4096 bytes, of which this one is at 7.
fn has_byte(p: &Pages, page: u32, byte: u8) -> bool {
    match p.page(page) {
        Some(bytes) => bytes.len() == 4096 && bytes[7] == byte,
        None => false,
    }
}

#[test]
fn pages_stand_where_bytes_are(rt: HostRuntime) -> Result<(), Fail> {
    let p = eight_pages(rt.alloc())?;
    assert_eq!(rt; p.count(), 8);
    assert!(rt; p.ready(0) && !p.ready(5) && !p.ready(8));
    assert!(rt; has_byte(&p, 0, 8));
    assert!(rt; p.page(5).is_none() && p.page(8).is_none());
    assert!(rt;
        are_read(
            &p,
            &[(0, W8, Ok(0x0807_0605_0403_0201)), (0x5000, W8, Ok(0))]
        )
    );
    Ok(())
}

/// Does a store on the pages as they are, and says whether it has no fault and there is a page for it.
fn apply(p: &mut Pages, s: Store) -> bool {
    if p.check_store(s.address, s.width).is_err() || s.address >= 0x10_0000 {
        return false;
    }
    if p.ready((s.address / 4096) as u32) || p.spare() > 0 {
        p.apply(s);
        return true;
    }
    false
}

/// Stores a doubleword to page 7, and says whether it took one spare page for it.
fn takes_a_page(p: &mut Pages) -> bool {
    let spare = p.spare();
    let s = Store {
        address: 0x7000,
        width: W8,
        value: 0x1122_3344_5566_7788,
    };
    apply(p, s) && p.ready(7) && p.spare() < spare && spare - p.spare() == 1
}

/// Whether eight pages are made ready, by name or as spare ones, and what they read.
fn are_made(alloc: Global, p: &mut Pages) -> Result<[bool; 4], OutOfMemory> {
    if p.count() != 8 {
        return Ok([false; 4]);
    }
    p.prepare(alloc, &[5], 2)?;
    let named = p.ready(5) && p.spare() >= 2;
    let taken = takes_a_page(p);
    let read = are_read(p, &[(0x5000, W8, Ok(0)), (0x7004, W2, Ok(0x3344))]);
    // As many spare pages as there are pages that are not ready, and no more.
    p.prepare(alloc, &[], 100)?;
    Ok([named, taken, read, p.spare() == 5])
}

#[test]
fn spare_pages(rt: HostRuntime) -> Result<(), Fail> {
    let mut p = eight_pages(rt.alloc())?;
    let made = are_made(rt.alloc(), &mut p)?;
    assert_eq!(rt; made, [true; 4]);
    Ok(())
}

/// Two pages with code in three ranges, and two pieces that overlap.
fn pages_with_code(alloc: Global) -> Result<Pages, OutOfMemory> {
    let first = Piece {
        start: 0xffe,
        bytes: [0x11, 0x22, 0x33].to_vec(alloc)?,
    };
    let second = Piece {
        start: 0xfff,
        bytes: [0x77, 0x88, 0x44].to_vec(alloc)?,
    };
    Pages::new(alloc, 2, &[first, second], &CODE)
}

static CODE: [Range; 3] = [
    Range {
        start: 0x10,
        len: 6,
    },
    Range {
        start: 0x16,
        len: 2,
    },
    Range {
        start: 0xffe,
        len: 4,
    },
];

/// Addresses, and the words that are fetched there. The first piece wins, and a word of two pages is fetched whole.
static FETCHED: [(u64, Option<u32>); 9] = [
    (0xffe, Some(0x4433_2211)),
    (0x10, Some(0)),
    (0x13, Some(0)),
    (0x14, Some(0)),
    (0x15, None),
    (0xf, None),
    (0xfff, None),
    (0xffff_ffff_ffff_ffff, None),
    (0x1ffe, None),
];

#[test]
fn words_are_fetched(rt: HostRuntime) -> Result<(), Fail> {
    let p = pages_with_code(rt.alloc())?;
    for (pc, word) in &FETCHED {
        assert!(rt; p.fetch(*pc) == *word, "{pc}");
    }
    Ok(())
}

static LOADED: [(u64, Width, Result<u64, Fault>); 6] = [
    (0xff8, W8, Ok(0x2211_0000_0000_0000)),
    (0x2000, W8, Err(Fault::LoadOutside)),
    (0xffff_ffff_ffff_fff8, W8, Err(Fault::LoadOutside)),
    (0xffff_ffff_ffff_ffff, W1, Err(Fault::LoadOutside)),
    (0xffc, W8, Err(Fault::LoadMisaligned)),
    (0xffff_ffff_ffff_fffc, W8, Err(Fault::LoadMisaligned)),
];

static CHECKED: [(u64, Width, Result<(), Fault>); 6] = [
    (0x17, W1, Err(Fault::StoreToCode)),
    (0x18, W1, Ok(())),
    (8, W8, Ok(())),
    (0xff8, W8, Err(Fault::StoreToCode)),
    (0x2000, W1, Err(Fault::StoreOutside)),
    (0x2004, W8, Err(Fault::StoreMisaligned)),
];

/// Whether each store is let through, or refused, as stands beside it.
fn are_checked(p: &Pages, rows: &[(u64, Width, Result<(), Fault>)]) -> bool {
    for (address, width, answer) in rows {
        if p.check_store(*address, *width) != *answer {
            return false;
        }
    }
    true
}

#[test]
fn faults(rt: HostRuntime) -> Result<(), Fail> {
    let p = pages_with_code(rt.alloc())?;
    assert!(rt; are_read(&p, LOADED.as_slice()));
    assert!(rt; are_checked(&p, CHECKED.as_slice()));
    Ok(())
}

/// Stores to the second of two pages, and says whether it is ready.
fn apply_to_second(p: &mut Pages) -> bool {
    let parts = p.parts();
    if parts.len() != 2 || !parts[1].ready() {
        return false;
    }
    parts[1].apply(Store {
        address: 0x1010,
        width: W2,
        value: 0xabcd_1234,
    });
    true
}

#[test]
fn a_copy_keeps_its_bytes(rt: HostRuntime) -> Result<(), Fail> {
    let mut p = pages_with_code(rt.alloc())?;
    let copy = p.copy(rt.alloc())?;
    assert!(rt; copy.fetch(0xffe) == Some(0x4433_2211) && copy.count() == 2 && copy.ready(0));
    assert!(rt; copy.code().len() == 3 && apply_to_second(&mut p));
    assert!(rt; are_read(&p, &[(0x1010, W4, Ok(0x1234))]));
    assert!(rt; are_read(&copy, &[(0x1010, W4, Ok(0))]));
    Ok(())
}

/// Does a store on the pages, with one spare page made first, and says whether it has no fault.
pub(crate) fn store(alloc: Global, p: &mut Pages, s: Store) -> Result<bool, OutOfMemory> {
    p.prepare(alloc, &[], 1)?;
    Ok(apply(p, s))
}

/// Four pages with the bytes 1 to 8 from 0x1000 on.
fn four_pages(alloc: Global) -> Result<Pages, OutOfMemory> {
    let piece = Piece {
        start: 0x1000,
        bytes: [1, 2, 3, 4, 5, 6, 7, 8].to_vec(alloc)?,
    };
    Pages::new(alloc, 4, &[piece], &[])
}

/// The number at 0x1000 of these pages.
const BEFORE: u64 = 0x0807_0605_0403_0201;

/// The same after `STORED`.
const AFTER: u64 = 0x0807_0605_abcd_0201;

const STORED: Store = Store {
    address: 0x1002,
    width: W2,
    value: 0xabcd,
};

/// Whether the number at 0x1000 is this one, and the page ready or not.
fn has(p: &Pages, number: u64, ready: bool) -> bool {
    p.read(0x1000, W8) == Ok(number) && p.ready(1) == ready
}

/// Whether pages and their copy have the same bytes, neither ready to be stored to.
fn are_shared(p: &Pages, copy: &Pages) -> bool {
    copy.spare() == 0
        && has(p, BEFORE, false)
        && has(copy, BEFORE, false)
        && has_byte(copy, 1, 8)
        && copy.page(0).is_none()
}

/// Whether there are four pages, and a store in them leaves their copy as it was.
fn stores_apart(alloc: Global, p: &mut Pages, copy: &Pages) -> Result<bool, OutOfMemory> {
    if p.count() != 4 {
        return Ok(false);
    }
    p.prepare(alloc, &[1], 0)?;
    let apart = p.ready(1) && !copy.ready(1);
    let stored = store(alloc, p, STORED)?;
    Ok(apart && stored && has(p, AFTER, true) && has(copy, BEFORE, false))
}

#[test]
fn shared_pages(rt: HostRuntime) -> Result<(), Fail> {
    let mut p = four_pages(rt.alloc())?;
    let copy = p.share(rt.alloc())?;
    assert!(rt; are_shared(&p, &copy) && stores_apart(rt.alloc(), &mut p, &copy)?);
    Ok(())
}

/// Whether a store leaves two copies as they were.
fn keeps_both(alloc: Global, p: &mut Pages, copies: (&Pages, &Pages)) -> Result<bool, OutOfMemory> {
    let stored = store(alloc, p, STORED)?;
    let kept = has(copies.0, BEFORE, false) && has(copies.1, BEFORE, false);
    Ok(stored && has(p, AFTER, true) && kept)
}

/// Whether a store in the pages that a copy is of, and one in the copy, leave copies of the copy as they were.
fn stores_keep_copies(alloc: Global, p: &mut Pages, copy: &mut Pages) -> Result<bool, OutOfMemory> {
    if !store(alloc, p, STORED)? {
        return Ok(false);
    }
    let third = copy.share(alloc)?;
    // So does one that `copy` makes.
    let fourth = copy.copy(alloc)?;
    keeps_both(alloc, copy, (&third, &fourth))
}

#[test]
fn a_copy_of_a_copy_shares_the_same_bytes(rt: HostRuntime) -> Result<(), Fail> {
    let mut p = four_pages(rt.alloc())?;
    let mut copy = p.share(rt.alloc())?;
    assert!(rt; stores_keep_copies(rt.alloc(), &mut p, &mut copy)?);
    Ok(())
}
