//! Two harts that each store and then load what the other one stores (store buffering). RVWMO lets both loads read 0 unless a fence
//! stands between.

use all_search::{Ending, Guest, Limits, RunEnd, Search};
use early_loads::GuestCode;
use elf_loader::{Image, load_flat};
use hart_step::Hart;
use pages::OutOfMemory;
use std::alloc::Global;
use std::test::Fail;

/// FENCE RW,RW.
const FENCE: u32 = 0x0330_000f;

/// ADDI x0, x0, 0.
const NOTHING: u32 = 0x0000_0013;

/// The program, in little-endian words: the hart of number n stores 1 at 1024 + 8n, does the word between, and exits with what it
/// loads at 1024 + 8(1 - n).
fn program(alloc: Global, between: u32) -> Result<Vec<u8>, OutOfMemory> {
    let words = [
        // slli x5,x10,3; addi x6,x0,1024; add x5,x5,x6
        0x0035_1293,
        0x4000_0313,
        0x0062_82b3,
        // xori x7,x10,1; slli x7,x7,3; add x7,x7,x6
        0x0015_4393,
        0x0033_9393,
        0x0063_83b3,
        // addi x8,x0,1; sd x8,0(x5)
        0x0010_0413,
        0x0082_b023,
        between,
        // ld x10,0(x7); addi x17,x0,0; ecall
        0x0003_b503,
        0x0000_0893,
        0x0000_0073,
    ];
    let mut bytes = Vec::new(alloc);
    for word in &words {
        bytes.extend_from_slice(&word.to_le_bytes())?;
    }
    Ok(bytes)
}

/// Two harts before their first instructions.
fn harts(alloc: Global) -> Result<Vec<Hart>, OutOfMemory> {
    let mut harts = Vec::new(alloc);
    for number in 0..2u64 {
        let mut x = [0; 32];
        x[10] = number;
        x[11] = 2;
        harts.push(Hart {
            x,
            pc: 0,
            stop: None,
            done: 0,
        })?;
    }
    Ok(harts)
}

/// The guest of an image.
fn guest_of(alloc: Global, image: &Image) -> Result<Guest, OutOfMemory> {
    Ok(Guest {
        code: GuestCode::new(alloc, image.to_pages(alloc)?)?,
        input: Vec::new(alloc),
        harts: harts(alloc)?,
        most_steps: 100,
    })
}

/// Whether each hart of an ending exits with 0.
fn reads_none(ending: &Ending) -> bool {
    ending.harts.iter().all(|hart| match hart.end {
        RunEnd::Stopped(stop) => stop.code == 1 && stop.value == 0,
        RunEnd::Waits(_) => false,
    })
}

/// How many endings a search finds, and of how many both loads read 0; `None` where it may have missed some.
fn count(alloc: Global, guest: &Guest) -> Result<Option<(usize, usize)>, OutOfMemory> {
    let limits = Limits {
        nodes: 1000,
        keeps_nodes: false,
    };
    let mut search = Search::new(alloc, guest, &[], limits)?;
    search.advance(100_000)?;
    if !search.is_whole() {
        return Ok(None);
    }
    let none = search.endings().values().filter(|e| reads_none(e)).count();
    Ok(Some((search.endings().len(), none)))
}

#[test]
fn both_loads_read_0_without_a_fence(rt: HostRuntime) -> Result<(), Fail> {
    let alloc = rt.alloc();
    for (between, wanted) in [(NOTHING, (4, 1)), (FENCE, (3, 0))] {
        let bytes = program(alloc, between)?;
        let image = load_flat(alloc, &bytes, 2)?;
        let guest = guest_of(alloc, &image)?;
        assert_eq!(rt; count(alloc, &guest)?, Some(wanted));
    }
    Ok(())
}
