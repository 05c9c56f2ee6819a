//! Rounds of a hart, and runs of words that only compute.

use crate::harness::{hart, memory};
use hart_step::{DecodedCode, Hart, do_simple_at, hart_round};
use round_schedule::Access;
use std::alloc::Global;
use std::test::Fail;

// A trace keeps one of each load and store.
#[test]
fn an_access_is_small(rt: HostRuntime) {
    assert_eq!(rt; size_of::<Access>(), 40);
}

/// The hart after a round in which it reads and sets x0, while `x[0]` holds this number, and whether it waits.
fn after_x0(alloc: Global, held: u64) -> Result<(Hart, bool), Fail> {
    // ADD x3,x0,x1; ADDI x2,x0,7; ADDI x0,x0,1; ECALL
    let mut pages = memory(alloc, [0x0010_01b3, 0x0070_0113, 0x0010_0013, 0x0000_0073])?;
    let code = DecodedCode::new(alloc, &pages, 0, 4)?;
    let mut h = hart(3, 0);
    h.x[0] = held;
    let mut log = Vec::new(alloc);
    let waits = hart_round(&mut h, &mut pages, &code, 100, &mut log)?;
    Ok((h, waits))
}

#[test]
fn x0_reads_0_in_a_round(rt: HostRuntime) -> Result<(), Fail> {
    for held in [0, 9] {
        let (h, waits) = after_x0(rt.alloc(), held)?;
        assert!(rt; waits);
        assert_eq!(rt; (h.done, h.x[3], h.x[2], h.x[0]), (3, 3, 7, held));
    }
    Ok(())
}

#[test]
fn a_run_ends_before_a_store_or_at_the_quota(rt: HostRuntime) -> Result<(), Fail> {
    let alloc = rt.alloc();
    // ADDI x1,x1,-1; ADDI x1,x1,-1; SD x1,256(x0); ECALL
    let pages = memory(alloc, [0xfff0_8093, 0xfff0_8093, 0x1010_3023, 0x0000_0073])?;
    let code = DecodedCode::new(alloc, &pages, 0, 4)?;
    for (left, ran, left_in_x1) in [(0, 0, 3), (1, 1, 2), (2, 2, 1), (100, 2, 1)] {
        let mut h = hart(3, 0);
        let words = do_simple_at::<()>(&mut h, code.words(), code.simple_lengths(), 0, left);
        assert_eq!(rt; words, ran);
        let done = u64::from(ran);
        assert_eq!(rt; (h.pc, h.done, h.x[1]), (4 * done, done, left_in_x1));
    }
    Ok(())
}
