use crate::harness::after;
use hart_step::{Stepped, Stop};
use std::test::Fail;

/// Words that jump, the numbers in x1 and x2, and then the address, x1, the number of instructions done and the stop.
static JUMPS: [(u32, u64, u64, (u64, u64, u64, Option<Stop>)); 5] = [
    // JALR x1,0(x1)
    (0x0000_80e7, 9, 0, (8, 4, 1, None)),
    (0x0000_80e7, 10, 0, (0, 10, 0, MISALIGNED)),
    // JAL x1,2
    (0x0020_00ef, 5, 0, (0, 5, 0, MISALIGNED)),
    // BLT x1,x2,+8 and BEQ x1,x2,+2, which is not taken
    (
        0x0020_c463,
        0xffff_ffff_ffff_ffff,
        0,
        (8, 0xffff_ffff_ffff_ffff, 1, None),
    ),
    (0x0020_8163, 1, 2, (4, 1, 1, None)),
];

/// The stop at a jump to an address that no instruction can have.
const MISALIGNED: Option<Stop> = Some(Stop { code: 4, value: 0 });

#[test]
fn jumps(rt: HostRuntime) -> Result<(), Fail> {
    for (word, a, b, expected) in &JUMPS {
        let h = after(rt.alloc(), *word, *a, *b)?.1;
        assert_eq!(rt; (h.pc, h.x[1], h.done, h.stop), *expected);
    }
    Ok(())
}

/// Words, the number in x1, and the code of the stop that each leaves.
static STOPS: [(u32, u64, u8); 8] = [
    // no instruction, EBREAK
    (0, 0, 2),
    (0x0010_0073, 0, 10),
    // LD x3,0(x1): misaligned, also past the end, and outside
    (0x0000_b183, 257, 5),
    (0x0000_b183, 4100, 5),
    (0x0000_b183, 4096, 6),
    // SD x2,0(x1): misaligned, outside, to code
    (0x0020_b023, 4100, 7),
    (0x0020_b023, 4096, 8),
    (0x0020_b023, 8, 9),
];

#[test]
fn stops(rt: HostRuntime) -> Result<(), Fail> {
    for (word, a, code) in &STOPS {
        let stop = after(rt.alloc(), *word, *a, 0)?.1.stop;
        assert_eq!(rt; stop.map(|stop| stop.code), Some(*code));
    }
    Ok(())
}

#[test]
fn x0_is_kept(rt: HostRuntime) -> Result<(), Fail> {
    // ADDI x0,x1,0
    assert_eq!(rt; after(rt.alloc(), 0x0000_8013, 7, 0)?.1.x[0], 0);
    Ok(())
}

/// FENCE RW,RW; ECALL; LR.D x3,(x1); AMOADD.W x3,x2,(x1): a hart waits before each of them.
static SERIAL: [u32; 4] = [0x0330_000f, 0x0000_0073, 0x1000_b1af, 0x0020_a1af];

#[test]
fn serial_words(rt: HostRuntime) -> Result<(), Fail> {
    for word in &SERIAL {
        let (answer, h) = after(rt.alloc(), *word, 256, 0)?;
        assert_eq!(rt; (answer, h.pc, h.done), (Stepped::Waits, 0, 0));
    }
    Ok(())
}
