//! The guest programs, word by word.

/// ADDI x17,x0,0; ECALL: the exit call with the hart's number.
pub(crate) const EXIT: &[u32] = &[0x0000_0893, 0x0000_0073];

/// ADDI x5,x10,5; ADD x6,x5,x5; SD x6,256(x0); LD x7,256(x0); ADDI x17,x0,0; ECALL.
pub(crate) const STORE_THEN_LOAD: &[u32] = &[
    0x0055_0293,
    0x0052_8333,
    0x1060_3023,
    0x1000_3383,
    0x0000_0893,
    0x0000_0073,
];

/// SLLI x5,x10,3; XORI x6,x5,8; ADDI x7,x0,1; SD x7,256(x5); FENCE RW,RW; LD x28,256(x6): each of two harts stores to the
/// doubleword that the other loads behind a fence.
pub(crate) const CROSSED_AND_FENCED: &[u32] = &[
    0x0035_1293,
    0x0082_C313,
    0x0010_0393,
    0x1072_B023,
    0x0330_000F,
    0x1003_3E03,
];

/// ADDI x5,x10,5; SD x5,256(x0); LD x6,256(x0).
pub(crate) const OWN_STORE: &[u32] = &[0x0055_0293, 0x1050_3023, 0x1000_3303];

/// ADDI x5,x0,256; BNE x10,x0,+16; LR.D x6,(x5); SC.D x7,x6,(x5); JAL x0,0; SD x5,0(x5); JAL x0,0: hart 0 goes to the
/// LR and the SC, the others to the store.
pub(crate) const RESERVED: &[u32] = &[
    0x1000_0293,
    0x0005_1863,
    0x1002_B32F,
    0x1862_B3AF,
    0x0000_006F,
    0x0052_B023,
    0x0000_006F,
];

/// The plan of the runs of `RESERVED`: in each round hart 0 may do 3 instructions, and hart 1 may do 2 in round 1 and then 3. So
/// the LR is in round 1, and the store comes before the SC in round 2.
pub(crate) const RESERVED_PLAN: &[u8] = b"3 2\n3 3\n";

/// In one turn after another, a hart loads the doubleword at 0x400 and then stores there its number plus 2, 4, 6 and so on,
/// so that no two harts store the same number:
/// ADDI x20,x0,1024; ADDI x10,x10,2; LD x9,0(x20); SD x10,0(x20); BNE x20,x0,-12.
pub(crate) const TURNS: &[u32] = &[
    0x4000_0A13,
    0x0025_0513,
    0x000A_3483,
    0x00AA_3023,
    0xFE0A_1AE3,
];

/// Each hart adds 1 to address 512 by LR.D and SC.D until that succeeds, adds 1 to address 520 by AMOADD.D, stores its
/// number plus 1 to a doubleword of its own, loads that of its neighbour, and begins anew:
/// SLLI x5,x10,3; ADDI x8,x0,512; ADDI x9,x0,520; ADDI x12,x0,1;
/// LR.D x6,(x8); ADDI x6,x6,1; SC.D x7,x6,(x8); BNE x7,x0,-12; AMOADD.D x13,x12,(x9);
/// ADD x14,x14,x12; SD x14,1024(x5); LD x15,1032(x5); ADD x16,x16,x15; JAL x0,-36.
pub(crate) const SHARED_COUNTERS: &[u32] = &[
    0x0035_1293,
    0x2000_0413,
    0x2080_0493,
    0x0010_0613,
    0x1004_332F,
    0x0013_0313,
    0x1864_33AF,
    0xFE03_9AE3,
    0x00C4_B6AF,
    0x00C7_0733,
    0x40E2_B023,
    0x4082_B783,
    0x00F8_0833,
    0xFDDF_F06F,
];

/// Each hart stores its number to one line of 64 bytes after another, and begins a line after the hart before:
/// SLLI x5,x10,6; LUI x6,1; ADD x5,x5,x6; SD x10,0(x5); ADDI x5,x5,64; JAL x0,-8.
pub(crate) const MANY_LINES: &[u32] = &[
    0x0065_1293,
    0x0000_1337,
    0x0062_82B3,
    0x00A2_B023,
    0x0402_8293,
    0xFF9F_F06F,
];
