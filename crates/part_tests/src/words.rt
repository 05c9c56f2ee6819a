//! Words, as the crate `rv64_decode` reads them.

use rv64_decode::{Instr, decode, is_serial};
use std::test::Fail;

/// SLLIW with bit 25 set, LR.W with an rs2 field of 1, FENCE.I, and two words of no row near.
static OF_NO_ROW: [u32; 5] = [0x0200_101b, 0x1013_22af, 0x0000_100f, 0, 0xffff_ffff];

#[test]
fn words_of_no_row(rt: HostRuntime) {
    for word in &OF_NO_ROW {
        assert!(rt; decode(*word).is_none(), "{word}");
    }
}

/// Words, and whether each is serial.
static SERIAL: [(u32, bool); 10] = [
    // LR.W, SC.D, AMOADD.W, ECALL, FENCE RW,RW
    (0x1003_22af, true),
    (0x1862_b3af, true),
    (0x0000_202f, true),
    (0x0000_0073, true),
    (0x0330_000f, true),
    // FENCE.TSO, FENCE W,W, FENCE R,RW, EBREAK, ADDI
    (0x8330_000f, false),
    (0x0110_000f, false),
    (0x0230_000f, false),
    (0x0010_0073, false),
    (0x0055_0293, false),
];

#[test]
fn serial_words(rt: HostRuntime) {
    for (word, serial) in &SERIAL {
        assert_eq!(rt; decode(*word).map(|i| is_serial(&i)), Some(*serial));
    }
}

/// The registers, by number, and the immediate or amount of some instructions.
fn operands(word: u32) -> (usize, usize, u64) {
    match decode(word) {
        Some(i) => match i {
            Instr::Addi { rd, rs1, imm } => (rd.index(), rs1.index(), imm),
            Instr::Beq { rs1, rs2, imm } => (rs1.index(), rs2.index(), imm),
            Instr::Sd { rs1, rs2, imm } => (rs1.index(), rs2.index(), imm),
            Instr::Jal { rd, imm } => (rd.index(), 0, imm),
            Instr::Lui { rd, imm } => (rd.index(), 0, imm),
            Instr::Srai { rd, rs1, shift } => (rd.index(), rs1.index(), shift as u64),
            Instr::LrW { rd, rs1, ordering } => {
                let bits = ordering.acquire as u64 * 2 + ordering.release as u64;
                (rd.index(), rs1.index(), bits)
            }
            _ => (32, 32, 0),
        },
        None => (32, 32, 0),
    }
}

/// Words, and the operands of each.
static OPERANDS: [(u32, (usize, usize, u64)); 9] = [
    // ADDI x5,x10,5
    (0x0055_0293, (5, 10, 5)),
    // BEQ x1,x2,-4 and JAL x1,-4
    (0xfe20_8ee3, (1, 2, 0xffff_ffff_ffff_fffc)),
    (0xffdf_f0ef, (1, 0, 0xffff_ffff_ffff_fffc)),
    // SD x7,256(x5), SD x7,-1(x5), LUI x1,0x80000, SRAI x1,x2,63
    (0x1072_b023, (5, 7, 256)),
    (0xfe72_bfa3, (5, 7, 0xffff_ffff_ffff_ffff)),
    (0x8000_00b7, (1, 0, 0xffff_ffff_8000_0000)),
    (0x43f1_5093, (1, 2, 63)),
    // LR.W x5,(x6), and LR.W.AQ
    (0x1003_22af, (5, 6, 0)),
    (0x1403_22af, (5, 6, 2)),
];

#[test]
fn operands_of_words(rt: HostRuntime) {
    for (word, expected) in &OPERANDS {
        assert_eq!(rt; operands(*word), *expected);
    }
}

/// Whether each value is an instruction, with all the bits outside the mask clear and with all set.
fn all_taken(mask: u32, values: &[u32]) -> bool {
    values.iter().all(|value| decode(*value).is_some() && decode(*value | !mask).is_some())
}

/// The values of the encodings, by which bits the mask of an encoding has.
static VALUES: [(u32, &[u32]); 7] = [
    (0x0000_007f, &[0x0000_0037, 0x0000_0017, 0x0000_006f]),
    (
        0x0000_707f,
        &[
            0x0000_0067,
            0x0000_0063,
            0x0000_1063,
            0x0000_4063,
            0x0000_5063,
            0x0000_6063,
            0x0000_7063,
            0x0000_0003,
            0x0000_1003,
            0x0000_2003,
            0x0000_4003,
            0x0000_5003,
            0x0000_0023,
            0x0000_1023,
            0x0000_2023,
            0x0000_0013,
            0x0000_2013,
            0x0000_3013,
            0x0000_4013,
            0x0000_6013,
            0x0000_7013,
            0x0000_000f,
            0x0000_6003,
            0x0000_3003,
            0x0000_3023,
            0x0000_001b,
        ],
    ),
    (
        0xfe00_707f,
        &[
            0x0000_0033,
            0x4000_0033,
            0x0000_1033,
            0x0000_2033,
            0x0000_3033,
            0x0000_4033,
            0x0000_5033,
            0x4000_5033,
            0x0000_6033,
            0x0000_7033,
            0x0000_101b,
            0x0000_501b,
            0x4000_501b,
            0x0000_003b,
            0x4000_003b,
            0x0000_103b,
            0x0000_503b,
            0x4000_503b,
            0x0200_0033,
            0x0200_1033,
            0x0200_2033,
            0x0200_3033,
            0x0200_4033,
            0x0200_5033,
            0x0200_6033,
            0x0200_7033,
            0x0200_003b,
            0x0200_403b,
            0x0200_503b,
            0x0200_603b,
            0x0200_703b,
        ],
    ),
    (0xffff_ffff, &[0x0000_0073, 0x0010_0073]),
    (0xfc00_707f, &[0x0000_1013, 0x0000_5013, 0x4000_5013]),
    (0xf9f0_707f, &[0x1000_202f, 0x1000_302f]),
    (
        0xf800_707f,
        &[
            0x1800_202f,
            0x0800_202f,
            0x0000_202f,
            0x2000_202f,
            0x6000_202f,
            0x4000_202f,
            0x8000_202f,
            0xa000_202f,
            0xc000_202f,
            0xe000_202f,
            0x1800_302f,
            0x0800_302f,
            0x0000_302f,
            0x2000_302f,
            0x6000_302f,
            0x4000_302f,
            0x8000_302f,
            0xa000_302f,
            0xc000_302f,
            0xe000_302f,
        ],
    ),
];

#[test]
fn each_row_is_taken(rt: HostRuntime) {
    for (mask, values) in &VALUES {
        assert!(rt; all_taken(*mask, values), "mask {mask}");
    }
}
