use crate::harness::after;
use hart_step::amo_value;
use rv64_decode::AtomicOperation::{Add, Max, Maxu, Min, Minu, Swap, Xor};
use rv64_decode::AtomicWidth::{Doubleword, Word};
use rv64_decode::{AtomicOperation, AtomicWidth};
use std::test::Fail;

const ONES: u64 = 0xffff_ffff_ffff_ffff;

const LEAST: u64 = 0x8000_0000_0000_0000;

const LEAST_WORD: u64 = 0x8000_0000;

const LEAST_WORD_EXTENDED: u64 = 0xffff_ffff_8000_0000;

/// Words that multiply or divide, the numbers in x1 and x2, and what each then leaves in x3.
static PRODUCTS_AND_QUOTIENTS: [(u32, u64, u64, u64); 15] = [
    // MULH, MULHSU, MULHU
    (0x0220_91b3, ONES, ONES, 0),
    (0x0220_a1b3, ONES, ONES, ONES),
    (0x0220_b1b3, ONES, ONES, 0xffff_ffff_ffff_fffe),
    // DIV, DIVU, REM, REMU by 0
    (0x0220_c1b3, 7, 0, ONES),
    (0x0220_d1b3, 7, 0, ONES),
    (0x0220_e1b3, 7, 0, 7),
    (0x0220_f1b3, 7, 0, 7),
    // DIVW, DIVUW, REMW, REMUW by 0
    (0x0220_c1bb, LEAST_WORD, 0, ONES),
    (0x0220_d1bb, LEAST_WORD, 0, ONES),
    (0x0220_e1bb, LEAST_WORD, 0, LEAST_WORD_EXTENDED),
    (0x0220_f1bb, LEAST_WORD, 0, LEAST_WORD_EXTENDED),
    // DIV and REM, DIVW and REMW of the least number by -1
    (0x0220_c1b3, LEAST, ONES, LEAST),
    (0x0220_e1b3, LEAST, ONES, 0),
    (0x0220_c1bb, LEAST_WORD, 0xffff_ffff, LEAST_WORD_EXTENDED),
    (0x0220_e1bb, LEAST_WORD, 0xffff_ffff, 0),
];

/// The same of words that add or shift.
static WORDS_AND_SHIFTS: [(u32, u64, u64, u64); 8] = [
    // ADDIW x3,x1,1 and SRAIW x3,x1,4
    (0x0010_819b, 0x7fff_ffff, 0, LEAST_WORD_EXTENDED),
    (0x4040_d19b, LEAST_WORD, 0, 0xffff_ffff_f800_0000),
    // SLL, SRL, SRA look at the low 6 bits of the amount
    (0x0020_91b3, 1, 65, 2),
    (0x0020_d1b3, LEAST, 127, 1),
    (0x4020_d1b3, LEAST, 127, ONES),
    // SLLW, SRLW, SRAW look at the low 5
    (0x0020_91bb, 0x4000_0000, 33, LEAST_WORD_EXTENDED),
    (0x0020_d1bb, LEAST_WORD, 32, LEAST_WORD_EXTENDED),
    (0x4020_d1bb, LEAST_WORD, 63, ONES),
];

#[test]
fn products_and_quotients(rt: HostRuntime) -> Result<(), Fail> {
    for (word, a, b, expected) in &PRODUCTS_AND_QUOTIENTS {
        assert_eq!(rt; after(rt.alloc(), *word, *a, *b)?.1.x[3], *expected);
    }
    Ok(())
}

#[test]
fn words_and_shifts(rt: HostRuntime) -> Result<(), Fail> {
    for (word, a, b, expected) in &WORDS_AND_SHIFTS {
        assert_eq!(rt; after(rt.alloc(), *word, *a, *b)?.1.x[3], *expected);
    }
    Ok(())
}

/// Atomic operations, the number in memory, the register, and the number that is then in memory.
static ATOMIC_VALUES: [(AtomicOperation, AtomicWidth, u64, u64, u64); 8] = [
    (Add, Word, 0xffff_ffff, 0xffff_ffff_0000_0001, 0),
    (Add, Doubleword, ONES, 1, 0),
    (Min, Word, LEAST_WORD, 1, LEAST_WORD),
    (Max, Word, LEAST_WORD, 1, 1),
    (Minu, Doubleword, LEAST, 1, 1),
    (Maxu, Doubleword, LEAST, 1, LEAST),
    (Swap, Word, 7, 0x1_0000_0002, 2),
    (Xor, Doubleword, 0b1100, 0b1010, 0b0110),
];

#[test]
fn atomic_values(rt: HostRuntime) {
    for (operation, width, old, operand, expected) in &ATOMIC_VALUES {
        assert_eq!(rt; amo_value(*operation, *width, *old, *operand), *expected);
    }
}
