//! Words of the A extension, taken apart.

use rv64_decode::{AcquireRelease, Atomic, AtomicOperation, AtomicWidth, Reg, decode};

/// The word, taken apart.
fn atomic(word: u32) -> Option<Atomic> {
    match decode(word) {
        Some(i) => i.atomic(),
        None => None,
    }
}

/// The bits aq and rl of a word.
fn ordering(acquire: bool, release: bool) -> AcquireRelease {
    AcquireRelease { acquire, release }
}

#[test]
fn words_are_taken_apart(rt: HostRuntime) {
    // LR.W.AQ x5,(x6): bits 31 to 27 are 00010, aq, no rl, rs2 0, rs1 6, funct3 2, rd 5
    let reserved = Atomic::LoadReserved {
        rd: Reg::new(5),
        rs1: Reg::new(6),
        width: AtomicWidth::Word,
        ordering: ordering(true, false),
    };
    // SC.D.RL x7,x6,(x5): 00011, no aq, rl, rs2 6, rs1 5, funct3 3, rd 7
    let conditional = Atomic::StoreConditional {
        rd: Reg::new(7),
        rs1: Reg::new(5),
        rs2: Reg::new(6),
        width: AtomicWidth::Doubleword,
        ordering: ordering(false, true),
    };
    // AMOMAXU.W x3,x2,(x1): 11100, no aq, no rl, rs2 2, rs1 1, funct3 2, rd 3
    let greater = Atomic::Operation {
        operation: AtomicOperation::Maxu,
        rd: Reg::new(3),
        rs1: Reg::new(1),
        rs2: Reg::new(2),
        width: AtomicWidth::Word,
        ordering: ordering(false, false),
    };
    // AMOXOR.D.AQRL x4,x2,(x1): 00100, aq, rl, rs2 2, rs1 1, funct3 3, rd 4
    let differing = Atomic::Operation {
        operation: AtomicOperation::Xor,
        rd: Reg::new(4),
        rs1: Reg::new(1),
        rs2: Reg::new(2),
        width: AtomicWidth::Doubleword,
        ordering: ordering(true, true),
    };
    for (word, expected) in [
        (0x1403_22af, Some(reserved)),
        (0x1a62_b3af, Some(conditional)),
        (0xe020_a1af, Some(greater)),
        (0x2620_b22f, Some(differing)),
        // ADDI
        (0x0055_0293, None),
    ] {
        assert!(rt; atomic(word) == expected, "{word}");
    }
}
