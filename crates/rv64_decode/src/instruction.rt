use crate::ordering::{AcquireRelease, FenceMode, FenceSet};
use crate::register::Reg;

/// An instruction of RV64IMA with its operands (manual, chapter 24).
///
/// `imm` is extended from its top bit to 64 bits. Where no other place is named, the result goes to `rd`.
/// Loads and stores of the base set are at rs1 plus the immediate.
#[derive(Clone, Copy)]
pub enum Instr {
    // RV32I: the base instructions.
    /// The immediate goes to rd.
    Lui {
        rd: Reg,
        imm: u64,
    },
    /// The address of the instruction plus the immediate goes to rd.
    Auipc {
        rd: Reg,
        imm: u64,
    },
    /// Jumps by the immediate; the address after the instruction goes to rd.
    Jal {
        rd: Reg,
        imm: u64,
    },
    /// Jumps to rs1 plus the immediate, its bit 0 cleared; the address after the instruction goes to rd.
    Jalr {
        rd: Reg,
        rs1: Reg,
        imm: u64,
    },
    /// Jumps by the immediate if rs1 equals rs2.
    Beq {
        rs1: Reg,
        rs2: Reg,
        imm: u64,
    },
    /// Jumps by the immediate if rs1 differs from rs2.
    Bne {
        rs1: Reg,
        rs2: Reg,
        imm: u64,
    },
    /// Jumps by the immediate if rs1 is below rs2, both signed.
    Blt {
        rs1: Reg,
        rs2: Reg,
        imm: u64,
    },
    /// Jumps by the immediate if rs1 is not below rs2, both signed.
    Bge {
        rs1: Reg,
        rs2: Reg,
        imm: u64,
    },
    /// Jumps by the immediate if rs1 is below rs2, both unsigned.
    Bltu {
        rs1: Reg,
        rs2: Reg,
        imm: u64,
    },
    /// Jumps by the immediate if rs1 is not below rs2, both unsigned.
    Bgeu {
        rs1: Reg,
        rs2: Reg,
        imm: u64,
    },
    /// Loads a byte, sign-extended.
    Lb {
        rd: Reg,
        rs1: Reg,
        imm: u64,
    },
    /// Loads a halfword, sign-extended.
    Lh {
        rd: Reg,
        rs1: Reg,
        imm: u64,
    },
    /// Loads a word, sign-extended.
    Lw {
        rd: Reg,
        rs1: Reg,
        imm: u64,
    },
    /// Loads a byte, zero-extended.
    Lbu {
        rd: Reg,
        rs1: Reg,
        imm: u64,
    },
    /// Loads a halfword, zero-extended.
    Lhu {
        rd: Reg,
        rs1: Reg,
        imm: u64,
    },
    /// Stores the low byte of rs2.
    Sb {
        rs1: Reg,
        rs2: Reg,
        imm: u64,
    },
    /// Stores the low halfword of rs2.
    Sh {
        rs1: Reg,
        rs2: Reg,
        imm: u64,
    },
    /// Stores the low word of rs2.
    Sw {
        rs1: Reg,
        rs2: Reg,
        imm: u64,
    },
    /// The sum of rs1 and the immediate.
    Addi {
        rd: Reg,
        rs1: Reg,
        imm: u64,
    },
    /// 1 if rs1 is below the immediate, both signed, else 0.
    Slti {
        rd: Reg,
        rs1: Reg,
        imm: u64,
    },
    /// 1 if rs1 is below the immediate, both unsigned, else 0.
    Sltiu {
        rd: Reg,
        rs1: Reg,
        imm: u64,
    },
    /// Bitwise exclusive or with the immediate.
    Xori {
        rd: Reg,
        rs1: Reg,
        imm: u64,
    },
    /// Bitwise or with the immediate.
    Ori {
        rd: Reg,
        rs1: Reg,
        imm: u64,
    },
    /// Bitwise and with the immediate.
    Andi {
        rd: Reg,
        rs1: Reg,
        imm: u64,
    },
    /// The sum.
    Add {
        rd: Reg,
        rs1: Reg,
        rs2: Reg,
    },
    /// The difference.
    Sub {
        rd: Reg,
        rs1: Reg,
        rs2: Reg,
    },
    /// rs1 shifted left by the low 6 bits of rs2.
    Sll {
        rd: Reg,
        rs1: Reg,
        rs2: Reg,
    },
    /// 1 if rs1 is below rs2, both signed, else 0.
    Slt {
        rd: Reg,
        rs1: Reg,
        rs2: Reg,
    },
    /// 1 if rs1 is below rs2, both unsigned, else 0.
    Sltu {
        rd: Reg,
        rs1: Reg,
        rs2: Reg,
    },
    /// Bitwise exclusive or.
    Xor {
        rd: Reg,
        rs1: Reg,
        rs2: Reg,
    },
    /// rs1 shifted right by the low 6 bits of rs2, zeros shifted in.
    Srl {
        rd: Reg,
        rs1: Reg,
        rs2: Reg,
    },
    /// rs1 shifted right by the low 6 bits of rs2, its sign shifted in.
    Sra {
        rd: Reg,
        rs1: Reg,
        rs2: Reg,
    },
    /// Bitwise or.
    Or {
        rd: Reg,
        rs1: Reg,
        rs2: Reg,
    },
    /// Bitwise and.
    And {
        rd: Reg,
        rs1: Reg,
        rs2: Reg,
    },
    /// Orders the accesses of the first set before those of the second.
    Fence {
        before: FenceSet,
        after: FenceSet,
        mode: FenceMode,
    },
    /// A call of the execution environment.
    Ecall,
    /// A breakpoint.
    Ebreak,
    // RV64I: what 64-bit registers add, and the shifts by up to 63.
    /// Loads a word, zero-extended.
    Lwu {
        rd: Reg,
        rs1: Reg,
        imm: u64,
    },
    /// Loads a doubleword.
    Ld {
        rd: Reg,
        rs1: Reg,
        imm: u64,
    },
    /// Stores rs2, a doubleword.
    Sd {
        rs1: Reg,
        rs2: Reg,
        imm: u64,
    },
    /// rs1 shifted left by the amount, 0 to 63.
    Slli {
        rd: Reg,
        rs1: Reg,
        shift: u8,
    },
    /// rs1 shifted right by the amount, 0 to 63, zeros shifted in.
    Srli {
        rd: Reg,
        rs1: Reg,
        shift: u8,
    },
    /// rs1 shifted right by the amount, 0 to 63, its sign shifted in.
    Srai {
        rd: Reg,
        rs1: Reg,
        shift: u8,
    },
    /// The low word of the sum of rs1 and the immediate, sign-extended.
    Addiw {
        rd: Reg,
        rs1: Reg,
        imm: u64,
    },
    /// The low word of rs1 shifted left by the amount, 0 to 31, sign-extended.
    Slliw {
        rd: Reg,
        rs1: Reg,
        shift: u8,
    },
    /// The low word of rs1 shifted right by the amount, 0 to 31, zeros shifted in, sign-extended.
    Srliw {
        rd: Reg,
        rs1: Reg,
        shift: u8,
    },
    /// The low word of rs1 shifted right by the amount, 0 to 31, its sign shifted in, sign-extended.
    Sraiw {
        rd: Reg,
        rs1: Reg,
        shift: u8,
    },
    /// The low word of the sum, sign-extended.
    Addw {
        rd: Reg,
        rs1: Reg,
        rs2: Reg,
    },
    /// The low word of the difference, sign-extended.
    Subw {
        rd: Reg,
        rs1: Reg,
        rs2: Reg,
    },
    /// The low word of rs1 shifted left by the low 5 bits of rs2, sign-extended.
    Sllw {
        rd: Reg,
        rs1: Reg,
        rs2: Reg,
    },
    /// The low word of rs1 shifted right by the low 5 bits of rs2, zeros shifted in, sign-extended.
    Srlw {
        rd: Reg,
        rs1: Reg,
        rs2: Reg,
    },
    /// The low word of rs1 shifted right by the low 5 bits of rs2, its sign shifted in, sign-extended.
    Sraw {
        rd: Reg,
        rs1: Reg,
        rs2: Reg,
    },
    // RV32M: multiplication and division.
    /// The low 64 bits of the product.
    Mul {
        rd: Reg,
        rs1: Reg,
        rs2: Reg,
    },
    /// The high 64 bits of the product, both signed.
    Mulh {
        rd: Reg,
        rs1: Reg,
        rs2: Reg,
    },
    /// The high 64 bits of the product, rs1 signed and rs2 unsigned.
    Mulhsu {
        rd: Reg,
        rs1: Reg,
        rs2: Reg,
    },
    /// The high 64 bits of the product, both unsigned.
    Mulhu {
        rd: Reg,
        rs1: Reg,
        rs2: Reg,
    },
    /// The signed quotient, rounded toward 0.
    Div {
        rd: Reg,
        rs1: Reg,
        rs2: Reg,
    },
    /// The unsigned quotient.
    Divu {
        rd: Reg,
        rs1: Reg,
        rs2: Reg,
    },
    /// The signed remainder, with the sign of rs1.
    Rem {
        rd: Reg,
        rs1: Reg,
        rs2: Reg,
    },
    /// The unsigned remainder.
    Remu {
        rd: Reg,
        rs1: Reg,
        rs2: Reg,
    },
    // RV64M: the same on words.
    /// The low word of the product, sign-extended.
    Mulw {
        rd: Reg,
        rs1: Reg,
        rs2: Reg,
    },
    /// The signed quotient of the low words, sign-extended.
    Divw {
        rd: Reg,
        rs1: Reg,
        rs2: Reg,
    },
    /// The unsigned quotient of the low words, sign-extended.
    Divuw {
        rd: Reg,
        rs1: Reg,
        rs2: Reg,
    },
    /// The signed remainder of the low words, sign-extended.
    Remw {
        rd: Reg,
        rs1: Reg,
        rs2: Reg,
    },
    /// The unsigned remainder of the low words, sign-extended.
    Remuw {
        rd: Reg,
        rs1: Reg,
        rs2: Reg,
    },
    // RV32A: atomic accesses of words.
    /// Loads a word at the address in rs1, sign-extended, and reserves it.
    LrW {
        rd: Reg,
        rs1: Reg,
        ordering: AcquireRelease,
    },
    /// Stores the low word of rs2 at the address in rs1 if the reservation holds; rd gets 0 or, on failure, 1.
    ScW {
        rd: Reg,
        rs1: Reg,
        rs2: Reg,
        ordering: AcquireRelease,
    },
    /// Loads the word at the address in rs1, sign-extended, and stores rs2.
    AmoswapW {
        rd: Reg,
        rs1: Reg,
        rs2: Reg,
        ordering: AcquireRelease,
    },
    /// Loads the word at the address in rs1, sign-extended, and stores the sum with rs2.
    AmoaddW {
        rd: Reg,
        rs1: Reg,
        rs2: Reg,
        ordering: AcquireRelease,
    },
    /// Loads the word at the address in rs1, sign-extended, and stores the exclusive or with rs2.
    AmoxorW {
        rd: Reg,
        rs1: Reg,
        rs2: Reg,
        ordering: AcquireRelease,
    },
    /// Loads the word at the address in rs1, sign-extended, and stores the bitwise and with rs2.
    AmoandW {
        rd: Reg,
        rs1: Reg,
        rs2: Reg,
        ordering: AcquireRelease,
    },
    /// Loads the word at the address in rs1, sign-extended, and stores the bitwise or with rs2.
    AmoorW {
        rd: Reg,
        rs1: Reg,
        rs2: Reg,
        ordering: AcquireRelease,
    },
    /// Loads the word at the address in rs1, sign-extended, and stores the lesser of it and rs2, signed.
    AmominW {
        rd: Reg,
        rs1: Reg,
        rs2: Reg,
        ordering: AcquireRelease,
    },
    /// Loads the word at the address in rs1, sign-extended, and stores the greater of it and rs2, signed.
    AmomaxW {
        rd: Reg,
        rs1: Reg,
        rs2: Reg,
        ordering: AcquireRelease,
    },
    /// Loads the word at the address in rs1, sign-extended, and stores the lesser of it and rs2, unsigned.
    AmominuW {
        rd: Reg,
        rs1: Reg,
        rs2: Reg,
        ordering: AcquireRelease,
    },
    /// Loads the word at the address in rs1, sign-extended, and stores the greater of it and rs2, unsigned.
    AmomaxuW {
        rd: Reg,
        rs1: Reg,
        rs2: Reg,
        ordering: AcquireRelease,
    },
    // RV64A: atomic accesses of doublewords.
    /// Loads a doubleword at the address in rs1, and reserves it.
    LrD {
        rd: Reg,
        rs1: Reg,
        ordering: AcquireRelease,
    },
    /// Stores the low doubleword of rs2 at the address in rs1 if the reservation holds; rd gets 0 or, on failure, 1.
    ScD {
        rd: Reg,
        rs1: Reg,
        rs2: Reg,
        ordering: AcquireRelease,
    },
    /// Loads the doubleword at the address in rs1, and stores rs2.
    AmoswapD {
        rd: Reg,
        rs1: Reg,
        rs2: Reg,
        ordering: AcquireRelease,
    },
    /// Loads the doubleword at the address in rs1, and stores the sum with rs2.
    AmoaddD {
        rd: Reg,
        rs1: Reg,
        rs2: Reg,
        ordering: AcquireRelease,
    },
    /// Loads the doubleword at the address in rs1, and stores the exclusive or with rs2.
    AmoxorD {
        rd: Reg,
        rs1: Reg,
        rs2: Reg,
        ordering: AcquireRelease,
    },
    /// Loads the doubleword at the address in rs1, and stores the bitwise and with rs2.
    AmoandD {
        rd: Reg,
        rs1: Reg,
        rs2: Reg,
        ordering: AcquireRelease,
    },
    /// Loads the doubleword at the address in rs1, and stores the bitwise or with rs2.
    AmoorD {
        rd: Reg,
        rs1: Reg,
        rs2: Reg,
        ordering: AcquireRelease,
    },
    /// Loads the doubleword at the address in rs1, and stores the lesser of it and rs2, signed.
    AmominD {
        rd: Reg,
        rs1: Reg,
        rs2: Reg,
        ordering: AcquireRelease,
    },
    /// Loads the doubleword at the address in rs1, and stores the greater of it and rs2, signed.
    AmomaxD {
        rd: Reg,
        rs1: Reg,
        rs2: Reg,
        ordering: AcquireRelease,
    },
    /// Loads the doubleword at the address in rs1, and stores the lesser of it and rs2, unsigned.
    AmominuD {
        rd: Reg,
        rs1: Reg,
        rs2: Reg,
        ordering: AcquireRelease,
    },
    /// Loads the doubleword at the address in rs1, and stores the greater of it and rs2, unsigned.
    AmomaxuD {
        rd: Reg,
        rs1: Reg,
        rs2: Reg,
        ordering: AcquireRelease,
    },
}
