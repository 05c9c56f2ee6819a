//! The operands of an instruction, by their places in its word.
ghost use Rattle.std.specs.Prelude.{◌≡◌};
ghost use Rattle.rv64_decode.specs.Operands.{rd_of, rs1_of, rs2_of, imm_i, imm_s, imm_b, imm_u, imm_j, shift_6_of, shift_5_of, ordering_of, before_of, after_of, mode_of};

use crate::ordering::{AcquireRelease, FenceMode, FenceSet};
use crate::register::Reg;

#[inline(always)]
pub(crate) fn rd(word: u32) -> Reg
    ensures { result ≡ rd_of word }
{
    Reg::new(((word >> 7) & 0x1f) as u8)
}

#[inline(always)]
pub(crate) fn rs1(word: u32) -> Reg
    ensures { result ≡ rs1_of word }
{
    Reg::new(((word >> 15) & 0x1f) as u8)
}

#[inline(always)]
pub(crate) fn rs2(word: u32) -> Reg
    ensures { result ≡ rs2_of word }
{
    Reg::new(((word >> 20) & 0x1f) as u8)
}

#[inline(always)]
pub(crate) fn i_immediate(word: u32) -> u64
    ensures { result ≡ imm_i word }
{
    let bits = (word >> 20) as u64;
    if bits < 0x800 {
        bits
    } else {
        bits + 0xffff_ffff_ffff_f000
    }
}

#[inline(always)]
pub(crate) fn s_immediate(word: u32) -> u64
    ensures { result ≡ imm_s word }
{
    let bits = ((word >> 25) * 0x20 + ((word >> 7) & 0x1f)) as u64;
    if bits < 0x800 {
        bits
    } else {
        bits + 0xffff_ffff_ffff_f000
    }
}

#[inline(always)]
pub(crate) fn b_immediate(word: u32) -> u64
    ensures { result ≡ imm_b word }
{
    let high = (word >> 31) * 0x1000 + ((word >> 7) & 1) * 0x800;
    let low = ((word >> 25) & 0x3f) * 0x20 + ((word >> 8) & 0xf) * 2;
    let bits = (high + low) as u64;
    if bits < 0x1000 {
        bits
    } else {
        bits + 0xffff_ffff_ffff_e000
    }
}

#[inline(always)]
pub(crate) fn u_immediate(word: u32) -> u64
    ensures { result ≡ imm_u word }
{
    let bits = (word >> 12) as u64 * 0x1000;
    if bits < 0x8000_0000 {
        bits
    } else {
        bits + 0xffff_ffff_0000_0000
    }
}

#[inline(always)]
pub(crate) fn j_immediate(word: u32) -> u64
    ensures { result ≡ imm_j word }
{
    let high = (word >> 31) * 0x10_0000 + ((word >> 12) & 0xff) * 0x1000;
    let low = ((word >> 20) & 1) * 0x800 + ((word >> 21) & 0x3ff) * 2;
    let bits = (high + low) as u64;
    if bits < 0x10_0000 {
        bits
    } else {
        bits + 0xffff_ffff_ffe0_0000
    }
}

/// The amount of a shift of 64 bits.
#[inline(always)]
pub(crate) fn shift_6(word: u32) -> u8
    ensures { result ≡ shift_6_of word }
{
    ((word >> 20) & 0x3f) as u8
}

/// The amount of a shift of a word.
#[inline(always)]
pub(crate) fn shift_5(word: u32) -> u8
    ensures { result ≡ shift_5_of word }
{
    ((word >> 20) & 0x1f) as u8
}

#[inline(always)]
pub(crate) fn ordering(word: u32) -> AcquireRelease
    ensures { result ≡ ordering_of word }
{
    AcquireRelease {
        acquire: (word >> 26) & 1 == 1,
        release: (word >> 25) & 1 == 1,
    }
}

#[inline(always)]
pub(crate) fn fence_before(word: u32) -> FenceSet
    ensures { result ≡ before_of word }
{
    FenceSet {
        reads: (word >> 25) & 1 == 1,
        writes: (word >> 24) & 1 == 1,
    }
}

#[inline(always)]
pub(crate) fn fence_after(word: u32) -> FenceSet
    ensures { result ≡ after_of word }
{
    FenceSet {
        reads: (word >> 21) & 1 == 1,
        writes: (word >> 20) & 1 == 1,
    }
}

#[inline(always)]
pub(crate) fn fence_mode(word: u32) -> FenceMode
    ensures { result ≡ mode_of word }
{
    if word >> 28 == 0b1000 && (word >> 20) & 0xff == 0b0011_0011 {
        FenceMode::Tso
    } else {
        FenceMode::Normal
    }
}
