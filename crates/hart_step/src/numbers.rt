//! The results of instructions that Rust has no operator for, on registers of 64 bits.
ghost use Rattle.std.specs.Prelude.{◌≡◌, ◌<◌, ◌^◌};
ghost use Rattle.hart_step.specs.Numbers.{low, sx, sx32, flag, below_signed, sra, mulhu_of, mulhsu_of, mulh_of, divu_of, remu_of, div_of, rem_of};

/// The low 32 bits.
#[inline(always)]
pub(crate) fn low_word(v: u64) -> u64
    ensures value { result ≡ low 32 v }
    ensures below { result < 2 ^ 32 }
{
    v & 0xffff_ffff
}

/// The low 8 bits, sign-extended.
#[inline(always)]
pub(crate) fn extend_byte(v: u64) -> u64
    ensures { result ≡ sx 8 v }
{
    let bits = v & 0xff;
    if bits < 0x80 {
        bits
    } else {
        bits + 0xffff_ffff_ffff_ff00
    }
}

/// The low 16 bits, sign-extended.
#[inline(always)]
pub(crate) fn extend_halfword(v: u64) -> u64
    ensures { result ≡ sx 16 v }
{
    let bits = v & 0xffff;
    if bits < 0x8000 {
        bits
    } else {
        bits + 0xffff_ffff_ffff_0000
    }
}

/// The low 32 bits, sign-extended.
#[inline(always)]
pub(crate) fn extend_word(v: u64) -> u64
    ensures { result ≡ sx32 v }
{
    let bits = v & 0xffff_ffff;
    if bits < 0x8000_0000 {
        bits
    } else {
        bits + 0xffff_ffff_0000_0000
    }
}

/// Whether `a` is below `b`, both signed.
#[inline(always)]
pub(crate) fn is_below_signed(a: u64, b: u64) -> bool
    ensures { result ≡ below_signed a b }
{
    a.cast_signed() < b.cast_signed()
}

/// 1 or 0.
#[inline(always)]
pub(crate) fn flag_of(test: bool) -> u64
    ensures { result ≡ flag test }
{
    test as u64
}

/// A shift to the right with the sign shifted in.
#[inline(always)]
pub(crate) fn shift_right_signed(a: u64, amount: u64) -> u64
    requires { amount < 64 }
    ensures { result ≡ sra a amount }
{
    (a.cast_signed() >> amount).cast_unsigned()
}

/// The high 64 bits of the product, both factors unsigned.
#[inline(always)]
pub(crate) fn multiply_high_unsigned(a: u64, b: u64) -> u64
    ensures { result ≡ mulhu_of a b }
{
    a.carrying_mul(b, 0).1
}

/// The high 64 bits of the product, the first factor signed.
#[inline(always)]
pub(crate) fn multiply_high_mixed(a: u64, b: u64) -> u64
    ensures { result ≡ mulhsu_of a b }
{
    let high = multiply_high_unsigned(a, b);
    if a < 0x8000_0000_0000_0000 {
        high
    } else {
        high.wrapping_sub(b)
    }
}

/// The high 64 bits of the product, both factors signed.
#[inline(always)]
pub(crate) fn multiply_high_signed(a: u64, b: u64) -> u64
    ensures { result ≡ mulh_of a b }
{
    let high = multiply_high_mixed(a, b);
    if b < 0x8000_0000_0000_0000 {
        high
    } else {
        high.wrapping_sub(a)
    }
}

/// The unsigned quotient, all ones by 0.
#[inline(always)]
pub(crate) fn divide_unsigned(a: u64, b: u64) -> u64
    ensures { result ≡ divu_of a b }
{
    if b == 0 { u64::MAX } else { a / b }
}

/// The unsigned remainder, the dividend by 0.
#[inline(always)]
pub(crate) fn remainder_unsigned(a: u64, b: u64) -> u64
    ensures { result ≡ remu_of a b }
{
    if b == 0 { a } else { a % b }
}

/// The signed quotient, all ones by 0.
#[inline(always)]
pub(crate) fn divide_signed(a: u64, b: u64) -> u64
    ensures { result ≡ div_of a b }
{
    if b == 0 {
        u64::MAX
    } else {
        a.cast_signed()
            .wrapping_div(b.cast_signed())
            .cast_unsigned()
    }
}

/// The signed remainder, the dividend by 0.
#[inline(always)]
pub(crate) fn remainder_signed(a: u64, b: u64) -> u64
    ensures { result ≡ rem_of a b }
{
    if b == 0 {
        a
    } else {
        a.cast_signed()
            .wrapping_rem(b.cast_signed())
            .cast_unsigned()
    }
}
