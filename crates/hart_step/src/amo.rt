ghost use Rattle.std.specs.Prelude.{◌≡◌};
ghost use Rattle.rv64_decode.specs.declared.atomic.AtomicWidth.TheVariants.{Word, Doubleword};
ghost use Rattle.hart_step.specs.Amo.{amo_value_of, amo_min, amo_max};

use crate::numbers::{extend_word, is_below_signed, low_word};
use rv64_decode::{AtomicOperation, AtomicWidth};

/// The number that an AMO puts in place of `old`, both cut to its width (manual, section 8.4).
#[inline]
pub fn amo_value(operation: AtomicOperation, width: AtomicWidth, old: u64, operand: u64) -> u64
    ensures { result ≡ amo_value_of operation width old operand }
{
    match width {
        AtomicWidth::Word => word_value(operation, old, operand),
        AtomicWidth::Doubleword => doubleword_value(operation, old, operand),
    }
}

/// The same for words.
fn word_value(operation: AtomicOperation, old: u64, operand: u64) -> u64
    ensures { result ≡ amo_value_of operation Word old operand }
{
    let old_word = low_word(old);
    let word = low_word(operand);
    match operation {
        AtomicOperation::Swap => word,
        AtomicOperation::Add => low_word(old_word + word),
        AtomicOperation::Xor => old_word ^ word,
        AtomicOperation::And => old_word & word,
        AtomicOperation::Or => old_word | word,
        AtomicOperation::Min => min_word(old, operand),
        AtomicOperation::Max => max_word(old, operand),
        AtomicOperation::Minu => old_word.min(word),
        AtomicOperation::Maxu => old_word.max(word),
    }
}

/// The same for doublewords.
fn doubleword_value(operation: AtomicOperation, old: u64, operand: u64) -> u64
    ensures { result ≡ amo_value_of operation Doubleword old operand }
{
    match operation {
        AtomicOperation::Swap => operand,
        AtomicOperation::Add => old.wrapping_add(operand),
        AtomicOperation::Xor => old ^ operand,
        AtomicOperation::And => old & operand,
        AtomicOperation::Or => old | operand,
        AtomicOperation::Min => min_doubleword(old, operand),
        AtomicOperation::Max => max_doubleword(old, operand),
        AtomicOperation::Minu => old.min(operand),
        AtomicOperation::Maxu => old.max(operand),
    }
}

/// The lesser of two words, both signed.
fn min_word(a: u64, b: u64) -> u64
    ensures { result ≡ amo_min 32 a b }
{
    if is_below_signed(extend_word(a), extend_word(b)) {
        low_word(a)
    } else {
        low_word(b)
    }
}

/// The greater of two words, both signed.
fn max_word(a: u64, b: u64) -> u64
    ensures { result ≡ amo_max 32 a b }
{
    if is_below_signed(extend_word(a), extend_word(b)) {
        low_word(b)
    } else {
        low_word(a)
    }
}

/// The lesser of two doublewords, both signed.
fn min_doubleword(a: u64, b: u64) -> u64
    ensures { result ≡ amo_min 64 a b }
{
    if is_below_signed(a, b) { a } else { b }
}

/// The greater of two doublewords, both signed.
fn max_doubleword(a: u64, b: u64) -> u64
    ensures { result ≡ amo_max 64 a b }
{
    if is_below_signed(a, b) { b } else { a }
}
