ghost use Rattle.std.specs.Prelude.{◌≡◌, ◌+◌, ◌*◌, ◌%◌, ◌^◌, ◌<◌, ◌≤◌, ◌↔◌, ℕ, max, if◌then◌else◌, slice_index, true, IsTrue, OnOk};
ghost use Rattle.pages.specs.Memory.{in_range};
ghost use Rattle.memory_order.specs.Checking.{Raises, RaisesBytes, bound, word_of};

use pages::OutOfMemory;
use std::collections::BTreeMap;

/// Numbers at pairs of a hart and an address, by words of eight addresses. Where nothing stands it is 0.
///
/// Each is one more than a position in the order, so that 0 says that there is none.
pub type Bounds = BTreeMap<(u64, u64), [usize; 8]>;

/// The numbers of a word.
fn word_of(bounds: &Bounds, owner: u64, word: u64) -> [usize; 8]
    ensures { result ≡ word_of bounds.now owner word }
{
    match bounds.get(&(owner, word)) {
        Some(found) => *found,
        None => [0; 8],
    }
}

/// The numbers at the owner and each of `width` addresses, that of address `x` at `x % 8`.
pub fn bounds_at(bounds: &Bounds, owner: u64, address: u64, width: u64) -> [usize; 8]
    requires fits { address + width < 2 ^ 64 }
    requires few { width ≤ 8 }
    ensures { (x : ℕ) → in_range address width x ≡ true →
        slice_index result (x % 8) ≡ bound bounds.now owner x }
{
    let first = address % 8;
    let numbers = word_of(bounds, owner, address / 8);
    if first + width <= 8 {
        return numbers;
    }
    let next = word_of(bounds, owner, address / 8 + 1);
    begun_by(numbers, next, first as usize)
}

/// Some numbers, with the first `count` of others in place of their own.
fn begun_by(mut numbers: [usize; 8], others: [usize; 8], count: usize) -> [usize; 8]
    requires { count ≤ 8 }
    ensures { (j : ℕ) → slice_index result j ≡
        (if in_range 0 count j then slice_index others j else slice_index numbers j) }
{
    for k in 0..count {
        numbers[k] = others[k];
    }
    numbers
}

/// The numbers from `first` on, `count` of them, raised to at least those of `values`.
pub(crate) fn raised_to(
    mut numbers: [usize; 8],
    first: usize,
    count: usize,
    values: [usize; 8],
) -> [usize; 8]
    requires { first + count ≤ 8 }
    ensures { (j : ℕ) → slice_index result j ≡ (if in_range first count j
        then max (slice_index numbers j) (slice_index values j) else slice_index numbers j) }
{
    for k in 0..count {
        numbers[first + k] = numbers[first + k].max(values[first + k]);
    }
    numbers
}

/// Raises the numbers at some of the eight addresses of a word to at least those of `values`.
fn raise_word(
    bounds: &mut Bounds,
    owner: u64,
    word: u64,
    first: usize,
    count: usize,
    values: [usize; 8],
) -> Result<(), OutOfMemory>
    requires { first + count ≤ 8 }
    ensures { OnOk result (RaisesBytes bounds.old bounds.new owner (8 * word + first) count
        (λ x. slice_index values (x % 8))) }
{
    match bounds.get_mut(&(owner, word)) {
        Some(numbers) => {
            *numbers = raised_to(*numbers, first, count, values);
            Ok(())
        }
        None => {
            let new = raised_to([0; 8], first, count, values);
            bounds.insert((owner, word), new)?;
            Ok(())
        }
    }
}

/// Raises the number at a pair to at least `value`.
pub(crate) fn raise(
    bounds: &mut Bounds,
    owner: u64,
    address: u64,
    value: usize,
) -> Result<(), OutOfMemory>
    ensures { OnOk result (Raises bounds.old bounds.new owner address value) }
{
    let first = (address % 8) as usize;
    raise_word(bounds, owner, address / 8, first, 1, [value; 8])?;
    Ok(())
}

/// Raises the numbers at the owner and each of `width` addresses `x` to at least the one of `values` at `x % 8`.
pub fn raise_to(
    bounds: &mut Bounds,
    owner: u64,
    address: u64,
    width: u64,
    values: [usize; 8],
) -> Result<(), OutOfMemory>
    requires { address + width < 2 ^ 64 }
    ensures { OnOk result (RaisesBytes bounds.old bounds.new owner address width
        (λ x. slice_index values (x % 8))) }
{
    let first = address % 8;
    if first + width <= 8 {
        return raise_word(
            bounds,
            owner,
            address / 8,
            first as usize,
            width as usize,
            values,
        );
    }
    for k in 0..width {
        let byte = address + k;
        raise(bounds, owner, byte, values[(byte % 8) as usize])?;
    }
    Ok(())
}

/// Raises the numbers at the owner and each of `width` addresses to at least `value`.
pub fn raise_bytes(
    bounds: &mut Bounds,
    owner: u64,
    address: u64,
    width: u64,
    value: usize,
) -> Result<(), OutOfMemory>
    requires { address + width < 2 ^ 64 }
    ensures { OnOk result (RaisesBytes bounds.old bounds.new owner address width (λ x. value)) }
{
    raise_to(bounds, owner, address, width, [value; 8])?;
    Ok(())
}

/// Whether the numbers at the owner and each of `width` addresses are at most `limit`.
pub(crate) fn are_at_most(
    bounds: &Bounds,
    owner: u64,
    address: u64,
    width: u64,
    limit: usize,
) -> bool
    requires fits { address + width < 2 ^ 64 }
    requires few { width ≤ 8 }
    ensures { IsTrue result ↔
        ((x : ℕ) → in_range address width x ≡ true → bound bounds.now owner x ≤ limit) }
{
    let numbers = bounds_at(bounds, owner, address, width);
    for k in 0..width {
        if numbers[((address + k) % 8) as usize] > limit {
            return false;
        }
    }
    true
}
