//! The order of time.

ghost use Rattle.std.specs.Prelude.{◌≡◌, IfOk, slice_index_or};
ghost use Rattle.std.specs.List.{range_with_len};
ghost use Rattle.execution_moments.specs.Courses.{IsSequence};

use pages::OutOfMemory;
use std::alloc::Global;

/// The time of the moment of a number: that of the instruction at this index, and the end where there is none.
fn time_at(times: &[usize], end: usize, number: usize) -> usize
    ensures { result ≡ slice_index_or times.now number end }
{
    match times.get(number) {
        Some(time) => *time,
        None => end,
    }
}

/// The numbers below a count, in rising order.
fn numbers_below(alloc: Global, count: usize) -> Result<Vec<usize>, OutOfMemory>
    ensures { IfOk result (λ v. v.items ≡ range_with_len 0 count) }
{
    let numbers: Vec<usize> = (0..count).collect(alloc)?;
    Ok(numbers)
}

/// The numbers of so many moments in the order of their times, and those of one time in rising order.
///
/// # Errors
///
/// `OutOfMemory` alone.
pub(crate) fn sequence_of(
    alloc: Global,
    count: usize,
    times: &[usize],
    end: usize,
) -> Result<Vec<usize>, OutOfMemory>
    ensures { IfOk result (λ v. IsSequence (λ k. slice_index_or times.now k end) count v.items) }
{
    let mut numbers = numbers_below(alloc, count)?;
    numbers.sort_by_key(|number| time_at(times, end, *number))?;
    Ok(numbers)
}
