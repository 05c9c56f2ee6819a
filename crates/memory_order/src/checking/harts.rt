//! What is kept of each hart, at its number: an event names one of 256.

ghost use Rattle.std.specs.Prelude.{◌≡◌, ◌==◌, ◌≤◌, ℕ, max, if◌then◌else◌, length, slice_index_or};

/// What is kept of a hart.
pub fn of_hart<T: Copy>(harts: &Vec<T>, hart: u8) -> T
    requires { 256 ≤ length harts.now.items }
    ensures { (none : T) → result ≡ slice_index_or harts.now.items hart none }
{
    harts[usize::from(hart)]
}

/// Keeps a value of a hart in place of the one before.
pub fn set_of_hart<T: Copy>(harts: &mut Vec<T>, hart: u8, value: T)
    requires { 256 ≤ length harts.old.items }
    ensures len { length harts.new.items ≡ length harts.old.items }
    ensures set { (none : T) (h : ℕ) → slice_index_or harts.new.items h none ≡
        (if h == hart then value else slice_index_or harts.old.items h none) }
{
    harts[usize::from(hart)] = value;
}

/// A bound, raised to at least a value where this is asked for.
pub fn raised(bound: usize, is_raised: bool, value: usize) -> usize
    ensures { result ≡ (if is_raised then max bound value else bound) }
{
    if is_raised { bound.max(value) } else { bound }
}
