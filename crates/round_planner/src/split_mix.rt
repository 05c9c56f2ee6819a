ghost use Rattle.std.specs.Prelude.{◌≡◌, ◌<◌, ◌+◌, ◌^◌};
ghost use Rattle.round_planner.specs.Draws.{draw, folded};

/// How far the state of the generator moves from one number to the next: 2^64 by the golden ratio, made odd.
const STRIDE: u64 = 11_400_714_819_323_198_485;

/// What the two foldings multiply by.
const FIRST_FACTOR: u64 = 13_787_848_793_156_543_929;

const SECOND_FACTOR: u64 = 10_723_151_780_598_845_931;

/// Folds the high bits of a number into the low ones, and spreads them again by a factor.
fn folded(number: u64, shift: u32, factor: u64) -> u64
    requires { shift < 64 }
    ensures { result ≡ folded number shift factor }
{
    (number ^ (number >> shift)).wrapping_mul(factor)
}

/// The number at a index of the stream of a seed, counted from 0: that of the generator SplitMix64.
pub fn draw(seed: u64, index: u64) -> u64
    requires { index + 1 < 2 ^ 64 }
    ensures { result ≡ draw seed index }
{
    let state = seed.wrapping_add((index + 1).wrapping_mul(STRIDE));
    let once = folded(state, 30, FIRST_FACTOR);
    let twice = folded(once, 27, SECOND_FACTOR);
    twice ^ (twice >> 31)
}
