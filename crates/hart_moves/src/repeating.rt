//! Loads that need not be followed, since what they get, or that they get nothing, is less than what they got at an earlier time.
ghost use Rattle.std.specs.Prelude.{◌≡◌, ◌≤◌, ◌<◌, ℕ, true, slice_index, slice_index_or, IsTrue};
ghost use Rattle.run_bounds.specs.declared.touched.TouchedByte.{TouchedByte as KeptByte};
ghost use Rattle.hart_moves.specs.Choosing.{IsAgain, ReadsSeen};

use crate::coming::Coming;
use hart_states::Choice;
use run_bounds::TouchedByte;

/// Whether a load gets what the latest choice gets, from the same stores, and no earlier: then what it leaves is no lower.
pub(crate) fn is_again(latest: &Option<Choice>, choice: &Option<Choice>) -> bool
    ensures { IsTrue result → IsAgain latest.now choice.now }
{
    match (latest, choice) {
        (Some(latest), Some(choice)) => {
            !choice.access.stores()
                && latest.time <= choice.time
                && latest.result == choice.result
                && latest.sources == choice.sources
        }
        _ => false,
    }
}

/// Whether bytes are from no store behind those that the hart has seen of them.
fn are_seen(sources: &[usize; 8], known: &[TouchedByte; 8], count: usize) -> bool
    requires few { count ≤ 8 }
    ensures { result ≡ true → (k : ℕ) (d : KeptByte) → k < count →
        slice_index sources.now k ≤ (slice_index_or known.now k d).seen }
{
    for k in 0..count {
        if sources[k] > known[k].seen {
            return false;
        }
    }
    true
}

/// Whether a load reads no store behind what its hart has seen (rule 2): then it need not be followed LATER.
pub(crate) fn reads_seen(coming: &Coming, choice: &Option<Choice>) -> bool
    ensures { IsTrue result → ReadsSeen coming.now choice.now }
{
    match choice {
        Some(choice) => {
            choice.access.loads()
                && !choice.access.stores()
                && are_seen(
                    &choice.sources,
                    &coming.known,
                    coming.operation.width.bytes() as usize,
                )
        }
        None => false,
    }
}
