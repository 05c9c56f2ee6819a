ghost use Rattle.std.specs.Prelude.{◌≡◌, ◌≤◌, ◌<◌, ◌^◌, length};
ghost use Rattle.guest_rounds.specs.HartEnds.{count_accesses, count_true, mask_of, waits_of};

use hart_rounds::{HartEnd, LONG};
use round_schedule::MOST_HARTS;

/// What the rounds of all harts come to together.
#[derive(Clone, Copy)]
pub struct Tally {
    /// The harts that wait for the serial phase: bit h for hart h.
    pub waiting: u64,
    /// How many harts wait.
    pub waited: u32,
    /// How many accesses the harts made.
    pub accesses: u64,
    /// How many harts made an access.
    pub logs: u32,
}

impl Tally {
    /// The tally of what the harts left. They did a million instructions each at most.
    pub(crate) fn of(ends: &[HartEnd]) -> Tally
        requires few { length ends.now ≤ MOST_HARTS }
        requires accesses { count_accesses ends.now < 2 ^ 32 }
        ensures waiting { result.waiting ≡ mask_of (waits_of ends.now) }
        ensures below { result.waiting < 2 ^ length ends.now }
        ensures waited { result.waited ≡ count_true (waits_of ends.now) }
        ensures most { result.waited ≤ length ends.now }
        ensures accesses { result.accesses ≡ count_accesses ends.now }
        ensures logs { result.logs ≤ length ends.now }
    {
        let mut tally = Tally {
            waiting: 0,
            waited: 0,
            accesses: 0,
            logs: 0,
        };
        // From the last hart on, so that the first one's bit is the lowest.
        let count = ends.len();
        for behind in 0..count {
            let end = &ends[count - 1 - behind];
            let accesses = end.accesses;
            tally = Tally {
                waiting: 2 * tally.waiting + u64::from(end.waits),
                waited: tally.waited + u32::from(end.waits),
                accesses: tally.accesses + accesses,
                logs: tally.logs + u32::from(accesses > 0),
            };
        }
        tally
    }

    /// Whether the logs are long on average: then the trace adopts them.
    pub(crate) fn is_long(&self) -> bool {
        self.logs > 0 && self.accesses / LONG >= u64::from(self.logs)
    }
}
