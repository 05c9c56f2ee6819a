//! Gates for rounds on two workers: a hart waits at them for what only another thread can do meanwhile.

use machine::Gate;
use std::hint;
use std::sync::atomic::AtomicBool;
use std::sync::atomic::Ordering::SeqCst;

/// How often a gate looks for what it waits for.
const TURNS: u32 = 100_000_000;

/// Whether a mark was seen in so many turns.
fn is_seen(mark: &AtomicBool) -> bool {
    for _ in 0..TURNS {
        if mark.load(SeqCst) {
            return true;
        }
        hint::spin_loop();
    }
    false
}

/// Each of two harts is marked as come, and then waits until the other is.
#[derive(Drop)]
pub(crate) struct Meeting {
    first_came: AtomicBool,
    second_came: AtomicBool,
    first_met: AtomicBool,
    second_met: AtomicBool,
}

impl Meeting {
    /// A gate at which no hart has come.
    pub(crate) fn new() -> Meeting {
        Meeting {
            first_came: AtomicBool::new(false),
            second_came: AtomicBool::new(false),
            first_met: AtomicBool::new(false),
            second_met: AtomicBool::new(false),
        }
    }

    /// Whether hart 0 saw hart 1 come, and hart 1 hart 0. Where one thread does both, only hart 1 does.
    pub(crate) fn met(&self) -> (bool, bool) {
        (self.first_met.load(SeqCst), self.second_met.load(SeqCst))
    }
}

impl Gate for Meeting {
    fn pass(&self, hart: u32) {
        let (came, other, met) = if hart == 0 {
            (&self.first_came, &self.second_came, &self.first_met)
        } else {
            (&self.second_came, &self.first_came, &self.second_met)
        };
        came.store(true, SeqCst);
        met.store(is_seen(other), SeqCst);
    }

    fn done(&self, _hart: u32) {}
}

/// Hart 0 waits until the round of hart 1 was put.
#[derive(Drop)]
pub(crate) struct Behind {
    second_done: AtomicBool,
    saw_it: AtomicBool,
}

impl Behind {
    /// A gate before any round.
    pub(crate) fn new() -> Behind {
        Behind {
            second_done: AtomicBool::new(false),
            saw_it: AtomicBool::new(false),
        }
    }

    /// Whether hart 0 saw that the round of hart 1 was put.
    pub(crate) fn saw_it(&self) -> bool {
        self.saw_it.load(SeqCst)
    }
}

impl Gate for Behind {
    fn pass(&self, hart: u32) {
        if hart == 0 {
            self.saw_it.store(is_seen(&self.second_done), SeqCst);
        }
    }

    fn done(&self, hart: u32) {
        if hart == 1 {
            self.second_done.store(true, SeqCst);
        }
    }
}
