ghost use Rattle.std.specs.Prelude.{◌≡◌, [], IfOk, false};

use crate::confirming::kept_of;
use crate::guest::Guest;
use crate::observing::FenceObserver;
use fence_places::Gap;
use fence_search::Weakness;
use fence_trials::{Found, Trial, TrialObserver};
use pages::OutOfMemory;
use plan_hunt::{HuntObserver, Row};
use std::sync::atomic::{AtomicU32, Ordering};

/// Looks at a search for whoever looks at the finder, and says with what it is over.
#[derive(Drop)]
pub(crate) struct Looking<'a, 'b, 'c, O> {
    guest: &'a Guest<'b>,
    observer: &'c O,
    /// Before which number the executions that fail were looked at.
    told: AtomicU32,
}

impl<'a, 'b, 'c, O: FenceObserver> Looking<'a, 'b, 'c, O> {
    /// Nothing was told yet.
    pub fn new(guest: &'a Guest<'b>, observer: &'c O) -> Self
        ensures { result.guest.now ≡ guest.now }
    {
        Looking {
            guest,
            observer,
            told: AtomicU32::new(0),
        }
    }

    /// Tells of the gaps of executions that weren't looked at yet, of which `next` is the first number that isn't done.
    fn tell_new(&self, founds: &[Found], next: u32) {
        let told = self.told.swap(next, Ordering::SeqCst);
        for found in founds {
            if found.number >= told {
                if let Some(gap) = own_gap(found) {
                    if !is_own_gap(founds, &gap, found.number) {
                        self.tell(found, &gap);
                    }
                }
            }
        }
    }

    /// Tells of the gaps of the last executions of a search that is over.
    pub fn tell_last(&self, weaknesses: &[Weakness]) {
        for weakness in weaknesses {
            self.tell_last_of(weaknesses, &weakness.shown);
            for found in &weakness.others {
                self.tell_last_of(weaknesses, found);
            }
        }
    }

    /// Tells of the gap of one of these executions, where it wasn't looked at yet.
    fn tell_last_of(&self, weaknesses: &[Weakness], found: &Found) {
        if found.number < self.told.load(Ordering::SeqCst) {
            return;
        }
        if let Some(gap) = own_gap(found) {
            for weakness in weaknesses {
                if is_own(&weakness.shown, &gap, found.number)
                    || is_own_gap(&weakness.others, &gap, found.number)
                {
                    return;
                }
            }
            self.tell(found, &gap);
        }
    }

    /// Tells of the gap of an execution that isn't accepted, where there is memory for its names; and without the execution, where there is
    /// none for that.
    fn tell(&self, found: &Found, gap: &Gap) {
        if let Ok(false) = self.is_accepted(found) {
            if let Ok(named) = self.guest.gap_between(gap.earlier, gap.later) {
                match kept_of(self.guest, found, self) {
                    Ok(Some(kept)) => self.observer.found(&named, found.number, Some(&kept)),
                    _ => self.observer.found(&named, found.number, None),
                }
            }
        }
    }

    /// Whether a gap of an execution that fails is accepted.
    fn is_accepted(&self, found: &Found) -> Result<bool, OutOfMemory>
        ensures { self.now.guest.now.settings.now.accepted ≡ [] → IfOk result (λ yes. yes ≡ false) }
    {
        let accepted = &self.guest.settings.accepted;
        for gap in &found.moves.gaps {
            let named = self.guest.gap_between(gap.earlier, gap.later)?;
            if accepted.has(self.guest.alloc, &named)? {
                return Ok(true);
            }
        }
        Ok(false)
    }
}

/// The gap that a search would tell of an execution alone: of those next to what moved the one before the lowest instruction.
fn own_gap(found: &Found) -> Option<Gap> {
    let mut own: Option<Gap> = None;
    for gap in &found.moves.gaps {
        let is_before = match own {
            Some(own) => (gap.distance, gap.later) < (own.distance, own.later),
            None => true,
        };
        if is_before {
            own = Some(*gap);
        }
    }
    own
}

/// Whether a gap is that of an execution of a lower number than this.
fn is_own(found: &Found, gap: &Gap, number: u32) -> bool {
    match own_gap(found) {
        Some(own) => found.number < number && own.is_at(gap),
        None => false,
    }
}

/// The same of one of these executions.
fn is_own_gap(founds: &[Found], gap: &Gap, number: u32) -> bool {
    for found in founds {
        if is_own(found, gap, number) {
            return true;
        }
    }
    false
}

impl<O: FenceObserver> TrialObserver for Looking<'_, '_, '_, O> {
    ghost use Rattle.fence_finder.specs.Finds.{IsEnough};

    ghost answers = { λ o t b. IsEnough o.guest.now.settings.now.accepted t b };

    fn before_numbers(&self, done: u32, founds: &[Found]) -> u32 {
        self.tell_new(founds, self.guest.extent.first.saturating_add(done));
        self.observer.before_block(done, founds.len())
    }

    fn is_over_with(&self, trial: &Trial) -> Result<bool, OutOfMemory> {
        match trial {
            Trial::Fails(found) => {
                let is_accepted = self.is_accepted(found)?;
                Ok(!is_accepted)
            }
            _ => Ok(false),
        }
    }
}

impl<O: FenceObserver> HuntObserver for Looking<'_, '_, '_, O> {
    fn before_block(&self, _done: u32, _rows: &[Row]) -> u32 {
        u32::MAX
    }

    fn has_time(&self) -> bool {
        self.observer.has_time()
    }

    fn after_plan(&self) {
        self.observer.after_number();
    }

    fn after_rounds(&self, rounds: u32) {
        self.observer.after_rounds(rounds);
    }
}
