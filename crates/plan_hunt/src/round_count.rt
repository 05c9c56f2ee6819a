use crate::observing::HuntObserver;

/// After how many rounds a hunt's observer is told of them.
const TOLD_AT_ONCE: u32 = 64;

/// Counts the rounds of a run that is under way, and tells a hunt's observer of them.
#[derive(Drop)]
pub struct RoundCount<'a, O> {
    observer: &'a O,
    /// How many it wasn't told of yet.
    untold: u32,
}

impl<'a, O: HuntObserver> RoundCount<'a, O> {
    /// None are counted.
    pub fn new(observer: &'a O) -> Self {
        RoundCount {
            observer,
            untold: 0,
        }
    }

    /// Counts one more.
    pub fn add(&mut self) {
        self.untold = self.untold.saturating_add(1);
        if self.untold >= TOLD_AT_ONCE {
            self.end();
        }
    }

    /// Tells of those that weren't told yet.
    pub fn end(&mut self) {
        self.observer.after_rounds(self.untold);
        self.untold = 0;
    }
}
