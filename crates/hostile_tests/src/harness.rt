//! What the tests have in common.

use machine::{Format, Settings};

/// One round of two harts by a flat file, on one page and one worker, with a budget of 1.
pub(crate) fn settings(plan: &[u8]) -> Settings<'_> {
    Settings {
        format: Format::Flat,
        harts: 2,
        pages: 1,
        rounds: 1,
        workers: 1,
        budget: 1,
        plan,
    }
}
