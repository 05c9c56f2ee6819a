use crate::posted_start::PostedStart;
use parallel_phase::RunStarts;
use std::alloc::Global;
use std::sync::Arc;

/// What stands on a board: no worker's part of a round does.
#[derive(Drop)]
pub(crate) struct Postings<S: RunStarts> {
    /// The start of the round that is under way, while it may be taken.
    pub(crate) start: Option<Arc<PostedStart<S>, Global>>,
    /// How many starts were posted.
    pub(crate) count: u64,
    /// How many workers hold the start that was posted last.
    pub(crate) holders: u64,
    /// Whether no start will be posted any more.
    pub(crate) closed: bool,
}

impl<S: RunStarts> Postings<S> {
    /// Takes part in the round that is posted, unless a worker has seen it. Its holder has to leave it.
    pub(crate) fn take_start(&mut self, seen: &mut u64) -> Option<Arc<PostedStart<S>, Global>> {
        if self.count == *seen {
            return None;
        }
        let posted = self.start.as_ref()?;
        *seen = self.count;
        let start = Arc::try_clone(posted).ok()?;
        self.holders = self.holders.wrapping_add(1);
        Some(start)
    }
}
