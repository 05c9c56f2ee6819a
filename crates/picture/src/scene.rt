use crate::site::Site;
use hart_step::Hart;
use trace::Trace;

/// What is drawn: a run, and what is known of its events beside its trace.
#[derive(Clone, Copy)]
pub struct Scene<'a> {
    /// The trace of the run.
    pub trace: &'a Trace,
    /// The harts as they were before the first round that is drawn.
    pub starts: &'a [Hart],
    /// The harts as they were after the last one.
    pub ends: &'a [Hart],
    /// What is known of each event that has a box, in order: see `events_shown`.
    pub sites: &'a [Site<'a>],
}
