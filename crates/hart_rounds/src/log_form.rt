/// What becomes of the accesses of a round's harts.
// docs/decisions/storage.md
#[derive(Clone, Copy, Debug, PartialEq, Eq)]
pub enum LogForm {
    /// They are counted, and not logged.
    Counted,
    /// They are logged as the harts leave them.
    Logged,
    /// They are logged, and the workers put long logs in brief, for a trace to take over.
    InBrief,
}
