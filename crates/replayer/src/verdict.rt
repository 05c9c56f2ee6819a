/// Whether a run is the recorded one.
#[derive(Clone, Copy, PartialEq, Eq)]
pub enum Verdict {
    /// In every round the state is the recorded one.
    Same,
    /// This is the first round after which it is another.
    Differs(u32),
}
