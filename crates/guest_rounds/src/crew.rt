use hart_rounds::LogForm;

/// How many stored lines of 64 bytes are worth starting threads for at the commit.
// docs/decisions/threads.md
pub const MANY_LINES: usize = 16_384;

/// Who does the rounds of the harts and commits their stores: so many workers, and what is told of each hart.
#[derive(Drop)]
pub struct Crew<'a, G, R> {
    /// What starts the workers' threads and waits for them.
    pub rt: &'a R,
    /// How many workers there are, 1 to 16. The calling thread is one of them.
    pub workers: u32,
    /// What the workers call around the round of each hart.
    pub gate: &'a G,
    /// The workers share a commit in which the harts stored to at least so many lines of 64 bytes: with 0, each commit.
    pub least_lines: usize,
    /// What becomes of the harts' accesses.
    pub form: LogForm,
}
