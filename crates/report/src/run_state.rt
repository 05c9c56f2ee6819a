use hart_step::Hart;
use pages::Pages;

/// What a run has come to: all that its report tells before the events.
#[derive(Clone, Copy)]
pub struct RunState<'a> {
    /// How many rounds were done.
    pub rounds: u32,
    /// The harts, from hart 0 on.
    pub harts: &'a [Hart],
    /// Memory.
    pub pages: &'a Pages,
    /// The output of the console.
    pub output: &'a [u8],
}
