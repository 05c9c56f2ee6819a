use past_harts::Point;

/// What a debugger looks at.
#[derive(Clone, Copy)]
pub struct Look {
    /// Where in the run.
    pub point: Point,
    /// A hart's number.
    pub hart: u32,
    /// On how many workers rounds are run, 1 to 16.
    pub workers: u32,
}
