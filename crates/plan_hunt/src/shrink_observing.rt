/// Whoever looks at a search for a smaller plan. What it does makes no difference to the plan.
pub trait ShrinkObserver {
    /// Looks on after a plan was run; the smallest plan so far has so many rows.
    fn after_run(&mut self, rows: usize);
}

/// Nobody looks.
#[derive(Clone, Copy)]
pub struct UnobservedShrink;

impl ShrinkObserver for UnobservedShrink {
    fn after_run(&mut self, _rows: usize) {}
}
