use crate::ending::Ending;

/// A row of a table of endings: an ending, the first plan that leads there, and how many plans do.
pub struct Row {
    pub ending: Ending,
    pub first: u32,
    pub plans: u32,
}

// By hand, so that a proof has one step for it wherever one is dropped, in this crate and above.
impl Drop for Row {
    fn drop(self) {
        let Row {
            ending,
            first: _,
            plans: _,
        } = self;
        drop(ending);
    }
}
