use hart_step::Hart;
use pages::{Pages, Range};

/// A guest whose endings are looked for.
#[derive(Clone, Copy)]
pub struct Guest<'a> {
    /// Memory as it begins.
    pub pages: &'a Pages,
    /// Its harts as they begin.
    pub harts: &'a [Hart],
    /// The bytes that its endings show.
    pub see: &'a [Range],
}
