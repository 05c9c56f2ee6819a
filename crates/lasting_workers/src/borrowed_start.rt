ghost use Rattle.hart_step.specs.DecodedCode.{Shows};

use hart_rounds::LogForm;
use hart_step::{DecodedCode, Hart};
use pages::Pages;

/// What the parallel phase of a round borrows of a guest: its owner hands it over and gets it back.
// docs/decisions/threads.md
pub struct BorrowedStart {
    /// Guest memory.
    pub pages: Pages,
    /// The decoded words of a stretch of its code.
    pub code: DecodedCode,
    // They are memory's.
    pub ghost shows: { Shows pages.memory code.first code.instructions },
    /// The harts, in hart order.
    pub harts: Vec<Hart>,
    /// The quota of each hart.
    pub quotas: Vec<u32>,
    /// What becomes of the harts' accesses.
    pub form: LogForm,
}

// By hand, so that a proof has one step for it wherever one is dropped, in this crate and above.
impl Drop for BorrowedStart {
    fn drop(self) {
        let BorrowedStart {
            pages,
            code,
            harts,
            quotas,
            form: _,
        } = self;
        drop(pages);
        drop(code);
        drop(harts);
        drop(quotas);
    }
}
