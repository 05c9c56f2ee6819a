use crate::others::Why;

/// A fence of a guest, and whether the guest needs it.
#[derive(Clone, Copy)]
pub struct FenceNeed {
    /// Where it stands.
    pub pc: u64,
    /// What becomes of the guest where it does nothing.
    pub need: Need,
}

/// What becomes of a guest where one of its fences does nothing.
#[derive(Clone, Copy)]
pub enum Need {
    /// It has no ending that it doesn't have with it.
    Unneeded,
    /// It has an ending that it doesn't have with it.
    Needed,
    /// A hart of it may wait for ever, as none does with it. That isn't proved.
    Waits,
    /// It isn't known.
    Unknown(Why),
}
