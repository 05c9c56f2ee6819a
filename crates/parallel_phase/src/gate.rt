/// What a worker calls around the round of each hart, for one who watches the phase or holds it back.
pub trait Gate {
    /// The hart was claimed, and its round is next.
    fn pass(&self, hart: u32);

    /// The hart's round was put.
    fn done(&self, hart: u32);
}

/// A gate that does nothing.
#[derive(Clone, Copy)]
pub struct Open;

impl Gate for Open {
    fn pass(&self, _hart: u32) {}

    fn done(&self, _hart: u32) {}
}
