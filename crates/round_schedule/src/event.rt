use crate::access::Access;
use std::mem::size_of;

/// The two phases of a round in which instructions are done.
#[derive(Clone, Copy, PartialEq, Eq)]
pub enum Phase {
    /// Each hart on memory as it was at the round's start, under its own stores.
    Parallel,
    /// The waiting harts in hart order, on memory itself.
    Serial,
}

/// An access with the round, the hart and the phase that it was made in.
#[derive(Clone, Copy, PartialEq, Eq)]
pub struct Event {
    /// What was done.
    pub access: Access,
    /// The round, counted from 1.
    pub round: u32,
    /// The hart, counted from 0. A machine has at most 64.
    pub hart: u8,
    /// The phase of the round.
    pub phase: Phase,
}

// Traces are long lists of events.
const _: () = prove!(size_of::<Event>() == 48);
