use pages::Range;

/// Which moves on a range of bytes are told.
#[derive(Clone, Copy, PartialEq, Eq)]
pub enum WatchKind {
    /// Those after which their hart sees another byte in it than before.
    Changes,
    /// Those that read a byte of it.
    Reads,
    /// Those that read or write one.
    Accesses,
}

/// A range of bytes that is watched.
#[derive(Clone, Copy)]
pub struct Watchpoint {
    /// What is told of it.
    pub kind: WatchKind,
    /// The bytes.
    pub range: Range,
}

/// Which way a debugger goes through a run.
#[derive(Clone, Copy, PartialEq, Eq)]
pub enum Way {
    /// With time.
    On,
    /// Against it.
    Back,
}
