/// Why the run stands where it stands.
#[derive(Clone, Copy, PartialEq, Eq)]
pub enum Reason {
    /// A step has ended.
    Step,
    /// A breakpoint is at the pc.
    Breakpoint,
    /// A breakpoint of the kind that gdb calls a hardware breakpoint is at the pc.
    HardwareBreakpoint,
    /// A write to the watched bytes at this address.
    Watch(u64),
    /// A read of them.
    ReadWatch(u64),
    /// A read or a write of them.
    AccessWatch(u64),
    /// A signal, by gdb's number of it: a fault of the guest, an interrupt by the user, or 0.
    Signal(u8),
    /// The recording begins here.
    Begin,
    /// The recording ends here.
    End,
}

/// Where the run stands, and why.
#[derive(Clone, Copy)]
pub struct StopReply {
    pub reason: Reason,
    /// The thread that the reason speaks of: hart 0 is thread 1.
    pub thread: u32,
    /// Its pc.
    pub pc: u64,
    /// Its register x2.
    pub sp: u64,
    /// Its register x8.
    pub fp: u64,
}
