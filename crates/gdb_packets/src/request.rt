use crate::command::Command;
use crate::file_request::FileRequest;

/// Which accesses a watchpoint is for.
#[derive(Clone, Copy, PartialEq)]
pub enum Watch {
    Write,
    Read,
    /// Both.
    Access,
}

/// What a debugger asks for. Hart 0 is thread 1.
#[derive(Clone, Copy, PartialEq)]
pub enum Request {
    /// What of the protocol is offered.
    Features,
    /// The registers that there are: from an offset of their document on, so many bytes.
    Description(u64, u64),
    /// Where the run stands, and why.
    WhyStopped,
    /// All threads and what is said of each: from an offset of their document on, so many bytes.
    ThreadList(u64, u64),
    /// The first threads.
    FirstThreads,
    /// The threads after those that were told.
    MoreThreads,
    /// The thread that registers and memory are asked of.
    PresentThread,
    /// What is said of a thread.
    Note(u64),
    /// Whether the run was there before the debugger.
    Attached,
    /// Registers and memory are asked of this thread from now on.
    SelectGeneral(Option<u64>),
    /// Steps back are those of this thread from now on.
    SelectMoving(Option<u64>),
    /// Whether there is this thread.
    IsAlive(u64),
    /// All registers.
    ReadRegisters,
    /// One register, by its number.
    ReadRegister(u64),
    /// Memory from an address on, so many bytes.
    ReadMemory(u64, u64),
    /// The checksum of memory from an address on, of so many bytes.
    Checksum(u64, u64),
    /// The name of the program's image: from an offset of it on, so many bytes.
    ImageName(u64, u64),
    /// Something of files.
    File(FileRequest),
    /// A command of the user's.
    Command(Command),
    /// A register or memory is to be written.
    Change,
    /// A breakpoint at an address.
    AddStop(u64),
    /// None there any more.
    RemoveStop(u64),
    /// A breakpoint that gdb calls a hardware breakpoint, at an address.
    AddHardwareStop(u64),
    /// None there any more.
    RemoveHardwareStop(u64),
    /// A watchpoint at an address, on so many bytes.
    AddWatch(Watch, u64, u64),
    /// None there any more.
    RemoveWatch(Watch, u64, u64),
    /// The ways in which the run can be resumed.
    Actions,
    /// Go on.
    Continue,
    /// A step of this thread; others may go on.
    Step(u64),
    /// Steps of this thread as long as its pc is at the first address or behind it, and before the second; others may go on.
    StepIn(u64, u64, u64),
    /// A step of this thread alone.
    StepAlone(u64),
    /// A step back.
    StepBack,
    /// Go back.
    ContinueBack,
    /// The debugger leaves, or wants the run to end; it is told that this is done.
    Detach,
    /// The run is to end, and nothing is told.
    Kill,
    /// Anything else.
    Unknown,
}
