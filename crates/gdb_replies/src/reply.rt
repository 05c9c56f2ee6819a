use crate::file_reply::FileReply;
use crate::note::ThreadNote;
use crate::registers::Registers;
use crate::stop_reply::StopReply;
use crate::window::Window;

/// What a debugger is told.
#[derive(Clone, Copy)]
pub enum Reply<'a> {
    /// The request isn't one of those that are answered.
    Unknown,
    /// It is done.
    Done,
    /// There is no such thing.
    Missing,
    /// A refusal, by its number.
    Refused(u32),
    /// Registers and memory of a recording can't be written.
    PastStands,
    /// Those of an execution can't either.
    ExecutionStands,
    /// What of the protocol is offered; with this, the program's image too.
    Features(bool),
    /// The ways in which the run can be resumed.
    Actions,
    /// The run was there before the debugger came.
    Attached,
    /// All registers.
    Registers(&'a Registers),
    /// One register.
    Register(u64),
    /// Bytes of memory, of which there is at least one.
    Memory(&'a [u8]),
    /// The run stands.
    Stopped(StopReply),
    /// As many threads as these, from 1 on.
    Threads(u32),
    /// There are no more threads.
    NoMoreThreads,
    /// The present thread.
    Thread(u32),
    /// What is said of a thread.
    Note(ThreadNote),
    /// A text for the debugger's terminal.
    Console(&'a [u8]),
    /// A part of a document.
    Part(Window<'a>),
    /// The checksum of bytes of memory.
    Checksum(u32),
    /// Something of files.
    File(FileReply<'a>),
    /// What a command of the user's says. There is at least one byte.
    Words(&'a [u8]),
}
