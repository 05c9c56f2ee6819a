//! Sinks and sources that serve little at a time, and fail once.

ghost use Rattle.std.specs.Prelude.{◌≤◌};

use host_io::{History, RunError, Sink, SinkFault};
use std::alloc::Global;
use std::io::{self, ErrorKind, Read, Write};

/// How many bytes a call of a device moves.
#[derive(Clone, Copy)]
pub(crate) enum Stride {
    One,
    Hundred,
    All,
}

impl Stride {
    /// How many of so many bytes a call moves.
    fn of(self, count: usize) -> usize
        ensures within { result ≤ count }
        ensures some { 1 ≤ count → 1 ≤ result }
    {
        match self {
            Stride::One => count.min(1),
            Stride::Hundred => count.min(100),
            Stride::All => count,
        }
    }
}

/// How a call of a sink fails.
#[derive(Clone, Copy)]
pub(crate) enum Fault {
    Refuses,
    TakesNone,
}

/// A sink in memory, and a writer.
#[derive(Drop)]
pub(crate) struct Tray {
    bytes: Vec<u8>,
    stride: Stride,
    /// The number of the call that fails, counted from 0, and how.
    failing: Option<(usize, Fault)>,
    /// How many calls there were.
    calls: usize,
    taken: History,
    failed: History,
}

impl Tray {
    pub(crate) fn new(alloc: Global, stride: Stride, failing: Option<(usize, Fault)>) -> Tray {
        Tray {
            bytes: Vec::new(alloc),
            stride,
            failing,
            calls: 0,
            taken: History::new(),
            failed: History::new(),
        }
    }

    /// What a call that comes now fails by.
    fn fault(&self) -> Option<Fault> {
        match self.failing {
            Some((call, fault)) if call == self.calls => Some(fault),
            _ => None,
        }
    }
}

impl Sink for Tray {
    ghost use Rattle.std.specs.Prelude.{length};

    ghost took = { λ s. s.taken.bytes };

    ghost failures = { λ s. length s.failed.bytes };

    fn put(&mut self, bytes: &[u8]) -> Result<usize, SinkFault> {
        if bytes.is_empty() {
            return Ok(0);
        }
        let fault = self.fault();
        self.calls = self.calls.saturating_add(1);
        if let Some(fault) = fault {
            self.failed.note(&[0]);
            return match fault {
                Fault::Refuses => Err(SinkFault),
                Fault::TakesNone => Ok(0),
            };
        }
        let count = self.stride.of(bytes.len());
        if self.bytes.extend_from_slice(&bytes[..count]).is_err() {
            self.failed.note(&[0]);
            return Err(SinkFault);
        }
        self.taken.note(&bytes[..count]);
        Ok(count)
    }
}

impl Write for Tray {
    fn write(&mut self, bytes: &[u8]) -> io::Result<usize> {
        match self.put(bytes) {
            Ok(count) => Ok(count),
            Err(SinkFault) => Err(io::Error::from(ErrorKind::StorageFull)),
        }
    }

    fn flush(&mut self) -> io::Result<()> {
        Ok(())
    }
}

/// Whether a call puts this text into a sink of each of these strides, and whichever of its calls fails, answers so, with a
/// beginning of the text in the sink, and does not come back to it.
pub(crate) fn writes<F: Fn(&mut Tray) -> Result<(), RunError>>(
    alloc: Global,
    text: &[u8],
    strides: &[Stride],
    call: &F,
) -> bool
    requires { F.IsAlwaysCallable call.now }
{
    for stride in strides {
        let Some(calls) = calls_to_write(alloc, text, *stride, call) else {
            return false;
        };
        for fault in [Fault::Refuses, Fault::TakesNone] {
            if !is_told(alloc, text, *stride, fault, calls, call) {
                return false;
            }
        }
    }
    true
}

/// How many calls a sink that doesn't fail has, where this text is put into it; nothing where another text is.
pub(crate) fn calls_to_write<F: Fn(&mut Tray) -> Result<(), RunError>>(
    alloc: Global,
    text: &[u8],
    stride: Stride,
    call: &F,
) -> Option<usize>
    requires { F.IsAlwaysCallable call.now }
{
    let mut tray = Tray::new(alloc, stride, None);
    if call(&mut tray) == Ok(()) && tray.bytes.as_slice() == text {
        Some(tray.calls)
    } else {
        None
    }
}

/// Whether each of so many failures is told, with a beginning of the text in the sink.
fn is_told<F: Fn(&mut Tray) -> Result<(), RunError>>(
    alloc: Global,
    text: &[u8],
    stride: Stride,
    fault: Fault,
    calls: usize,
    call: &F,
) -> bool
    requires { F.IsAlwaysCallable call.now }
{
    for failing in 0..calls {
        let mut tray = Tray::new(alloc, stride, Some((failing, fault)));
        let answer = call(&mut tray);
        let is_beginning = text.starts_with(&tray.bytes) && tray.calls == failing + 1;
        if answer != Err(RunError::SinkFailed) || !is_beginning {
            return false;
        }
    }
    true
}

/// A reader of bytes in memory.
#[derive(Drop)]
pub(crate) struct Spool<'a> {
    pub(crate) rest: &'a [u8],
    pub(crate) stride: Stride,
    /// The number of the call that fails, counted from 0.
    pub(crate) failing: Option<usize>,
    /// How many calls there were.
    pub(crate) calls: usize,
}

impl Read for Spool<'_> {
    fn read(&mut self, room: &mut [u8]) -> io::Result<usize> {
        let call = self.calls;
        self.calls = self.calls.saturating_add(1);
        if self.failing == Some(call) {
            return Err(io::Error::from(ErrorKind::TimedOut));
        }
        let count = self.stride.of(room.len().min(self.rest.len()));
        let (given, rest) = self.rest.split_at(count);
        room[..count].copy_from_slice(given);
        self.rest = rest;
        Ok(count)
    }
}
