ghost use Rattle.std.specs.Prelude.{◌≡◌, ◌++◌, ⊤, [], ◌∷◌, false, IfErr, IfOk};

use host_io::{History, RunError, Sink, SinkFault};
use program_files::Output;
use std::io::{self, BufWriter, ErrorKind, Printer, Write};

/// Standard output, with a buffer.
#[derive(Drop)]
pub struct HostOutput<'a> {
    buffer: BufWriter<Printer<'a, HostRuntime>>,
    /// What reads it has gone, as `head` does: so the last bytes that it didn't take say.
    pub reader_is_gone: bool,
    taken: History,
    failed: History,
}

impl<'a> HostOutput<'a> {
    /// Standard output, of which nothing was taken yet.
    ///
    /// # Errors
    ///
    /// `OutOfMemory` alone.
    pub fn new(rt: &'a HostRuntime) -> Result<HostOutput<'a>, RunError>
        ensures took { IfOk result (λ out. ⟦<HostOutput<'a> as Sink>⟧.took out ≡ []) }
        ensures failures { IfOk result (λ out. ⟦<HostOutput<'a> as Sink>⟧.failures out ≡ 0) }
        ensures reader { IfOk result (λ out. out.reader_is_gone ≡ false) }
        ensures errors { IfErr result (λ error. error ≡ RunError.OutOfMemory) }
    {
        match BufWriter::new(rt.alloc(), io::writer(rt)) {
            Ok(buffer) => Ok(HostOutput {
                buffer,
                reader_is_gone: false,
                taken: History::new(),
                failed: History::new(),
            }),
            Err(_) => Err(RunError::OutOfMemory),
        }
    }
}

impl HostOutput<'_> {
    /// Notes that bytes weren't taken, and whether that is since what reads them has gone.
    fn fault(&mut self, reader_is_gone: bool) -> SinkFault
        ensures taken { self.new.taken.bytes ≡ self.old.taken.bytes }
        ensures failed { self.new.failed.bytes ≡ self.old.failed.bytes ++ 0 ∷ [] }
    {
        self.reader_is_gone = reader_is_gone;
        self.failed.note(&[0]);
        SinkFault
    }
}

impl Sink for HostOutput<'_> {
    ghost use Rattle.std.specs.Prelude.{length};

    ghost took = { λ s. s.taken.bytes };

    ghost failures = { λ s. length s.failed.bytes };

    fn put(&mut self, bytes: &[u8]) -> Result<usize, SinkFault> {
        if bytes.is_empty() {
            return Ok(0);
        }
        match self.buffer.write(bytes) {
            Ok(0) => Err(self.fault(false)),
            Ok(count) => {
                self.taken.note(&bytes[..count]);
                Ok(count)
            }
            Err(error) => Err(self.fault(error.kind() == ErrorKind::BrokenPipe)),
        }
    }
}

impl Output for HostOutput<'_> {
    ghost is_out = { λ _. ⊤ };

    ghost is_stuck = { λ _. ⊤ };

    fn hand_on(&mut self) -> Result<(), RunError> {
        match self.buffer.flush() {
            Ok(()) => Ok(()),
            Err(error) => {
                self.reader_is_gone = error.kind() == ErrorKind::BrokenPipe;
                Err(RunError::SinkFailed)
            }
        }
    }
}
