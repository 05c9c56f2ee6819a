ghost use Rattle.std.specs.Prelude.{◌≡◌, [], length};

use crate::history::History;
use crate::sink::{Sink, SinkFault};
use crate::source::{Source, SourceFault};
use std::io::{Read, Write};

/// A sink that writes to a writer, as to standard output or a file. What it took are the bytes that the
/// writer said it wrote.
#[derive(Drop)]
pub struct WriteSink<W> {
    writer: W,
    taken: History,
    failed: History,
}

impl<W: Write> WriteSink<W> {
    /// A sink that took nothing yet.
    pub fn new(writer: W) -> WriteSink<W>
        ensures took { ⟦<WriteSink<W> as Sink>⟧.took result ≡ [] }
        ensures failures { ⟦<WriteSink<W> as Sink>⟧.failures result ≡ 0 }
    {
        WriteSink {
            writer,
            taken: History::new(),
            failed: History::new(),
        }
    }
}

impl<W: Write> Sink for WriteSink<W> {
    ghost use Rattle.std.specs.Prelude.{length};

    ghost took = { λ s. s.taken.bytes };

    ghost failures = { λ s. length s.failed.bytes };

    fn put(&mut self, bytes: &[u8]) -> Result<usize, SinkFault> {
        if bytes.is_empty() {
            return Ok(0);
        }
        match self.writer.write(bytes) {
            Ok(0) | Err(_) => {
                self.failed.note(&[0]);
                Err(SinkFault)
            }
            Ok(count) => {
                self.taken.note(&bytes[..count]);
                Ok(count)
            }
        }
    }
}

/// A source that reads from a reader, as from standard input or a file.
#[derive(Drop)]
pub struct ReadSource<R> {
    reader: R,
    given: History,
    ended: History,
    failed: History,
}

impl<R: Read> ReadSource<R> {
    /// A source that gave nothing yet.
    pub fn new(reader: R) -> ReadSource<R>
        ensures gave { ⟦<ReadSource<R> as Source>⟧.gave result ≡ [] }
        ensures ends { ⟦<ReadSource<R> as Source>⟧.ends result ≡ 0 }
        ensures failures { ⟦<ReadSource<R> as Source>⟧.failures result ≡ 0 }
    {
        ReadSource {
            reader,
            given: History::new(),
            ended: History::new(),
            failed: History::new(),
        }
    }
}

impl<R: Read> Source for ReadSource<R> {
    ghost use Rattle.std.specs.Prelude.{length};

    ghost gave = { λ s. s.given.bytes };

    ghost ends = { λ s. length s.ended.bytes };

    ghost failures = { λ s. length s.failed.bytes };

    fn get(&mut self, buf: &mut [u8]) -> Result<usize, SourceFault> {
        if buf.is_empty() {
            return Ok(0);
        }
        match self.reader.read(buf) {
            Ok(0) => {
                self.ended.note(&[0]);
                Ok(0)
            }
            Ok(count) => {
                self.given.note(&buf[..count]);
                Ok(count)
            }
            Err(_) => {
                self.failed.note(&[0]);
                Err(SourceFault)
            }
        }
    }
}
