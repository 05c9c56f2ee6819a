ghost use Rattle.std.specs.Prelude.{⊤};

use crate::progress::HostProgress;
use crate::saving::{save, write_to};
use host_io::{ReadSource, RunError, read_all};
use program_files::{FileFault, FileText, World};
use std::fmt::Display;
use std::fs::{self, File};
use std::io::{self, Read};

/// The most bytes of a file that are read, but of a recording.
const MOST_BYTES: u64 = 1 << 30;

/// The world of the host.
#[derive(Clone, Copy, Drop)]
pub struct HostWorld<'a> {
    /// The runtime that reaches it.
    pub rt: &'a HostRuntime,
}

impl HostWorld<'_> {
    /// Opens a file to read it.
    fn open(&self, path: &str) -> Result<File, FileFault> {
        match fs::open(self.rt, path) {
            Ok(file) => Ok(file),
            Err(error) => Err(match error.kind() {
                io::ErrorKind::OutOfMemory => FileFault::OutOfMemory,
                io::ErrorKind::NotFound => FileFault::NotFound,
                io::ErrorKind::PermissionDenied => FileFault::NoPermission,
                _ => FileFault::Other,
            }),
        }
    }

    /// All that a reader of the file at a path gives.
    fn read_up<R: Read + Drop>(&self, path: &str, reader: R) -> Result<Vec<u8>, FileFault> {
        match read_all(self.rt.alloc(), &mut ReadSource::new(reader)) {
            Ok(bytes) => Ok(bytes),
            Err(RunError::OutOfMemory) => Err(FileFault::OutOfMemory),
            Err(_) => Err(self.unreadable(path)),
        }
    }

    /// Why the file at a path, which was opened, can't be read.
    fn unreadable(&self, path: &str) -> FileFault {
        match fs::metadata(self.rt, path) {
            Ok(found) if found.is_dir() => FileFault::Folder,
            _ => FileFault::Other,
        }
    }

    /// All the bytes of a file, which has no more than are read of one.
    fn read_bounded(&self, path: &str, file: &File) -> Result<Vec<u8>, FileFault> {
        let bytes = self.read_up(path, file.take(MOST_BYTES))?;
        let is_full = bytes.len() as u64 >= MOST_BYTES;
        if is_full && self.has_more(path, file)? {
            return Err(FileFault::TooLarge);
        }
        Ok(bytes)
    }

    /// Whether a file has more bytes than were read of it.
    fn has_more(&self, path: &str, file: &File) -> Result<bool, FileFault> {
        let more = self.read_up(path, file.take(1))?;
        Ok(!more.is_empty())
    }

    /// All the bytes of a file of which this beginning was read.
    fn read_on(&self, path: &str, beginning: &[u8], file: &File) -> Result<Vec<u8>, FileFault> {
        self.read_up(path, beginning.chain(file))
    }

    /// The same of a file that has fewer bytes than are read of one.
    fn read_on_bounded(
        &self,
        path: &str,
        beginning: &[u8],
        file: &File,
    ) -> Result<Vec<u8>, FileFault> {
        let bytes = self.read_up(path, beginning.chain(file.take(MOST_BYTES)))?;
        if bytes.len() as u64 >= MOST_BYTES {
            return Err(FileFault::TooLarge);
        }
        Ok(bytes)
    }
}

impl<'a> World for HostWorld<'a> {
    ghost files = { λ _. record {
      holds = λ _ _. ⊤;
      begins = λ _ _ _. ⊤;
      marked = λ _ _ _. ⊤;
      either = λ _ _ _ _. ⊤;
      lacks = λ _ _. ⊤;
    } };

    ghost was_given = { λ _ _ _ _. ⊤ };

    ghost wasnt_given = { λ _ _. ⊤ };

    type Progress = HostProgress<'a>;

    fn read_whole(&self, path: &str) -> Result<Vec<u8>, FileFault> {
        let file = self.open(path)?;
        let bytes = self.read_bounded(path, &file)?;
        Ok(bytes)
    }

    fn read_beginning(&self, path: &str, most: u64) -> Result<Vec<u8>, FileFault> {
        let bytes = self.read_up(path, self.open(path)?.take(most))?;
        Ok(bytes)
    }

    fn read_marked(&self, path: &str, mark: &[u8]) -> Result<Vec<u8>, FileFault> {
        let file = self.open(path)?;
        let beginning = self.read_up(path, (&file).take(mark.len() as u64))?;
        if beginning.as_slice() != mark {
            return Ok(beginning);
        }
        let bytes = self.read_on(path, &beginning, &file)?;
        Ok(bytes)
    }

    fn read_either(&self, path: &str, first: &[u8], second: &[u8]) -> Result<Vec<u8>, FileFault> {
        let file = self.open(path)?;
        let beginning = self.read_up(path, (&file).take(first.len() as u64))?;
        let is_first = beginning.as_slice() == first;
        if !is_first && beginning.as_slice() != second {
            return Ok(beginning);
        }
        let read = if is_first {
            self.read_on(path, &beginning, &file)
        } else {
            self.read_on_bounded(path, &beginning, &file)
        };
        let bytes = read?;
        Ok(bytes)
    }

    fn replace<T: FileText>(&mut self, path: &str, text: &T) -> Result<(), RunError> {
        save(self.rt, text, path)?;
        Ok(())
    }

    fn overwrite<T: FileText>(&mut self, path: &str, text: &T) -> Result<(), RunError> {
        write_to(self.rt, text, path)?;
        Ok(())
    }

    fn make_folder(&mut self, path: &str) {
        // Where that fails, a file in it can't be made either.
        let _made = fs::create_dir_all(self.rt, path);
    }

    fn tell<D: Display + Drop>(&self, text: D) {
        let _untold = self.rt.eprintln(text);
    }

    fn progress(
        &self,
        asked: bool,
        all: u32,
        workers: u32,
        seconds: Option<u32>,
    ) -> HostProgress<'a> {
        HostProgress::new(self.rt, asked, all, workers, seconds)
    }
}
