//! Texts in files: a file holds a whole one, or what it held before.

use host_io::{RunError, WriteSink};
use program_files::FileText;
use std::fs::{self, File};
use std::io::{self, BufWriter, Write};

/// Writes a text to a file, in place of what it held.
///
/// It is written under a name of its own, the path with `.part` after it, and renamed when it is whole: so that one that
/// couldn't be finished is never taken for a whole one. What is no plain file, as a device, is written to as it is.
///
/// # Errors
///
/// `SinkFailed` where the file can't be made or written, and `OutOfMemory`. The path holds then what it held before.
pub(crate) fn save<T: FileText>(rt: &HostRuntime, text: &T, path: &str) -> Result<(), RunError> {
    if is_other_than_a_file(rt, path) {
        return write_to(rt, text, path);
    }
    match format!(in rt.alloc(); "{path}.part") {
        Ok(part) => save_by(rt, text, part.as_str(), path),
        Err(_) => Err(RunError::OutOfMemory),
    }
}

/// The same by the name of a part.
fn save_by<T: FileText>(
    rt: &HostRuntime,
    text: &T,
    part: &str,
    path: &str,
) -> Result<(), RunError> {
    let saved = match write_to(rt, text, part) {
        Ok(()) => rename(rt, part, path),
        Err(error) => Err(error),
    };
    if saved.is_err() {
        // What is left of it doesn't matter: it hasn't the name of the file.
        let _left = fs::remove_file(rt, part);
    }
    saved
}

/// Whether there is something at the path that is no plain file.
fn is_other_than_a_file(rt: &HostRuntime, path: &str) -> bool {
    match fs::metadata(rt, path) {
        Ok(found) => !found.is_file(),
        Err(_) => false,
    }
}

/// Writes a text to a file, in place of what was there.
pub(crate) fn write_to<T: FileText>(
    rt: &HostRuntime,
    text: &T,
    path: &str,
) -> Result<(), RunError> {
    let file = match fs::create(rt, path) {
        Ok(file) => file,
        Err(error) => return Err(failed(error.kind())),
    };
    let Ok(mut out) = BufWriter::new(rt.alloc(), file) else {
        return Err(RunError::OutOfMemory);
    };
    put_text(rt, text, &mut out)
}

/// Writes a text to a file that is open.
fn put_text<T: FileText>(
    rt: &HostRuntime,
    text: &T,
    out: &mut BufWriter<File>,
) -> Result<(), RunError> {
    text.write_to(rt.alloc(), &mut WriteSink::new(&mut *out))?;
    match out.flush() {
        Ok(()) => Ok(()),
        Err(error) => Err(failed(error.kind())),
    }
}

/// Gives the file at a path another name.
fn rename(rt: &HostRuntime, from: &str, to: &str) -> Result<(), RunError> {
    match fs::rename(rt, from, to) {
        Ok(()) => Ok(()),
        Err(error) => Err(failed(error.kind())),
    }
}

/// The refusal for an error of the system at a file that is written.
fn failed(kind: io::ErrorKind) -> RunError {
    match kind {
        io::ErrorKind::OutOfMemory => RunError::OutOfMemory,
        _ => RunError::SinkFailed,
    }
}
