//! The files of a host, by their paths.
ghost use Rattle.std.specs.Prelude.{ℕ, List};
ghost use Rattle.host_io.specs.Taken.{WritesText};

use host_io::{RunError, Sink};
use std::alloc::Global;

/// Why a file can't be read.
#[derive(Clone, Copy, Drop)]
pub enum FileFault {
    /// There is none of its path.
    NotFound,
    /// Who runs the program may not read it.
    NoPermission,
    /// It is a folder.
    Folder,
    /// It has more bytes than are read of a file.
    TooLarge,
    /// A request for memory was refused.
    OutOfMemory,
    /// Another reason.
    Other,
}

/// A text that a file is given.
pub trait FileText {
    /// Its bytes.
    ghost text: { Self → List ℕ };

    /// Writes the text.
    ///
    /// # Errors
    ///
    /// `OutOfMemory` and `SinkFailed`; a beginning of the text is written then.
    fn write_to<S: Sink>(&self, alloc: Global, out: &mut S) -> Result<(), RunError>
        ensures writes { WritesText (text self.now) (S.took out.old) (S.failures out.old) result
            (S.took out.new) (S.failures out.new) };
}
