//! The world around a command: files by name, standard error, and who tells how far the command is.
ghost use Rattle.std.specs.Prelude.{◌≡◌, ◌⊎◌, ℕ, List, IfErr, IfOk, OnOk};
ghost use Rattle.program_files.specs.Relations.{FileRelations};

use crate::files::{FileFault, FileText};
use crate::progress::ProgressLine;
use host_io::RunError;
use std::fmt::Display;

/// The world around a command. A path is one as the host takes it.
pub trait World {
    /// Tells how far a command is. Where the threads of a hunt share it, the command says so: a bound here would be one of each thread.
    type Progress: ProgressLine;

    /// What its files hold.
    ghost files: { Self → FileRelations };
    /// The files are those of before, but that the file of a path was given a text.
    ghost was_given: { Self → Self → List ℕ → List ℕ → Type 0 };
    /// The file of a path couldn't be made or written.
    ghost wasnt_given: { Self → List ℕ → Type 0 };

    /// All the bytes of the file of a path.
    ///
    /// # Errors
    ///
    /// `TooLarge` where it has more than 1 GiB, or never ends; any other `FileFault` where it can't be opened or read.
    fn read_whole(&self, path: &str) -> Result<Vec<u8>, FileFault>
        ensures holds { IfOk result (λ bytes. (files self.now).holds path.now bytes.items) }
        ensures lacks { IfErr result ((files self.now).lacks path.now) };

    /// The first `most` bytes of the file of a path, or all where it has fewer.
    ///
    /// # Errors
    ///
    /// Any `FileFault` but `TooLarge`.
    fn read_beginning(&self, path: &str, most: u64) -> Result<Vec<u8>, FileFault>
        ensures begins { IfOk result (λ bytes. (files self.now).begins path.now most bytes.items) }
        ensures lacks { IfErr result ((files self.now).lacks path.now) };

    /// All the bytes of the file of a path, however many, if it begins with the mark. Of another file only as many bytes as the mark
    /// has, or fewer where there aren't as many.
    ///
    /// # Errors
    ///
    /// Any `FileFault` but `TooLarge`.
    fn read_marked(&self, path: &str, mark: &[u8]) -> Result<Vec<u8>, FileFault>
        ensures marked { IfOk result (λ bytes.
            (files self.now).marked path.now mark.now bytes.items) }
        ensures lacks { IfErr result ((files self.now).lacks path.now) };

    /// All the bytes of the file of a path, if it begins with the first mark; if it begins with the second, which is as long, the same up
    /// to 1 GiB; and else only as many bytes as the marks have, or fewer where there aren't as many.
    ///
    /// # Errors
    ///
    /// `TooLarge` where a file with the second mark has 1 GiB or more, or never ends; any other `FileFault` where it can't be opened or read.
    fn read_either(&self, path: &str, first: &[u8], second: &[u8]) -> Result<Vec<u8>, FileFault>
        ensures either { IfOk result (λ bytes.
            (files self.now).either path.now first.now second.now bytes.items) }
        ensures lacks { IfErr result ((files self.now).lacks path.now) };

    /// Gives the file of a path a text in place of what it held.
    ///
    /// # Errors
    ///
    /// `SinkFailed` where the file can't be made or written, and `OutOfMemory`. It holds then what it held before.
    fn replace<T: FileText>(&mut self, path: &str, text: &T) -> Result<(), RunError>
        ensures given { OnOk result (was_given self.old self.new path.now (T.text text.now)) }
        ensures refused { IfErr result (λ error.
            (error ≡ RunError.OutOfMemory) ⊎ wasnt_given self.new path.now) };

    /// The same, with the same errors, but where it fails a beginning of the text may stand in the file.
    fn overwrite<T: FileText>(&mut self, path: &str, text: &T) -> Result<(), RunError>
        ensures given { OnOk result (was_given self.old self.new path.now (T.text text.now)) }
        ensures refused { IfErr result (λ error.
            (error ≡ RunError.OutOfMemory) ⊎ wasnt_given self.new path.now) };

    /// Makes a folder where there is none, and those above it. Where that fails, a file in it can't be written either.
    fn make_folder(&mut self, path: &str);

    /// Tells a text on standard error, and ends the line. It is no failure where that takes nothing.
    fn tell<D: Display + Drop>(&self, text: D);

    /// Begins to tell, where that is asked for, how far a command is that has so many rounds or plans to do. One by so many workers begins no plan
    /// after so many seconds, if there is such a limit.
    fn progress(&self, asked: bool, all: u32, workers: u32, seconds: Option<u32>) -> Self::Progress;
}
