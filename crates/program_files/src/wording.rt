//! What is said of failures.

use crate::failure::CommandFailure;
use crate::files::FileFault;
use host_io::RunError;
use std::fmt::{self, Display, Formatter, Write};

impl Display for CommandFailure {
    fn fmt<W: Write>(&self, f: &mut Formatter<W>) -> Result<(), fmt::Error> {
        match self {
            CommandFailure::Refused(error) => write!(f, "{error}"),
            CommandFailure::Plan(error, line) => write!(f, "{error}\n{line}"),
            CommandFailure::File(path, fault) => say_unread(f, path, *fault),
            CommandFailure::Unwritten(path) => {
                write!(f, "the file {path} couldn't be made or written")
            }
            CommandFailure::NoSpurious => write!(
                f,
                "the image has no object dethart_spurious: link it with the pthreads kit's conditions"
            ),
            CommandFailure::Naming(fault) => write!(f, "{fault}"),
            CommandFailure::Unread(error) => write!(f, "{error}"),
            CommandFailure::NoExecution(cause, line) => write!(f, "{cause}: line {line}"),
            CommandFailure::NoRounds => {
                write!(
                    f,
                    "an execution has no rounds: leave out --round, --from and --to"
                )
            }
            CommandFailure::Hunt(error) => write!(f, "{error}"),
            CommandFailure::NotATable(path) => write!(f, "the file {path} is no table of a hunt"),
            CommandFailure::Apart(last, path, why) => {
                write!(f, "the table {path} doesn't go on where {last} ends: {why}")
            }
            CommandFailure::Merge(error) => write!(f, "{error}"),
            CommandFailure::Unlike(why) => write!(f, "{why}"),
            CommandFailure::Accept(error) => write!(f, "{error}"),
            CommandFailure::NoPlace(word, why) => {
                write!(f, "no fence can be assumed before {word}: {why}")
            }
        }
    }
}

/// Says why the file of a path couldn't be read.
fn say_unread<W: Write>(
    f: &mut Formatter<W>,
    path: &str,
    fault: FileFault,
) -> Result<(), fmt::Error> {
    match fault {
        FileFault::NotFound => write!(f, "there is no file {path}"),
        FileFault::NoPermission => write!(f, "there is no permission to read the file {path}"),
        FileFault::Folder => write!(f, "{path} is a folder, and no file"),
        FileFault::TooLarge => write!(f, "the file {path} has more than 1 GiB"),
        FileFault::OutOfMemory => write!(f, "{}", RunError::OutOfMemory),
        FileFault::Other => write!(f, "the file {path} couldn't be opened or read"),
    }
}
