ghost use Rattle.std.specs.Prelude.{◌≡◌, ◌≢◌, ◌⊎◌, Err, IfErr, IfOk, map};
ghost use Rattle.clap.specs.Words.{kind_of};
ghost use Rattle.std.specs.declared.io.ErrorKind.TheVariants as kinds;
ghost use Rattle.dethart.specs.declared.failure.Failure.TheVariants as failures;

use crate::failure::Failure;
use clap::error::ErrorKind;
use host_io::RunError;
use program_files::ExitStatus;
use std::alloc::{AllocError, Global};
use std::{env, io};

/// The arguments of the program, of which the first is its name.
pub(crate) fn arguments(rt: &HostRuntime) -> Result<Vec<String>, Failure> {
    match env::args(rt) {
        Ok(arguments) => Ok(arguments.collect(rt.alloc())?),
        Err(error) => Err(match error.kind() {
            io::ErrorKind::OutOfMemory => Failure::Refused(RunError::OutOfMemory),
            _ => Failure::NotText,
        }),
    }
}

/// The texts, in the same order.
pub(crate) fn texts_of<'a>(
    alloc: Global,
    strings: &'a [String],
) -> Result<Vec<&'a str>, AllocError> {
    strings.iter().map(|string| string.as_str()).collect(alloc)
}

/// Answers a line that `clap` doesn't take: prints the help or the version that was asked for, and else says what fails.
pub(crate) fn answer_line(rt: &HostRuntime, error: clap::Error) -> Result<ExitStatus, Failure>
    ensures memory { kind_of error ≡ ErrorKind.OutOfMemory →
        result ≡ Err (failures.Refused RunError.OutOfMemory) }
    ensures help { kind_of error ≡ ErrorKind.DisplayHelp →
        IfErr result (λ failure. (failure ≡ failures.Refused RunError.SinkFailed) ⊎
        (failure ≡ failures.ReaderGone)) }
    ensures version { kind_of error ≡ ErrorKind.DisplayVersion →
        IfErr result (λ failure. (failure ≡ failures.Refused RunError.SinkFailed) ⊎
        (failure ≡ failures.ReaderGone)) }
    ensures done { IfOk result (λ status. ((kind_of error ≡ ErrorKind.DisplayHelp) ⊎
        (kind_of error ≡ ErrorKind.DisplayVersion)) × (status ≡ ExitStatus.Done)) }
    ensures bad { kind_of error ≢ ErrorKind.OutOfMemory → kind_of error ≢ ErrorKind.DisplayHelp →
        kind_of error ≢ ErrorKind.DisplayVersion → result ≡ Err (failures.Line error) }
{
    match error.kind() {
        ErrorKind::OutOfMemory => Err(Failure::Refused(RunError::OutOfMemory)),
        ErrorKind::DisplayHelp | ErrorKind::DisplayVersion => match error.print(rt) {
            Ok(()) => Ok(ExitStatus::Done),
            Err(error) => Err(unprinted(error.kind())),
        },
        _ => Err(Failure::Line(error)),
    }
}

/// The failure of a text that couldn't be printed, for an error of the system: what read it has gone, or else the output failed.
fn unprinted(kind: io::ErrorKind) -> Failure
    ensures gone { kind ≡ kinds.BrokenPipe → result ≡ failures.ReaderGone }
    ensures failed { kind ≢ kinds.BrokenPipe → result ≡ failures.Refused RunError.SinkFailed }
    ensures either { (result ≡ failures.Refused RunError.SinkFailed) ⊎
        (result ≡ failures.ReaderGone) }
{
    match kind {
        io::ErrorKind::BrokenPipe => Failure::ReaderGone,
        _ => Failure::Refused(RunError::SinkFailed),
    }
}
