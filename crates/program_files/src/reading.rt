//! The files that a run is given.
ghost use Rattle.std.specs.Prelude.{◌≡◌, IfErr, IfOk};
ghost use Rattle.program_files.specs.Asked.{IsFileOfProgram, IsImageFile, IsImageOf, IsProgramOf, LacksSpurious};
ghost use Rattle.program_files.specs.Failures.{IsFileFailure, TellsFault};

use crate::failure::CommandFailure;
use crate::files::FileFault;
use crate::spurious::allow_spurious;
use crate::world::World;
use command_line::Program;
use host_io::RunError;
use pages::MOST_PAGES;
use std::alloc::Global;

/// One byte more than a flat image can have that fits into guest memory.
const MOST_OF_FLAT: u64 = MOST_PAGES as u64 * 4096 + 1;

/// All the bytes of the file of a path.
///
/// # Errors
///
/// `File` where it can't be read, and `OutOfMemory`.
pub fn read_file<W: World>(world: &W, alloc: Global, path: &str) -> Result<Vec<u8>, CommandFailure>
    ensures holds { IfOk result (λ bytes. (W.files world.now).holds path.now bytes.items) }
    ensures errors { IfErr result (IsFileFailure (W.files world.now)
        (λ named. named ≡ path.now) ⊥) }
{
    match world.read_whole(path) {
        Ok(bytes) => Ok(bytes),
        Err(fault) => Err(unreadable(alloc, path, fault)),
    }
}

/// The failure of a file that can't be read.
pub fn unreadable(alloc: Global, path: &str, fault: FileFault) -> CommandFailure
    ensures { TellsFault path.now fault result }
{
    match (fault, String::from_str(alloc, path)) {
        (FileFault::OutOfMemory, _) | (_, Err(_)) => CommandFailure::Refused(RunError::OutOfMemory),
        (fault, Ok(path)) => CommandFailure::File(path, fault),
    }
}

/// A guest program and what it reads.
#[derive(Drop)]
pub struct ProgramFiles {
    /// The image.
    pub image: Vec<u8>,
    /// The input.
    pub input: Vec<u8>,
}

/// Reads a guest program, and what it reads.
///
/// # Errors
///
/// `File` where one of the files can't be read, `NoSpurious` where waits are to return without a signal and the image has no object by which
/// they would, and `OutOfMemory`.
pub fn read_program<W: World>(
    world: &W,
    alloc: Global,
    program: &Program<'_>,
) -> Result<ProgramFiles, CommandFailure>
    ensures program { IfOk result (λ p. IsProgramOf (W.files world.now) program.now
        p.image.items p.input.items) }
    ensures errors { IfErr result (IsFileFailure (W.files world.now) (IsFileOfProgram program.now)
        (LacksSpurious (W.files world.now) program.now)) }
{
    let image = read_image(world, alloc, program)?;
    let input = match program.input {
        Some(path) => read_file(world, alloc, path)?,
        None => Vec::new(alloc),
    };
    Ok(ProgramFiles { image, input })
}

/// Reads the image of a guest program, as it is run.
fn read_image<W: World>(
    world: &W,
    alloc: Global,
    program: &Program<'_>,
) -> Result<Vec<u8>, CommandFailure>
    ensures image { IfOk result (λ bytes. IsImageOf (W.files world.now) program.now bytes.items) }
    ensures errors { IfErr result (IsFileFailure (W.files world.now)
        (λ named. named ≡ program.now.image.now) (LacksSpurious (W.files world.now) program.now)) }
{
    let file = read_image_file(world, alloc, program)?;
    if program.spurious {
        allow_spurious(file)
    } else {
        Ok(file)
    }
}

/// Reads the file of the image.
fn read_image_file<W: World>(
    world: &W,
    alloc: Global,
    program: &Program<'_>,
) -> Result<Vec<u8>, CommandFailure>
    ensures file { IfOk result (λ bytes. IsImageFile (W.files world.now)
        program.now.flat program.now.image.now bytes.items) }
    ensures errors { IfErr result (IsFileFailure (W.files world.now)
        (λ named. named ≡ program.now.image.now) ⊥) }
{
    if !program.flat {
        return read_file(world, alloc, program.image);
    }
    // One that is longer is refused by this beginning of it, as it would be by the whole.
    match world.read_beginning(program.image, MOST_OF_FLAT) {
        Ok(bytes) => Ok(bytes),
        Err(fault) => Err(unreadable(alloc, program.image, fault)),
    }
}
