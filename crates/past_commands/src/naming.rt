//! The bytes of guest memory whose accesses are looked at.
ghost use Rattle.std.specs.Prelude.{◌≡◌, ◌++◌, IfErr, IfOk, None, map};
ghost use Rattle.program_files.specs.Naming.{first_missing, objects_in};
ghost use Rattle.past_commands.specs.Failures.{IsNotNamed, IsUnnamed};
ghost use Rattle.past_commands.specs.Watches.{as_range, at_address, names_watched, watched_bytes};

use command_line::{Bytes, Watch};
use pages::{OutOfMemory, Range};
use program_files::{CommandFailure, no_object, one_object};
use std::alloc::{AllocError, Global};

/// The bytes that a line watches: those that it names by addresses, and those of objects of the image.
///
/// # Errors
///
/// `Naming` for the first name of no object, or of several, and the refusal of memory.
pub(crate) fn watched_bytes(
    alloc: Global,
    image: &[u8],
    asked: &Watch<'_>,
) -> Result<Vec<Bytes>, CommandFailure>
    ensures bytes { IfOk result (λ v. v.items ≡ watched_bytes image.now asked.now) }
    ensures named { IfOk result (λ _. first_missing image.now (names_watched asked.now) ≡ None) }
    ensures errors { IfErr result (IsUnnamed image.now (names_watched asked.now)) }
{
    let mut bytes = addressed(alloc, asked)?;
    let objects = object_bytes(alloc, image, &asked.objects)?;
    bytes.extend_from_slice(&objects)?;
    Ok(bytes)
}

/// The bytes that are named by addresses.
fn addressed(alloc: Global, asked: &Watch<'_>) -> Result<Vec<Bytes>, OutOfMemory>
    ensures { IfOk result (λ v. v.items ≡ asked.now.more.items
        ++ at_address asked.now.address asked.now.length asked.now.is_decimal) }
{
    let mut bytes = Vec::from_slice(alloc, &asked.more)?;
    if let Some(address) = asked.address {
        bytes.push(Bytes {
            address,
            length: asked.length,
            is_decimal: asked.is_decimal,
        })?;
    }
    Ok(bytes)
}

/// The bytes of the image's objects of these names.
fn object_bytes(alloc: Global, image: &[u8], names: &[&str]) -> Result<Vec<Bytes>, CommandFailure>
    ensures bytes { IfOk result (λ v. v.items ≡ objects_in image.now (map (λ s. s.now) names.now)) }
    ensures named { IfOk result (λ _. first_missing image.now (map (λ s. s.now) names.now) ≡ None) }
    ensures errors { IfErr result (IsUnnamed image.now (map (λ s. s.now) names.now)) }
{
    let mut bytes = Vec::new(alloc);
    for name in names {
        match one_object(image, name) {
            Some(object) => bytes.push(Bytes {
                address: object.address,
                length: object.length,
                is_decimal: false,
            })?,
            None => return Err(unnamed(alloc, image, name)),
        }
    }
    Ok(bytes)
}

/// The failure of a name of no object, or of several.
fn unnamed(alloc: Global, image: &[u8], name: &str) -> CommandFailure
    ensures { IsNotNamed image.now name.now result }
{
    match no_object(alloc, image, name) {
        Ok(fault) => CommandFailure::Naming(fault),
        Err(error) => CommandFailure::from(error),
    }
}

/// The ranges of bytes.
pub fn access_ranges(alloc: Global, named: &[Bytes]) -> Result<Vec<Range>, AllocError>
    ensures { IfOk result (λ v. v.items ≡ map as_range named.now) }
{
    let range_of = |bytes: &Bytes| Range {
        start: bytes.address,
        len: bytes.length,
    };
    named.iter().map(range_of).collect(alloc)
}
