ghost use Rattle.std.specs.Prelude.{◌≡◌, IfOk, map, not};
ghost use Rattle.std.specs.List.{list_any};
ghost use Rattle.program_files.specs.Naming.{IsNaming, is_outside, named_in};

use crate::fault::NamingFault;
use crate::objects::{add_objects, first_missing, no_object};
use command_line::Bytes;
use std::alloc::{AllocError, Global};

/// The bytes that a command line names, and why they can't be looked at, if that is so.
#[derive(Drop)]
pub struct NamedBytes {
    /// Those that are named by addresses, and then those of objects, as far as each name stands for one.
    pub bytes: Vec<Bytes>,
    /// `Outside` for a range that is empty or not all in guest memory, else what is wrong with the first name of no object, or of
    /// several. What refuses the settings, the image or the plan comes before.
    pub fault: Option<NamingFault>,
}

/// The bytes that are named by addresses, and those of the image's objects of these names, in memory of so many pages.
///
/// # Errors
///
/// The allocator's alone.
pub fn named_bytes(
    alloc: Global,
    image: &[u8],
    pages: u32,
    seen: &[Bytes],
    objects: &[&str],
) -> Result<NamedBytes, AllocError>
    ensures bytes { IfOk result (λ n. n.bytes.items ≡
        named_in image.now seen.now (map (λ s. s.now) objects.now)) }
    ensures fault { IfOk result (λ n.
        IsNaming image.now pages seen.now (map (λ s. s.now) objects.now) n.fault) }
{
    let mut bytes = Vec::from_slice(alloc, seen)?;
    add_objects(image, objects, &mut bytes)?;
    if has_outside(&bytes, pages) {
        return Ok(NamedBytes {
            bytes,
            fault: Some(NamingFault::Outside),
        });
    }
    let fault = match first_missing(image, objects) {
        Some(name) => Some(no_object(alloc, image, name)?),
        None => None,
    };
    Ok(NamedBytes { bytes, fault })
}

/// Whether some of the bytes are none, or not all in memory of so many pages.
fn has_outside(bytes: &[Bytes], pages: u32) -> bool
    ensures { result ≡ list_any (is_outside pages) bytes.now }
{
    bytes.iter().any(|range| !is_in_memory(range, pages))
}

/// Whether there are such bytes, and memory of so many pages has all of them.
pub fn is_in_memory(bytes: &Bytes, pages: u32) -> bool
    ensures { result ≡ not (is_outside pages bytes.now) }
{
    let end = u128::from(bytes.address) + u128::from(bytes.length);
    bytes.length >= 1 && end <= 4096 * u128::from(pages)
}
