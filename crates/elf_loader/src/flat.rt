ghost use Rattle.std.specs.Prelude.{◌≡◌, ◌≢◌, ◌≤◌, ◌⊎◌, IfErr, IfOk, Err};
ghost use Rattle.elf_loader.specs.Causes.{IsLeast, StandsInFlat};
ghost use Rattle.elf_loader.specs.Image.{flat_image};
ghost use Rattle.host_io.specs.declared.load_error.LoadError.{LoadError as Cause};
ghost use Rattle.host_io.specs.declared.load_error.LoadError.TheVariants as causes;

use crate::image::Image;
use host_io::LoadError;
use pages::{MOST_PAGES, Piece, Range};
use std::alloc::Global;

/// The image of a flat file in guest memory of so many pages: it is loaded at address 0, is one code range, and is
/// entered at 0.
///
/// # Errors
///
/// `PastMemory` where the file is larger than guest memory, else `FlatLength` where its length is 0 or not a multiple of
/// 4, or `OutOfMemory`.
pub fn load_flat(alloc: Global, file: &[u8], pages: u32) -> Result<Image, LoadError>
    requires some_pages { 1 ≤ pages }
    requires few_pages { pages ≤ MOST_PAGES }
    ensures image { IfOk result (λ i. i ≡ flat_image file.now pages) }
    // A file is accepted only where no cause stands.
    ensures accepted { IfOk result (λ i. (cause : Cause) → StandsInFlat file.now pages cause → ⊥) }
    // A cause that is answered stands, and is the least.
    ensures refused { IfErr result (λ e. e ≢ causes.OutOfMemory →
        IsLeast (StandsInFlat file.now pages) e) }
    // Where causes stand, the least is answered, if memory doesn't run out.
    ensures exact { (cause : Cause) → IsLeast (StandsInFlat file.now pages) cause →
        (result ≡ Err cause) ⊎ (result ≡ Err causes.OutOfMemory) }
{
    if file.len() > pages as usize * 4096 {
        return Err(LoadError::PastMemory);
    }
    if file.is_empty() || file.len() % 4 != 0 {
        return Err(LoadError::FlatLength);
    }
    let mut pieces = Vec::new(alloc);
    pieces.push(Piece {
        start: 0,
        bytes: Vec::from_slice(alloc, file)?,
    })?;
    let mut code = Vec::new(alloc);
    code.push(Range {
        start: 0,
        len: file.len() as u64,
    })?;
    Ok(Image {
        pieces,
        code,
        entry: 0,
        pages,
    })
}
