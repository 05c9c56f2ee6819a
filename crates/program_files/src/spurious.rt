//! Waits for a condition that return without a signal.
ghost use Rattle.std.specs.Prelude.{◌≡◌, ◌<◌, IfErr, IfOk, IfSome, None, length};
ghost use Rattle.program_files.specs.Spurious.{AllowsSpurious, spurious_place};
ghost use Rattle.program_files.specs.declared.failure.CommandFailure.TheVariants.{NoSpurious};

use crate::failure::CommandFailure;
use crate::headers::place_of;
use crate::objects::one_object;

/// The object that holds 1 where waits for a condition may return without a signal.
const SPURIOUS: &str = "dethart_spurious";

/// The image whose object `dethart_spurious` holds 1.
///
/// # Errors
///
/// `NoSpurious` where the image has no such object, or has none of its bytes.
pub(crate) fn allow_spurious(mut image: Vec<u8>) -> Result<Vec<u8>, CommandFailure>
    ensures allows { IfOk result (λ new. AllowsSpurious image.items new.items) }
    ensures errors { IfErr result (λ e. e ≡ NoSpurious) }
    ensures none { IfErr result (λ e. spurious_place image.items ≡ None) }
{
    let Some(place) = spurious_place(&image) else {
        return Err(CommandFailure::NoSpurious);
    };
    image[place] = 1;
    Ok(image)
}

/// Where the file of an image has the first byte of the object.
fn spurious_place(image: &[u8]) -> Option<usize>
    ensures place { result ≡ spurious_place image.now }
    ensures within { IfSome result (λ place. place < length image.now) }
{
    let object = one_object(image, SPURIOUS)?;
    place_of(image, object.address)
}
