ghost use Rattle.std.specs.Prelude.{◌≡◌, length};
ghost use Rattle.execution_file.specs.declared.cause.ReadError.TheVariants.{Refused};
ghost use Rattle.execution_file.specs.Formats.{taken_word};
ghost use Rattle.execution_file.specs.Views.{Gives};

use crate::cause::{Cause, ReadError, Refusal};

/// The refusal for a cause where these bytes stand.
pub(crate) fn refused(cause: Cause, bytes: &[u8]) -> ReadError
    ensures { result ≡ Refused (record { cause = cause; left = length bytes.now }) }
{
    ReadError::Refused(Refusal {
        cause,
        left: bytes.len(),
    })
}

/// What follows a word at the front.
pub(crate) fn word_or<'a>(
    bytes: &'a [u8],
    short: Cause,
    wrong: Cause,
    word: &[u8],
) -> Result<&'a [u8], ReadError>
    ensures { Gives (λ x. x.now) result (taken_word short wrong word.now bytes.now) }
{
    let mut rest = bytes;
    for byte in word {
        let Some((first, after)) = rest.split_first() else {
            return Err(refused(short, rest));
        };
        if *first != *byte {
            return Err(refused(wrong, rest));
        }
        rest = after;
    }
    Ok(rest)
}

/// The same of a word that is cut or malformed.
pub(crate) fn word_at<'a>(bytes: &'a [u8], word: &[u8]) -> Result<&'a [u8], ReadError>
    ensures { Gives (λ x. x.now) result (taken_word Cause.Cut Cause.Malformed word.now bytes.now) }
{
    word_or(bytes, Cause::Cut, Cause::Malformed, word)
}
