//! Steps of one thread, alone or with the others.

ghost use Rattle.std.specs.Prelude.{◌≡◌};
ghost use Rattle.gdb_packets.specs.Grammar.{others_go, range_of, step_of};

use crate::fields::{behind, number_from};
use crate::request::Request;

/// A step, by its thread.
pub(crate) fn step_of(text: &[u8]) -> Request
    ensures { result ≡ step_of text.now }
{
    let Some(rest) = behind(b":", text) else {
        return Request::Unknown;
    };
    let Some((thread, rest)) = number_from(0, rest) else {
        return Request::Unknown;
    };
    others_go(rest, Request::StepAlone(thread), Request::Step(thread))
}

/// A step that is repeated in a range of addresses, by the range and the thread.
pub(crate) fn range_of(text: &[u8]) -> Request
    ensures { result ≡ range_of text.now }
{
    let Some((low, rest)) = number_from(0, text) else {
        return Request::Unknown;
    };
    let Some(rest) = behind(b",", rest) else {
        return Request::Unknown;
    };
    let Some((high, rest)) = number_from(0, rest) else {
        return Request::Unknown;
    };
    let Some(rest) = behind(b":", rest) else {
        return Request::Unknown;
    };
    let Some((thread, rest)) = number_from(0, rest) else {
        return Request::Unknown;
    };
    others_go(
        rest,
        Request::StepAlone(thread),
        Request::StepIn(low, high, thread),
    )
}

/// The request of a thread alone, or that of a thread together with the others, where more actions follow.
fn others_go(text: &[u8], alone: Request, together: Request) -> Request
    ensures { result ≡ others_go text.now alone together }
{
    match behind(b";", text) {
        Some(_) => together,
        None => alone,
    }
}
