ghost use Rattle.std.specs.Prelude.{◌≡◌};
ghost use Rattle.gdb_packets.specs.Views.{told_in};
ghost use Rattle.gdb_talk.specs.Asking.{again_of, asked_by, ends};

use gdb_packets::{Item, Request, request_of};

/// What is asked for: by a packet, or by the wish to be told the reply to the last request again.
pub fn asked_by(item: &Item, last: Option<Request>) -> Option<Request>
    ensures { result ≡ asked_by (told_in item.now) last }
{
    match item {
        Item::Packet(payload) => Some(request_of(payload.as_slice())),
        Item::Again => match last {
            Some(request) => Some(again_of(request)),
            None => None,
        },
        Item::Accepted | Item::Interrupt | Item::Spoilt => None,
    }
}

/// What is asked for where the reply to a request is to be told again: what was resumed stands where it stands.
fn again_of(request: Request) -> Request
    ensures { result ≡ again_of request }
{
    match request {
        Request::Continue
        | Request::Step(_)
        | Request::StepIn(..)
        | Request::StepAlone(_)
        | Request::StepBack
        | Request::ContinueBack => Request::WhyStopped,
        other => other,
    }
}

/// Whether the debugger has left, where this is what it said last, and that what it asked for last.
pub fn has_left(item: &Item, last: Option<Request>) -> bool
    ensures { result ≡ ends (told_in item.now) last }
{
    match last {
        Some(Request::Kill) => true,
        Some(Request::Detach) => matches!(item, Item::Accepted),
        _ => false,
    }
}
