//! What a debugger says, one thing after another.

ghost use Rattle.std.specs.Prelude.{◌≡◌};
ghost use Rattle.gdb_packets.specs.Views.{told_in};
ghost use Rattle.execution_moments.specs.Looked.{looked_at};
ghost use Rattle.execution_session.specs.Sessions.{state_of};
ghost use Rattle.execution_session.specs.Serving.{HearsBy, RepliesTo, begun, talking};
ghost use Rattle.gdb_talk.specs.Asking.{asked_by, ends};
ghost use Rattle.gdb_talk.specs.Saying.{response_text};

use crate::answering::answer;
use crate::session::Session;
use execution_moments::Past;
use gdb_packets::{Item, Request};
use gdb_talk::{Response, asked_by, has_left};
use pages::OutOfMemory;
use std::alloc::Global;

/// A debugger's session, and what it asked for last.
#[derive(Drop)]
pub(crate) struct Talk {
    pub(crate) session: Session,
    pub(crate) last: Option<Request>,
}

impl Talk {
    /// Nothing was said yet.
    pub(crate) fn new(alloc: Global) -> Talk
        ensures { talking result ≡ begun }
    {
        Talk {
            session: Session::new(alloc),
            last: None,
        }
    }

    /// Hears what a debugger says: what is said behind its acknowledgement.
    pub(crate) fn hear(&mut self, alloc: Global, past: &Past, item: &Item) -> Response
        ensures { HearsBy (looked_at past.now) (talking self.old)
            (asked_by (told_in item.now) self.old.last) (response_text result) (talking self.new) }
    {
        let Some(request) = asked_by(item, self.last) else {
            return Response::Nothing;
        };
        self.last = Some(request);
        reply(alloc, past, &mut self.session, request)
    }

    /// Whether the debugger has left, where this is what it said last.
    pub(crate) fn has_ended(&self, item: &Item) -> bool
        ensures { result ≡ ends (told_in item.now) (talking self.now).last }
    {
        has_left(item, self.last)
    }
}

/// The reply to a request, but for one that the execution is to end, or that it found no memory.
fn reply(alloc: Global, past: &Past, session: &mut Session, request: Request) -> Response
    ensures { RepliesTo (looked_at past.now) (state_of session.old) request (response_text result)
        (state_of session.new) }
{
    match request {
        Request::Kill => Response::Nothing,
        _ => match answer(alloc, past, session, request) {
            Ok(text) => Response::Packets(text),
            Err(OutOfMemory) => Response::Refused,
        },
    }
}
