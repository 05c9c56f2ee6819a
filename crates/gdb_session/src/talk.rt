//! What a debugger says, one thing after another.

ghost use Rattle.std.specs.Prelude.{◌≡◌, IfSome};
ghost use Rattle.gdb_packets.specs.Views.{told_in};
ghost use Rattle.gdb_resumes.specs.Resumes.{IsUnderWay, interrupted};
ghost use Rattle.gdb_runs.specs.Sessions.{IsReady, OfRun, state_of};
ghost use Rattle.gdb_session.specs.Serving.{HearsBy, HearsWhile, IsInterrupted, RepliesTo, StandsOrLost, TakesUp, begun, request_for, talking};
ghost use Rattle.gdb_talk.specs.Asking.{asked_by, ends};
ghost use Rattle.gdb_talk.specs.Saying.{response_text};

use crate::answering::answer;
use crate::reading::say_stop;
use gdb_packets::{Item, Request};
use gdb_resumes::{Search, Searched};
use gdb_runs::{Debugged, Session, Standing};
use gdb_talk::{Response, asked_by, has_left};
use pages::OutOfMemory;
use std::alloc::Global;
use std::sync::Wait;
use std::thread::Threads;
use watching::Way;

/// A debugger's session, what it asked for last, and the search for the answer that is under way.
#[derive(Drop)]
pub(crate) struct Talk {
    pub(crate) session: Session,
    pub(crate) last: Option<Request>,
    pub(crate) searching: Option<Search>,
}

impl Talk {
    /// Nothing was said yet.
    pub(crate) fn new(alloc: Global) -> Talk
        ensures { talking result ≡ begun }
    {
        Talk {
            session: Session::new(alloc),
            last: None,
            searching: None,
        }
    }

    /// Hears what a debugger says: what is said behind its acknowledgement. It may wait.
    pub(crate) fn hear<R: Threads + Wait + Sync>(
        &mut self,
        rt: &R,
        alloc: Global,
        run: &mut Debugged,
        item: &Item,
    ) -> Response
        requires ready { IsReady run.old self.old.session.standing }
        requires search { IfSome self.old.searching (λ x.
            IsUnderWay run.old (state_of self.old.session) x) }
        ensures stays { run.new ≡ run.old }
        ensures ready { IsReady run.old self.new.session.standing }
        ensures search { IfSome self.new.searching (λ x.
            IsUnderWay run.old (state_of self.new.session) x) }
        ensures hears { OfRun run.old (λ r. HearsWhile r (talking self.old) (told_in item.now)
            self.old.searching (response_text result) (talking self.new)) }
    {
        let Some(search) = self.searching.take() else {
            return self.hear_alone(rt, alloc, run, item);
        };
        match item {
            Item::Accepted => self.go_on(rt, alloc, run, search),
            Item::Interrupt => self.end_search(rt, alloc, run, search),
            Item::Again => {
                self.searching = Some(search);
                Response::Asks
            }
            Item::Packet(_) | Item::Spoilt => {
                self.searching = Some(search);
                self.hear_alone(rt, alloc, run, item)
            }
        }
    }

    /// Lets a search go on for some rounds: it comes to where the run stands then, or asks for an acknowledgement where nothing is told.
    fn go_on<R: Threads + Wait + Sync>(
        &mut self,
        rt: &R,
        alloc: Global,
        run: &mut Debugged,
        search: Search,
    ) -> Response
        requires ready { IsReady run.old self.old.session.standing }
        requires search { IsUnderWay run.old (state_of self.old.session) search }
        ensures stays { run.new ≡ run.old }
        ensures ready { IsReady run.old self.new.session.standing }
        ensures search { IfSome self.new.searching (λ x.
            IsUnderWay run.old (state_of self.new.session) x) }
        ensures goes { OfRun run.old (λ r. TakesUp r (state_of self.old.session)
            (request_for search.reach.way) (response_text result) (talking self.new)) }
    {
        self.searching = None;
        self.last = Some(request_for(search.reach.way));
        match search.go_on(rt, run, &self.session) {
            Ok(Searched::Stands(standing)) => self.stand(rt, alloc, run, standing),
            Ok(Searched::GoesOn(further)) => {
                self.searching = Some(further);
                Response::Asks
            }
            Err(OutOfMemory) => Response::Refused,
        }
    }

    /// Ends the search that is under way where it has come to.
    fn end_search<R: Threads + Wait + Sync>(
        &mut self,
        rt: &R,
        alloc: Global,
        run: &mut Debugged,
        search: Search,
    ) -> Response
        requires ready { IsReady run.old self.old.session.standing }
        requires search { IsUnderWay run.old (state_of self.old.session) search }
        ensures stays { run.new ≡ run.old }
        ensures ready { IsReady run.old self.new.session.standing }
        ensures search { IfSome self.new.searching (λ x.
            IsUnderWay run.old (state_of self.new.session) x) }
        ensures ends { OfRun run.old (λ r. IsInterrupted r (talking self.old) search
            (response_text result) (talking self.new)) }
    {
        let standing = search.interrupted(run, self.session.standing);
        drop(search);
        self.searching = None;
        self.stand(rt, alloc, run, standing)
    }

    /// Where the run stands now; or that this found no memory, and it stays where it stood.
    fn stand<R: Threads + Wait + Sync>(
        &mut self,
        rt: &R,
        alloc: Global,
        run: &mut Debugged,
        standing: Standing,
    ) -> Response
        requires ready { IsReady run.old self.old.session.standing }
        requires there { IsReady run.old standing }
        ensures stays { run.new ≡ run.old }
        ensures ready { IsReady run.old self.new.session.standing }
        ensures same { self.new ≡ record self.old { session = self.new.session } }
        ensures stands { OfRun run.old (λ r. StandsOrLost r (state_of self.old.session) standing
            (response_text result) (state_of self.new.session)) }
    {
        match say_stop(rt, alloc, run, standing) {
            Ok(text) => {
                self.session.standing = standing;
                Response::Packets(text)
            }
            Err(OutOfMemory) => Response::Refused,
        }
    }

    /// Hears what isn't about a search that is under way.
    fn hear_alone<R: Threads + Wait + Sync>(
        &mut self,
        rt: &R,
        alloc: Global,
        run: &mut Debugged,
        item: &Item,
    ) -> Response
        requires ready { IsReady run.old self.old.session.standing }
        requires search { IfSome self.old.searching (λ x.
            IsUnderWay run.old (state_of self.old.session) x) }
        ensures stays { run.new ≡ run.old }
        ensures ready { IsReady run.old self.new.session.standing }
        ensures search { IfSome self.new.searching (λ x.
            IsUnderWay run.old (state_of self.new.session) x) }
        ensures hears { OfRun run.old (λ r. HearsBy r (talking self.old)
            (asked_by (told_in item.now) self.old.last) (response_text result) (talking self.new)) }
    {
        match asked_by(item, self.last) {
            Some(request) => self.take_up(rt, alloc, run, request),
            None => Response::Nothing,
        }
    }

    /// Replies to a request, or begins the search for its answer.
    fn take_up<R: Threads + Wait + Sync>(
        &mut self,
        rt: &R,
        alloc: Global,
        run: &mut Debugged,
        request: Request,
    ) -> Response
        requires ready { IsReady run.old self.old.session.standing }
        ensures stays { run.new ≡ run.old }
        ensures ready { IsReady run.old self.new.session.standing }
        ensures search { IfSome self.new.searching (λ x.
            IsUnderWay run.old (state_of self.new.session) x) }
        ensures takes { OfRun run.old (λ r. TakesUp r (state_of self.old.session) request
            (response_text result) (talking self.new)) }
    {
        match request {
            Request::Continue => self.go(rt, alloc, run, Way::On),
            Request::ContinueBack => self.go(rt, alloc, run, Way::Back),
            _ => {
                self.searching = None;
                self.last = Some(request);
                reply(rt, alloc, run, &mut self.session, request)
            }
        }
    }

    /// Begins a search, and lets it go on for some rounds.
    fn go<R: Threads + Wait + Sync>(
        &mut self,
        rt: &R,
        alloc: Global,
        run: &mut Debugged,
        way: Way,
    ) -> Response
        requires ready { IsReady run.old self.old.session.standing }
        ensures stays { run.new ≡ run.old }
        ensures ready { IsReady run.old self.new.session.standing }
        ensures search { IfSome self.new.searching (λ x.
            IsUnderWay run.old (state_of self.new.session) x) }
        ensures goes { OfRun run.old (λ r. TakesUp r (state_of self.old.session)
            (request_for way) (response_text result) (talking self.new)) }
    {
        match Search::new(alloc, run, &self.session, way) {
            Ok(search) => self.go_on(rt, alloc, run, search),
            Err(OutOfMemory) => {
                self.searching = None;
                self.last = Some(request_for(way));
                Response::Refused
            }
        }
    }

    /// Whether the debugger has left, where this is what it said last.
    pub(crate) fn has_ended(&self, item: &Item) -> bool
        ensures { result ≡ ends (told_in item.now) (talking self.now).last }
    {
        has_left(item, self.last)
    }
}

/// The reply to a request, but for one that the run is to end, or that it found no memory.
fn reply<R: Threads + Wait + Sync>(
    rt: &R,
    alloc: Global,
    run: &mut Debugged,
    session: &mut Session,
    request: Request,
) -> Response
    requires ready { IsReady run.old session.old.standing }
    ensures stays { run.new ≡ run.old }
    ensures ready { IsReady run.old session.new.standing }
    ensures replies { OfRun run.old (λ r. RepliesTo r (state_of session.old) request
        (response_text result) (state_of session.new)) }
{
    match request {
        Request::Kill => Response::Nothing,
        _ => match answer(rt, alloc, run, session, request) {
            Ok(text) => Response::Packets(text),
            Err(OutOfMemory) => Response::Refused,
        },
    }
}

/// The request by which a run goes one way.
fn request_for(way: Way) -> Request
    ensures { result ≡ request_for way }
{
    match way {
        Way::On => Request::Continue,
        Way::Back => Request::ContinueBack,
    }
}
