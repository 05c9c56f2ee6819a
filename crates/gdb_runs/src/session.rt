ghost use Rattle.std.specs.Prelude.{◌≡◌, None, false};
ghost use Rattle.gdb_replies.specs.declared.stop_reply.Reason.TheVariants.{Step};
ghost use Rattle.gdb_talk.specs.Stops.{no_stops, stopping};
ghost use Rattle.gdb_runs.specs.Standings.{at_goal, moved, stays};
ghost use Rattle.gdb_runs.specs.Sessions.{start_of};

use gdb_replies::Reason;
use gdb_talk::Stops;
use past_harts::{Moment, Place, Point, Side};
use round_schedule::Phase;
use std::alloc::Global;

/// gdb's number of the signal that is none.
const NO_SIGNAL: u8 = 0;

/// Where a debugger's session stands, and of which harts it speaks.
#[derive(Clone, Copy)]
pub struct Standing {
    /// Where in the run: what is told before this point is told on the way back, and what is told behind it on the way on.
    pub point: Point,
    /// Why the run stands there.
    pub reason: Reason,
    /// The hart that the reason speaks of.
    pub told: u32,
    /// The hart of which registers and memory are asked.
    pub general: u32,
    /// The hart that is to step back alone; where there is none, the others go back with it.
    pub moving: Option<u32>,
    /// Where a run is to stop once that goes on or back until something is told.
    pub goal: Option<Point>,
    /// Whether a stop at a watchpoint tells the access.
    pub hits: bool,
}

/// A debugger's session.
#[derive(Drop)]
pub struct Session {
    pub standing: Standing,
    /// Its breakpoints and watchpoints.
    pub stops: Stops,
}

impl Session {
    /// It stands at the first moment, and there are no breakpoints and watchpoints.
    pub fn new(alloc: Global) -> Session
        ensures standing { result.standing ≡ record {
          point = start_of 0;
          reason = Step;
          told = 0;
          general = 0;
          moving = None;
          goal = None;
          hits = false;
        } }
        ensures stops { stopping result.stops ≡ no_stops }
    {
        Session {
            standing: Standing {
                point: start_of(0),
                reason: Reason::Step,
                told: 0,
                general: 0,
                moving: None,
                goal: None,
                hits: false,
            },
            stops: Stops::new(alloc),
        }
    }
}

impl Standing {
    /// It stands at another point, for a reason, which speaks of a hart.
    pub fn moved(self, point: Point, reason: Reason, hart: u32) -> Standing
        ensures { result ≡ moved self point reason hart }
    {
        Standing {
            point,
            reason,
            told: hart,
            general: hart,
            moving: self.moving,
            goal: self.goal,
            hits: self.hits,
        }
    }

    /// It stands where it was to stop once.
    pub fn at_goal(self, goal: Point) -> Standing
        ensures { result ≡ at_goal self goal }
    {
        Standing {
            goal: None,
            ..self.moved(goal, Reason::Signal(NO_SIGNAL), goal.moment.place.hart)
        }
    }

    /// It stands where it stood, for a reason, which speaks of a hart.
    pub fn stays(self, reason: Reason, hart: u32) -> Standing
        ensures { result ≡ stays self reason hart }
    {
        self.moved(self.point, reason, hart)
    }
}

/// The moment after so many rounds.
pub fn start_of(rounds: u32) -> Point
    ensures { result ≡ start_of rounds }
{
    Point {
        moment: Moment {
            rounds,
            place: Place {
                phase: Phase::Parallel,
                hart: 0,
                count: 0,
            },
        },
        side: Side::Break,
    }
}
