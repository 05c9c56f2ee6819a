ghost use Rattle.std.specs.Prelude.{◌≡◌};
ghost use Rattle.gdb_talk.specs.Stops.{no_stops, stopping};
ghost use Rattle.execution_session.specs.Sessions.{moved, opening_standing, stays};

use execution_moments::{TimePoint, TimeSide};
use gdb_replies::Reason;
use gdb_talk::Stops;
use std::alloc::Global;

/// Where a debugger's session stands, and of which harts it speaks.
#[derive(Clone, Copy)]
pub struct Standing {
    /// Where: what is told before this point is told on the way back, and what is told behind it on the way on.
    pub point: TimePoint,
    /// Why the execution stands there.
    pub reason: Reason,
    /// The hart that the reason speaks of.
    pub told: u8,
    /// The hart of which registers and memory are asked.
    pub general: u8,
    /// The hart that is to step back alone; where there is none, the others go back with it.
    pub moving: Option<u8>,
}

/// A debugger's session.
#[derive(Drop)]
pub struct Session {
    pub standing: Standing,
    /// Its breakpoints and watchpoints.
    pub stops: Stops,
}

impl Session {
    /// It stands at the first moment, and there are no breakpoints and watchpoints.
    pub fn new(alloc: Global) -> Session
        ensures standing { result.standing ≡ opening_standing }
        ensures stops { stopping result.stops ≡ no_stops }
    {
        Session {
            standing: Standing {
                point: TimePoint {
                    time: 0,
                    side: TimeSide::Break,
                },
                reason: Reason::Step,
                told: 0,
                general: 0,
                moving: None,
            },
            stops: Stops::new(alloc),
        }
    }
}

impl Standing {
    /// It stands at another point.
    pub(crate) fn moved(self, point: TimePoint, reason: Reason, hart: u8) -> Standing
        ensures { result ≡ moved self point reason hart }
    {
        Standing {
            point,
            reason,
            told: hart,
            general: hart,
            moving: self.moving,
        }
    }

    /// It stands where it stood.
    pub(crate) fn stays(self, reason: Reason, hart: u8) -> Standing
        ensures { result ≡ stays self reason hart }
    {
        self.moved(self.point, reason, hart)
    }
}
