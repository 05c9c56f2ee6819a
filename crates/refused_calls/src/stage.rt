//! How far a run of the guest is, and what then stands. Nothing here asks for memory.

use crate::guest::GUEST;
use hart_step::{Hart, Stop};
use machine::{Machine, Trace, UntracedMachine};
use pages::Width;
use round_schedule::{Access, Event, Phase};
use rv64_decode::{FenceMode, FenceSet};

/// The bytes of guest memory.
const MEMORY: u64 = 4096;

/// How many rounds of the guest were done.
#[derive(Clone, Copy, PartialEq, Eq)]
pub(crate) enum Stage {
    /// None.
    Opening,
    /// One: both harts have stored and are behind the fence.
    Fenced,
    /// Two: both harts have loaded and are stopped.
    Ended,
}

impl Stage {
    /// The stage of a machine, if it is at one in all that it shows.
    pub(crate) fn of(machine: &Machine) -> Option<Stage> {
        [Stage::Opening, Stage::Fenced, Stage::Ended]
            .into_iter()
            .find(|stage| stage.is_of(machine))
    }

    /// Whether a machine is at this stage in all that it shows.
    pub(crate) fn is_of(self, machine: &Machine) -> bool {
        self.has_harts(machine.harts())
            && self.has_bytes(|address| machine.byte(address))
            && machine.output().is_empty()
            && self.has_events(machine.trace())
    }

    /// Whether a machine without a trace is at this stage in all that it shows.
    pub(crate) fn is_of_untraced(self, machine: &UntracedMachine) -> bool {
        self.has_harts(machine.harts())
            && self.has_bytes(|address| machine.byte(address))
            && machine.output().is_empty()
            && machine.events() == self.events() as u64
            && machine.rounds() == self.rounds()
    }

    /// How many rounds were done.
    pub(crate) fn rounds(self) -> u32 {
        match self {
            Stage::Opening => 0,
            Stage::Fenced => 1,
            Stage::Ended => 2,
        }
    }

    /// Hart 0 or 1.
    pub(crate) fn hart(self, number: u8) -> Hart {
        let number = u64::from(number);
        let mut x = [0; 32];
        x[10] = number;
        x[11] = 2;
        let (pc, done, stop) = match self {
            Stage::Opening => (0, 0, None),
            Stage::Fenced => (0x14, 5, None),
            Stage::Ended => (0x18, 6, Some(Stop { code: 3, value: 0 })),
        };
        if self != Stage::Opening {
            x[5] = 8 * number;
            x[6] = 8 * number ^ 8;
            x[7] = 1;
        }
        if self == Stage::Ended {
            x[28] = 1;
        }
        Hart { x, pc, stop, done }
    }

    /// Whether these are the harts.
    pub(crate) fn has_harts(self, harts: &[Hart]) -> bool {
        harts == [self.hart(0), self.hart(1)].as_slice()
    }

    /// The byte at an address of guest memory.
    fn byte(self, address: u64) -> u8 {
        match GUEST.get(address as usize) {
            Some(byte) => *byte,
            None if self != Stage::Opening && (address == 0x100 || address == 0x108) => 1,
            None => 0,
        }
    }

    /// Whether these are the bytes of guest memory, and there are no more.
    fn has_bytes<F: Fn(u64) -> Option<u8> + Drop>(self, byte: F) -> bool
        requires { F.IsAlwaysCallable byte }
    {
        (0..MEMORY).all(|address| byte(address) == Some(self.byte(address)))
            && byte(MEMORY).is_none()
    }

    /// How many events the trace has.
    pub(crate) fn events(self) -> usize {
        match self {
            Stage::Opening => 0,
            Stage::Fenced => 4,
            Stage::Ended => 6,
        }
    }

    /// Whether these are the events of a trace, over the bytes of the guest.
    pub(crate) fn has_events(self, trace: &Trace) -> bool {
        let events = events();
        trace.len() == self.events()
            && trace
                .events()
                .zip(events)
                .all(|(event, wanted)| event == wanted)
            && (0..MEMORY).all(|address| trace.opening_byte(address)
                == Stage::Opening.byte(address))
    }
}

/// The events of the two rounds.
pub(crate) fn events() -> [Event; 6] {
    [
        stored(0, 0x100),
        stored(1, 0x108),
        fenced(0),
        fenced(1),
        loaded(0, 0x108),
        loaded(1, 0x100),
    ]
}

/// The store of a hart, in the parallel phase of round 1.
fn stored(hart: u8, address: u64) -> Event {
    Event {
        access: Access::Store {
            width: Width::W8,
            place: 3,
            address,
            written: 1,
        },
        round: 1,
        hart,
        phase: Phase::Parallel,
    }
}

/// The fence of a hart, in the serial phase of round 1.
fn fenced(hart: u8) -> Event {
    let both = FenceSet {
        reads: true,
        writes: true,
    };
    Event {
        access: Access::Fence {
            before: both,
            after: both,
            mode: FenceMode::Normal,
            place: 4,
        },
        round: 1,
        hart,
        phase: Phase::Serial,
    }
}

/// The load of a hart, in the parallel phase of round 2.
fn loaded(hart: u8, address: u64) -> Event {
    Event {
        access: Access::Load {
            width: Width::W8,
            place: 5,
            address,
            read: 1,
        },
        round: 2,
        hart,
        phase: Phase::Parallel,
    }
}
