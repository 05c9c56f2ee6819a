ghost use Rattle.std.specs.Prelude.{◌≡◌};
ghost use Rattle.hart_step.specs.DecodedCode.{Shows};

use crate::console::Console;
use crate::log::SerialLog;
use hart_step::DecodedCode;
use pages::Pages;
use round_schedule::Reservations;

/// What the harts share in the serial phase of a round.
pub struct SharedState {
    /// Guest memory.
    pub pages: Pages,
    /// The words of its code, decoded.
    pub code: DecodedCode,
    // They are memory's, and stay so: no store touches code.
    pub ghost shows: { Shows pages.memory code.first code.instructions },
    /// The reservation of each hart.
    pub reservations: Reservations,
    /// The input and the output.
    pub console: Console,
    /// The accesses of the turns of this round.
    pub log: SerialLog,
}

// By hand, so that a proof has one step for it wherever one is dropped, in this crate and above.
impl Drop for SharedState {
    fn drop(self) {
        let SharedState {
            pages,
            code,
            reservations,
            console,
            log,
        } = self;
        drop(pages);
        drop(code);
        drop(reservations);
        drop(console);
        drop(log);
    }
}

impl SharedState {
    /// Memory and its decoded words alone. The others are dropped.
    pub fn into_memory(self) -> (Pages, DecodedCode)
        ensures pages { result.0 ≡ self.pages }
        ensures code { result.1 ≡ self.code }
        ensures shows { Shows result.0.memory result.1.first result.1.instructions }
    {
        let SharedState {
            pages,
            code,
            reservations,
            console,
            log,
        } = self;
        drop(reservations);
        drop(console);
        drop(log);
        (pages, code)
    }
}

/// Which round it is, who waits, and how much each turn may do.
#[derive(Clone, Copy)]
pub struct SerialRound {
    /// The number of the round, from 1 on.
    pub round: u32,
    /// Bit h says that hart h waits.
    pub waiting: u64,
    /// How many instructions the turn of each waiting hart may do.
    // docs/decisions/serial-budget.md
    pub budget: u32,
}

/// Whose turn it is.
#[derive(Clone, Copy)]
pub struct Turn {
    /// The number of the hart.
    pub hart: u32,
    /// The number of the round, from 1 on.
    pub round: u32,
    /// How many instructions the turn may do.
    pub budget: u32,
}
