ghost use Rattle.std.specs.Prelude.{◌≡◌, ◌≤◌, [], replicate, None};
ghost use Rattle.hart_step.specs.DecodedCode.{Shows};
ghost use Rattle.serial_phase.specs.Opening.{opening_console};

use crate::console::Console;
use crate::log::SerialLog;
use crate::shared::SharedState;
use hart_step::DecodedCode;
use pages::Pages;
use round_schedule::{MOST_HARTS, Reservations};
use std::alloc::Global;

impl SharedState {
    /// What so many harts share before their first instruction: memory and its decoded words, no reservation, an input of which
    /// nothing was taken, no output, and a log without a turn.
    pub fn open(
        alloc: Global,
        pages: Pages,
        code: DecodedCode,
        input: Vec<u8>,
        harts: u32,
    ) -> SharedState
        requires shows { Shows pages.memory code.first code.instructions }
        requires few { harts ≤ MOST_HARTS }
        ensures pages { result.pages ≡ pages }
        ensures code { result.code ≡ code }
        ensures reservations { result.reservations ≡ replicate harts None }
        ensures console { result.console.console ≡ opening_console input.items }
        ensures closed { result.log.closed ≡ [] }
        ensures current { result.log.current ≡ [] }
    {
        SharedState {
            pages,
            code,
            reservations: Reservations::new(harts),
            console: Console::new(alloc, input),
            log: SerialLog::new(alloc),
        }
    }
}
