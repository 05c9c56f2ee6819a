ghost use Rattle.std.specs.Prelude.{◌≡◌, ◌+◌, ◌≤◌, [], Bool, length, OnOk};
ghost use Rattle.hart_step.specs.Room.{HasSpares};
ghost use Rattle.serial_phase.specs.Roomed.{HasRoom};
ghost use Rattle.guest_rounds.specs.HartEnds.{AreFit, AreReady, HasPlaces, KeepsPages, count_copied, count_logged};

use crate::ready::make_ready;
use hart_rounds::HartEnd;
use pages::{OutOfMemory, Pages};
use serial_phase::SharedState;
use trace::Trace;

/// Asks for all that the commit and the serial turns of a round may need, so that nothing is refused after
/// them: the pages, the spare pages, and room in the output and the log.
pub fn make_turn_room(
    shared: &mut SharedState,
    ends: &[HartEnd],
    turns: u32,
) -> Result<(), OutOfMemory>
    requires { AreFit shared.old.pages.memory ends.now }
    ensures keeps { KeepsPages shared.old.pages shared.new.pages }
    ensures code { shared.new.code ≡ shared.old.code }
    ensures reservations { shared.new.reservations ≡ shared.old.reservations }
    ensures console { shared.new.console.console ≡ shared.old.console.console }
    ensures ready { OnOk result (AreReady shared.new.pages ends.now) }
    ensures spares { OnOk result (HasSpares turns shared.new.pages) }
    ensures output { OnOk result (HasRoom turns shared.new.console) }
    ensures log_room { OnOk result (turns ≤ shared.new.log.room) }
    ensures closed { OnOk result (shared.new.log.closed ≡ []) }
    ensures current { OnOk result (shared.new.log.current ≡ []) }
{
    make_ready(&mut shared.pages, ends)?;
    make_spares(&mut shared.pages, ends, turns)?;
    shared.console.reserve(turns as usize)?;
    shared.log.clear();
    shared.log.reserve(turns as usize)
}

/// Has as many spare pages; what is ready stays ready.
fn make_spares(pages: &mut Pages, ends: &[HartEnd], spare: u32) -> Result<(), OutOfMemory>
    requires { AreReady pages.old ends.now }
    ensures keeps { KeepsPages pages.old pages.new }
    ensures ready { AreReady pages.new ends.now }
    ensures spares { OnOk result (HasSpares spare pages.new) }
{
    let _ends = ends;
    let alloc = pages.allocator();
    pages.prepare(alloc, &[], spare)
}

/// Has room in the trace for the logs of the harts, or for their accesses as events, and for the events of so many turns.
pub(crate) fn make_places(
    trace: &mut Trace,
    ends: &[HartEnd],
    accesses: usize,
    turns: usize,
    adopts: bool,
) -> Result<(), OutOfMemory>
    requires accesses { accesses ≡ count_logged ends.now }
    ensures trace { trace.new.events ≡ trace.old.events }
    ensures opening { trace.new.opening ≡ trace.old.opening }
    ensures places { OnOk result (HasPlaces adopts ends.now trace.new) }
    ensures events { OnOk result (count_copied adopts ends.now + turns ≤ trace.new.room) }
{
    if adopts {
        trace.reserve_logs(ends.len(), accesses)?;
        return trace.reserve(turns);
    }
    match accesses.checked_add(turns) {
        Some(events) => trace.reserve(events),
        None => Err(OutOfMemory),
    }
}
