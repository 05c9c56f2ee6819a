ghost use Rattle.std.specs.Prelude.{◌≡◌, ℕ, ◌+◌, ◌≤◌, ◌++◌, Bool, true, false, List, [], length, IfOk};
ghost use Rattle.round_schedule.specs.declared.event.Event.{Event as Happened};
ghost use Rattle.trace.specs.Traced.{IsTrace, Laid};
ghost use Rattle.hart_rounds.specs.Starts.{keeps_log};
ghost use Rattle.hart_rounds.specs.declared.hart_end.HartEnd.{HartEnd as Left};
ghost use Rattle.guest_rounds.specs.Keepers.{never};
ghost use Rattle.guest_rounds.specs.HartEnds.{HasPlaces, count_copied, count_logged, harts_of, round_events};
ghost use Rattle.serial_phase.specs.Turns.{count_log};

use crate::events::{add_parallel, add_serial};
use crate::room::make_places;
use crate::tally::Tally;
use hart_rounds::{HartEnd, LogForm};
use pages::OutOfMemory;
use round_schedule::MOST_HARTS;
use serial_phase::SerialLog;
use trace::Trace;

/// What becomes of the events of rounds: a trace keeps them, and `NoTrace` lets them go.
// docs/decisions/storage.md
pub trait EventKeeper {
    // Whether it takes the accesses of the harts, and not just their number.
    ghost logs: { Bool };

    // Its events are these, where it keeps any.
    ghost keeps: { Self → List Happened → Type 0 };

    // The bytes that memory opened with, where it keeps events.
    ghost opens_with: { Self → List Laid };

    // It may keep these events.
    ghost may_keep: { List Happened → Type 0 };

    // It has room for the events of what the harts left, handed over or copied, and of turns of so many instructions.
    ghost has_room: { Self → Bool → List Left → ℕ → Type 0 };

    /// What is to become of the accesses of a round's harts.
    fn log_form(&self) -> LogForm
        ensures { keeps_log result ≡ logs };

    /// Asks for the room that the events of a round may need. Answers whether the logs of the harts are to be handed over.
    fn make_room(
        &mut self,
        ends: &mut [HartEnd],
        tally: Tally,
        turns: u32,
    ) -> Result<bool, OutOfMemory>
        requires { logs ≡ true → tally.accesses ≡ count_logged ends.old }
        ensures kept { (es : List Happened) → keeps self.old es → keeps self.new es }
        ensures opening { opens_with self.new ≡ opens_with self.old }
        ensures ends { ends.new ≡ ends.old }
        ensures room { IfOk result (λ adopts. has_room self.new adopts ends.new turns) };

    /// Adds the events of a round, for which room was made. It takes no memory.
    fn add(&mut self, round: u32, ends: &mut [HartEnd], log: &SerialLog, adopts: bool)
        requires harts { length log.now.closed ≡ length ends.old }
        requires few { length ends.old ≤ MOST_HARTS }
        requires room { (turns : ℕ) × has_room self.old adopts ends.old turns ×
            (count_log log.now.closed ≤ turns) }
        requires sound { (es : List Happened) × keeps self.old es ×
            may_keep (es ++ round_events round ends.old log.now.closed) }
        ensures kept { (es : List Happened) → keeps self.old es →
            keeps self.new (es ++ round_events round ends.old log.now.closed) }
        ensures opening { opens_with self.new ≡ opens_with self.old }
        ensures harts { harts_of ends.new ≡ harts_of ends.old };

    // Who takes no accesses keeps any events as well as any others.
    ghost keeps_any: { logs ≡ false → (k : Self) (es fs : List Happened) → keeps k es →
        keeps k fs };

    ghost may_keep_any: { logs ≡ false → (es fs : List Happened) → may_keep es → may_keep fs };
}

impl EventKeeper for Trace {
    ghost logs = { true };

    ghost keeps = { λ t es. t.events ≡ es };

    ghost opens_with = { λ t. t.opening };

    ghost may_keep = { IsTrace };

    ghost has_room = { λ t adopts os turns. HasPlaces adopts os t ×
        (count_copied adopts os + turns ≤ t.room) };

    fn log_form(&self) -> LogForm {
        LogForm::InBrief
    }

    fn make_room(
        &mut self,
        ends: &mut [HartEnd],
        tally: Tally,
        turns: u32,
    ) -> Result<bool, OutOfMemory> {
        let adopts = tally.is_long();
        if adopts {
            share_logs(ends)?;
        }
        let accesses = tally.accesses as usize;
        make_places(self, ends, accesses, turns as usize, adopts)?;
        Ok(adopts)
    }

    fn add(&mut self, round: u32, ends: &mut [HartEnd], log: &SerialLog, adopts: bool) {
        let count = ends.len() as u32;
        add_parallel(self, round, ends, adopts);
        add_serial(self, round, 0, count, log);
    }

    ghost keeps_any = { λ e k es fs kept. never e };

    ghost may_keep_any = { λ e es fs may. never e };
}

/// Puts the logs of a long round into the form that copies of a trace share.
fn share_logs(ends: &mut [HartEnd]) -> Result<(), OutOfMemory>
    ensures { ends.new ≡ ends.old }
{
    for number in 0..ends.len() {
        ends[number].log.share()?;
    }
    Ok(())
}

/// No trace is kept.
#[derive(Drop)]
pub struct NoTrace;

impl EventKeeper for NoTrace {
    ghost logs = { false };

    ghost keeps = { λ _ _. Unit {0} };

    ghost opens_with = { λ _. [] };

    ghost may_keep = { λ _. Unit {0} };

    ghost has_room = { λ _ _ _ _. Unit {0} };

    fn log_form(&self) -> LogForm {
        LogForm::Counted
    }

    fn make_room(
        &mut self,
        _ends: &mut [HartEnd],
        _tally: Tally,
        _turns: u32,
    ) -> Result<bool, OutOfMemory> {
        Ok(false)
    }

    fn add(&mut self, _round: u32, _ends: &mut [HartEnd], _log: &SerialLog, _adopts: bool) {}

    ghost keeps_any = { λ e k es fs kept. kept };

    ghost may_keep_any = { λ e es fs may. may };
}
