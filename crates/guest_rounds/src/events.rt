ghost use Rattle.std.specs.Prelude.{◌≡◌, ◌+◌, ◌^◌, ◌<◌, ◌≤◌, ◌++◌, length, drop, true, if◌then◌else◌};
ghost use Rattle.round_schedule.specs.declared.event.Phase.TheVariants.{Parallel, Serial};
ghost use Rattle.round_schedule.specs.ReservingTurn.{log_events};
ghost use Rattle.round_schedule.specs.Events.{events_of};
ghost use Rattle.trace.specs.Traced.{IsTrace};
ghost use Rattle.guest_rounds.specs.HartEnds.{HasPlaces, count_copied, harts_of, events_of_ends};
ghost use Rattle.serial_phase.specs.Turns.{count_log};

use hart_rounds::HartEnd;
use hart_step::Access;
use round_schedule::{MOST_HARTS, Phase};
use serial_phase::SerialLog;
use trace::{Log, Trace};

/// Adds the events of the parallel phase, hart by hart. Where the trace adopts the harts' logs, they are handed over as they are.
pub(crate) fn add_parallel(trace: &mut Trace, round: u32, ends: &mut [HartEnd], adopts: bool)
    requires few { length ends.old ≤ MOST_HARTS }
    requires places { HasPlaces adopts ends.old trace.old }
    requires sound { IsTrace (trace.old.events ++ events_of_ends round 0 ends.old) }
    ensures events { trace.new.events ≡ trace.old.events ++ events_of_ends round 0 ends.old }
    ensures opening { trace.new.opening ≡ trace.old.opening }
    ensures room { trace.old.room ≤ trace.new.room + count_copied adopts ends.old }
    ensures harts { harts_of ends.new ≡ harts_of ends.old }
{
    for number in 0..ends.len() {
        add_log(trace, round, number as u32, &mut ends[number].log, adopts);
    }
}

/// Adds the events of one hart: hands its log over, or copies its accesses.
fn add_log(trace: &mut Trace, round: u32, hart: u32, log: &mut Log, adopts: bool)
    requires hart { hart < MOST_HARTS }
    requires room { (if adopts then 0 else length log.old) ≤ trace.old.room }
    requires logs { adopts ≡ true → 0 < trace.old.logs }
    requires few { adopts ≡ true → length trace.old.events + length log.old ≤ 2 ^ 62 }
    requires sound { IsTrace (trace.old.events ++ events_of round hart Parallel log.old) }
    ensures events { trace.new.events ≡ trace.old.events ++ events_of round hart Parallel log.old }
    ensures opening { trace.new.opening ≡ trace.old.opening }
    ensures room { trace.old.room ≤ trace.new.room + (if adopts then 0 else length log.old) }
    ensures logs { adopts ≡ true → trace.old.logs ≤ trace.new.logs + 1 }
{
    if log.len() == 0 {
        return;
    }
    if adopts {
        trace.adopt(round, hart as u8, Phase::Parallel, log.take());
    } else {
        trace.copy_log(round, hart as u8, Phase::Parallel, log);
    }
}

/// Adds the events of the serial turns of harts `first`, `first` + 1, .., `left` of them.
pub(crate) fn add_serial(trace: &mut Trace, round: u32, first: u32, left: u32, log: &SerialLog)
    requires harts { first + left ≡ length log.now.closed }
    requires few { length log.now.closed ≤ MOST_HARTS }
    requires room { count_log (drop first log.now.closed) ≤ trace.old.room }
    requires sound { IsTrace (trace.old.events ++
        log_events round first (drop first log.now.closed)) }
    ensures events { trace.new.events ≡
        trace.old.events ++ log_events round first (drop first log.now.closed) }
    ensures opening { trace.new.opening ≡ trace.old.opening }
{
    if left == 0 {
        return;
    }
    add_turn(trace, round, first, log.events(first));
    add_serial(trace, round, first + 1, left - 1, log);
}

/// Adds the events of one hart's turn.
fn add_turn(trace: &mut Trace, round: u32, hart: u32, accesses: &[Access])
    requires hart { hart < MOST_HARTS }
    requires room { length accesses.now ≤ trace.old.room }
    requires sound { IsTrace (trace.old.events ++ events_of round hart Serial accesses.now) }
    ensures events { trace.new.events ≡
        trace.old.events ++ events_of round hart Serial accesses.now }
    ensures opening { trace.new.opening ≡ trace.old.opening }
    ensures room { trace.old.room ≤ trace.new.room + length accesses.now }
{
    // Most harts have no turn.
    if accesses.is_empty() {
        return;
    }
    trace.extend(round, hart as u8, Phase::Serial, accesses);
}
