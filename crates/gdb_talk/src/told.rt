ghost use Rattle.std.specs.Prelude.{◌≡◌, ◌+◌, ◌<◌, ◌^◌, IfSome, slice_get};
ghost use Rattle.gdb_replies.specs.Replies.{payload_of};
ghost use Rattle.gdb_replies.specs.Words.{numbers_of};
ghost use Rattle.gdb_talk.specs.Told.{done_if, hart_of_thread, is_stopped, named, note_of, reason_of, registers_of, signal_of, stop_reply_of, told_stop, watch_reason, why};

use gdb_replies::{Reason, Registers, Reply, StopReply, ThreadNote};
use hart_step::{Hart, Stop};
use past_harts::{Moment, phase_number};
use watching::{WatchKind, Watchpoint};

/// The numbers that a hart is shown with at a moment.
pub fn registers_of(hart: &Hart, moment: Moment) -> Registers
    ensures { result ≡ registers_of hart.now moment }
{
    let mut x = hart.x;
    x[0] = 0;
    Registers {
        x,
        pc: hart.pc,
        round: u64::from(moment.rounds) + 1,
        place: hart.done,
        phase: u64::from(phase_number(moment.place.phase)),
    }
}

/// A register by its number.
pub fn register_of(registers: &Registers, number: u64) -> Option<u64>
    ensures { result ≡ slice_get (numbers_of registers.now) number }
{
    if number < 32 {
        return Some(registers.x[number as usize]);
    }
    match number {
        32 => Some(registers.pc),
        33 => Some(registers.round),
        34 => Some(registers.place),
        35 => Some(registers.phase),
        _ => None,
    }
}

/// The hart of a thread; none where there is no such hart.
pub fn hart_of_thread(harts: u32, thread: u64) -> Option<u32>
    ensures hart { result ≡ hart_of_thread harts thread }
    ensures few { IfSome result (λ hart. hart < harts) }
{
    if thread == 0 || u64::from(harts) < thread {
        return None;
    }
    let hart = (thread - 1) as u32;
    Some(hart)
}

/// That something is done, or that there is no such thing.
pub fn done_if(done: bool) -> Reply<'static>
    ensures { payload_of result ≡ done_if done }
{
    if done { Reply::Done } else { Reply::Missing }
}

/// What is said of hart `number` at a moment, before the last round that there can be, by the hart alone: not whether it waits, and
/// nothing of its stores.
pub fn note_of(number: u32, hart: &Hart, moment: Moment) -> ThreadNote
    requires { moment.rounds + 1 < 2 ^ 32 }
    ensures { result ≡ note_of number hart.now moment }
{
    ThreadNote {
        hart: number,
        round: moment.rounds + 1,
        phase: moment.place.phase,
        place: hart.done,
        waits: false,
        uncommitted: 0,
        stop: told_stop(hart.stop),
    }
}

/// The code and the value of a stop.
fn told_stop(stop: Option<Stop>) -> Option<(u8, u64)>
    ensures { result ≡ told_stop stop }
{
    match stop {
        Some(stop) => Some((stop.code, stop.value)),
        None => None,
    }
}

/// Whether a hart has stopped, or isn't there.
pub fn is_stopped(hart: Option<Hart>) -> bool
    ensures { result ≡ is_stopped hart }
{
    match hart {
        Some(hart) => hart.stop.is_some(),
        None => true,
    }
}

/// Why one stands at a hart, where there are software and hardware breakpoints at these addresses.
fn reason_of(software: &[u64], hardware: &[u64], hart: &Hart) -> Reason
    ensures { result ≡ reason_of software.now hardware.now hart.now }
{
    if let Some(stop) = hart.stop
        && stop.code != 1
    {
        return Reason::Signal(signal_of(stop.code));
    }
    if software.contains(&hart.pc) {
        Reason::Breakpoint
    } else if hardware.contains(&hart.pc) {
        Reason::HardwareBreakpoint
    } else {
        Reason::Step
    }
}

/// The word for a watchpoint in a list.
pub(crate) fn named(watches: &[Watchpoint], index: usize) -> Reason
    ensures { result ≡ named (slice_get watches.now index) }
{
    match watches.get(index) {
        Some(watch) => watch_reason(watch.kind, watch.range.start),
        None => Reason::Step,
    }
}

/// The word for a watchpoint at an address.
fn watch_reason(kind: WatchKind, address: u64) -> Reason
    ensures { result ≡ watch_reason kind address }
{
    match kind {
        WatchKind::Changes => Reason::Watch(address),
        WatchKind::Reads => Reason::ReadWatch(address),
        WatchKind::Accesses => Reason::AccessWatch(address),
    }
}

/// Why one stands where there is this hart, or none, with breakpoints at these addresses.
pub fn why(software: &[u64], hardware: &[u64], hart: Option<Hart>) -> Reason
    ensures { result ≡ why software.now hardware.now hart }
{
    match hart {
        Some(hart) => reason_of(software, hardware, &hart),
        None => Reason::Step,
    }
}

/// gdb's number of the signal that a fault is.
fn signal_of(code: u8) -> u8
    ensures { result ≡ signal_of code }
{
    match code {
        2 => 4,
        4 | 5 | 7 => 10,
        10 => 5,
        _ => 11,
    }
}

/// That hart `number` stands there for a reason. Its thread's number is one more.
pub fn stop_reply_of(reason: Reason, number: u32, hart: &Hart) -> StopReply
    requires { number + 1 < 2 ^ 32 }
    ensures { result ≡ stop_reply_of reason number hart.now }
{
    StopReply {
        reason,
        thread: number + 1,
        pc: hart.pc,
        sp: hart.x[2],
        fp: hart.x[8],
    }
}
