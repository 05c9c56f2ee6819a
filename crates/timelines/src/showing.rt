ghost use Rattle.std.specs.Prelude.{◌≡◌, ◌+◌, ◌<◌, ◌^◌, ◌==◌, ◌&&◌, Some, IfOk, length, slice_get};
ghost use Rattle.round_planner.specs.Quotas.{quotas_of};
ghost use Rattle.round_schedule.specs.Past.{last_of};
ghost use Rattle.hart_step.specs.Words.{words_of};
ghost use Rattle.moments.specs.Sights.{part_sights};
ghost use Rattle.machine.specs.Machine.{Running, after_round};
ghost use Rattle.machine.specs.Untraced.{IsUntraced};
ghost use Rattle.past_harts.specs.Moments.{phase_number};
ghost use Rattle.timelines.specs.Shown.{behind_move, beside_part, beside_turn, end_of_part, hart_beside, mover, shown_at, shown_at_point};
ghost use Rattle.past_harts.specs.Points.{is_behind_move};

use crate::own_part::quota_of;
use crate::refused::of_memory;
use hart_step::Hart;
use machine::UntracedMachine;
use moments::Sight;
use pages::{OutOfMemory, Range};
use past_harts::{Place, Side, code_of_run, phase_number, sight_after};
use round_schedule::Phase;
use std::sync::Wait;
use std::thread::Threads;

/// What hart `number` is and sees at a place of the next round of a run; none where there is no such hart or place. Of the run there
/// is the machine without its trace, and its code. It may wait.
fn shown<R: Threads + Wait + Sync>(
    rt: &R,
    machine: &mut UntracedMachine,
    code: &[Range],
    place: &Place,
    number: u32,
) -> Result<Option<Sight>, OutOfMemory>
    requires run { (m : Running) × IsUntraced m machine.old }
    requires rounds { machine.old.rounds + 1 < 2 ^ 32 }
    ensures stays { machine.new ≡ machine.old }
    ensures sight { (m : Running) → IsUntraced m machine.old → m.code ≡ code.now →
        IfOk result (λ s. s ≡ shown_at m place.now number) }
{
    if number == place.hart {
        return mover(rt, machine, place);
    }
    if number as usize >= machine.harts().len() {
        return Ok(None);
    }
    let hart = machine.harts()[number as usize];
    match place.phase {
        Phase::Parallel => {
            let sight = beside_part(machine, code, place, number, hart)?;
            Ok(Some(sight))
        }
        Phase::Serial => beside_turn(rt, machine, code, place, number, hart),
    }
}

/// What hart `number` is and sees on a side of a place of the next round of a run; none where there is no such hart or place. It may wait.
pub fn shown_at_side<R: Threads + Wait + Sync>(
    rt: &R,
    machine: &mut UntracedMachine,
    code: &[Range],
    side: Side,
    place: &Place,
    number: u32,
) -> Result<Option<Sight>, OutOfMemory>
    requires run { (m : Running) × IsUntraced m machine.old }
    requires rounds { machine.old.rounds + 1 < 2 ^ 32 }
    ensures stays { machine.new ≡ machine.old }
    ensures sight { (m : Running) → IsUntraced m machine.old → m.code ≡ code.now →
        IfOk result (λ s. s ≡ shown_at_point m side place.now number) }
{
    if !is_its_move(side, place, number) {
        return shown(rt, machine, code, place, number);
    }
    let sight = behind_move(machine, code, place)?;
    Ok(sight)
}

/// Whether a hart has just made a move of its part of the parallel phase there.
fn is_its_move(side: Side, place: &Place, number: u32) -> bool
    ensures { result ≡ (is_behind_move side &&
        (phase_number place.now.phase == 0 && number == place.now.hart)) }
{
    side.is_behind_move() && phase_number(place.phase) == 0 && number == place.hart
}

/// The hart of a place behind its last move before it, in its part of the parallel phase.
fn behind_move(
    machine: &UntracedMachine,
    code: &[Range],
    place: &Place,
) -> Result<Option<Sight>, OutOfMemory>
    requires rounds { machine.now.rounds + 1 < 2 ^ 32 }
    ensures { IfOk result (λ s. s ≡ behind_move (record {
      harts = machine.now.harts;
      bytes = machine.now.bytes;
      code = code.now;
      quotas = quotas_of machine.now.plan machine.now.rounds;
    }) place.now (slice_get machine.now.harts place.now.hart)) }
{
    match machine.harts().get(place.hart as usize) {
        None => Ok(None),
        Some(hart) => {
            let quota = u64::from(quota_of(machine, place.hart));
            let sight = end_of(machine, code, *hart, place.count.min(quota) as u32)?;
            Ok(Some(sight))
        }
    }
}

/// A hart beside the one of a place in the parallel phase.
fn beside_part(
    machine: &UntracedMachine,
    code: &[Range],
    place: &Place,
    number: u32,
    hart: Hart,
) -> Result<Sight, OutOfMemory>
    requires rounds { machine.now.rounds + 1 < 2 ^ 32 }
    requires hart { number < length machine.now.harts }
    ensures { IfOk result (λ s. beside_part (record {
      harts = machine.now.harts;
      bytes = machine.now.bytes;
      code = code.now;
      quotas = quotas_of machine.now.plan machine.now.rounds;
    }) place.now number hart ≡ Some s) }
{
    if number < place.hart {
        return end_of_part(machine, code, number, hart);
    }
    start(machine, hart)
}

/// A hart beside the one of a place in its turn.
fn beside_turn<R: Threads + Wait + Sync>(
    rt: &R,
    machine: &mut UntracedMachine,
    code: &[Range],
    place: &Place,
    number: u32,
    hart: Hart,
) -> Result<Option<Sight>, OutOfMemory>
    requires run { (m : Running) × IsUntraced m machine.old }
    requires rounds { machine.old.rounds + 1 < 2 ^ 32 }
    requires hart { number < length machine.old.harts }
    ensures stays { machine.new ≡ machine.old }
    ensures sight { (m : Running) → IsUntraced m machine.old → m.code ≡ code.now →
        IfOk result (λ s. s ≡ beside_turn m place.now number hart) }
{
    let Some(sight) = mover(rt, machine, place)? else {
        return Ok(None);
    };
    let there = hart_beside(rt, machine, code, place, number, hart)?;
    Ok(Some(sight.with_hart(there)))
}

/// The hart alone.
fn hart_beside<R: Threads + Wait + Sync>(
    rt: &R,
    machine: &mut UntracedMachine,
    code: &[Range],
    place: &Place,
    number: u32,
    hart: Hart,
) -> Result<Hart, OutOfMemory>
    requires run { (m : Running) × IsUntraced m machine.old }
    requires rounds { machine.old.rounds + 1 < 2 ^ 32 }
    requires hart { number < length machine.old.harts }
    ensures stays { machine.new ≡ machine.old }
    ensures hart { (m : Running) → IsUntraced m machine.old → m.code ≡ code.now →
        IfOk result (λ h. hart_beside m place.now number hart ≡ Some h) }
{
    if number < place.hart {
        return after_its_turn(rt, machine, number);
    }
    let sight = end_of_part(machine, code, number, hart)?;
    Ok(sight.hart())
}

/// The hart of a place.
fn mover<R: Threads + Wait + Sync>(
    rt: &R,
    machine: &mut UntracedMachine,
    place: &Place,
) -> Result<Option<Sight>, OutOfMemory>
    requires run { (m : Running) × IsUntraced m machine.old }
    requires rounds { machine.old.rounds + 1 < 2 ^ 32 }
    ensures stays { machine.new ≡ machine.old }
    ensures sight { (m : Running) → IsUntraced m machine.old →
        IfOk result (λ s. s ≡ mover m place.now) }
{
    let copy = of_memory(machine.share())?;
    of_memory(sight_after(rt, copy, place.hart, place.count, 1))
}

/// A hart before the round.
fn start(machine: &UntracedMachine, hart: Hart) -> Result<Sight, OutOfMemory>
    ensures { IfOk result (λ s. s ≡ record { hart = hart; bytes = machine.now.bytes }) }
{
    let pages = machine.pages();
    Ok(Sight::of_memory(hart, pages.copy(pages.allocator())?))
}

/// A hart at the end of its part of the parallel phase.
fn end_of_part(
    machine: &UntracedMachine,
    code: &[Range],
    number: u32,
    hart: Hart,
) -> Result<Sight, OutOfMemory>
    requires rounds { machine.now.rounds + 1 < 2 ^ 32 }
    requires hart { number < length machine.now.harts }
    ensures { IfOk result (λ s. end_of_part (record {
      harts = machine.now.harts;
      bytes = machine.now.bytes;
      code = code.now;
      quotas = quotas_of machine.now.plan machine.now.rounds;
    }) number hart ≡ Some s) }
{
    end_of(machine, code, hart, quota_of(machine, number))
}

/// A hart at the end of a part of at most so many instructions.
fn end_of(
    machine: &UntracedMachine,
    code: &[Range],
    hart: Hart,
    most: u32,
) -> Result<Sight, OutOfMemory>
    ensures { IfOk result (λ s. last_of (part_sights (words_of code.now) most
        (record { hart = hart; bytes = machine.now.bytes })) ≡ Some s) }
{
    let pages = machine.pages();
    let decoded_code = code_of_run(pages, code, u64::MAX)?;
    Sight::after_part(pages.copy(pages.allocator())?, &decoded_code, hart, most)
}

/// A hart at the end of the round.
fn after_its_turn<R: Threads + Wait + Sync>(
    rt: &R,
    machine: &mut UntracedMachine,
    number: u32,
) -> Result<Hart, OutOfMemory>
    requires run { (m : Running) × IsUntraced m machine.old }
    requires rounds { machine.old.rounds + 1 < 2 ^ 32 }
    requires hart { number < length machine.old.harts }
    ensures stays { machine.new ≡ machine.old }
    ensures hart { (m : Running) → IsUntraced m machine.old →
        IfOk result (λ h. slice_get (after_round m).state.harts number ≡ Some h) }
{
    let mut copy = of_memory(machine.share())?;
    let hart = hart_after_round(rt, &mut copy, number);
    drop(copy);
    hart
}

/// The same, where the machine does the round.
fn hart_after_round<R: Threads + Wait + Sync>(
    rt: &R,
    machine: &mut UntracedMachine,
    number: u32,
) -> Result<Hart, OutOfMemory>
    requires run { (m : Running) × IsUntraced m machine.old }
    requires rounds { machine.old.rounds + 1 < 2 ^ 32 }
    requires hart { number < length machine.old.harts }
    ensures { (m : Running) → IsUntraced m machine.old →
        IfOk result (λ h. slice_get (after_round m).state.harts number ≡ Some h) }
{
    // As many as the plan says, before the round and after it.
    let _harts = machine.harts();
    of_memory(machine.run(rt, 1, 1))?;
    let harts = machine.harts();
    Ok(harts[number as usize])
}
