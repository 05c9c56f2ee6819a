ghost use Rattle.std.specs.Prelude.{◌≡◌, ◌<◌, ◌≤◌, ◌+◌, ◌^◌, List, length, Some, IfOk};
ghost use Rattle.round_schedule.specs.declared.event.Event.{Event};
ghost use Rattle.round_schedule.specs.Past.{last_of};
ghost use Rattle.round_schedule.specs.Reservations.{Tied};
ghost use Rattle.round_planner.specs.Quotas.{quotas_of};
ghost use Rattle.hart_step.specs.Numbers.{minus};
ghost use Rattle.hart_step.specs.Words.{words_of};
ghost use Rattle.moments.specs.Sights.{part_sights, sight_after};
ghost use Rattle.moments.specs.Bytes.{sight_of};
ghost use Rattle.guest_rounds.specs.Guests.{guest_state};
ghost use Rattle.round_schedule.specs.Bounds.{AreWorkers};

use crate::asked_turn::{TurnPlace, ask_turn};
use guest_rounds::{Crew, GuestState, HalfRound};
use hart_step::Hart;
use moments::Sight;
use pages::OutOfMemory;
use parallel_phase::Open;
use round_planner::Plan;
use serial_phase::SharedState;
use std::sync::Wait;
use std::thread::Threads;

/// What a hart of a guest is and sees after the first `count` instructions that it does in the round after `done` rounds, serial ones
/// counted: within its part of the parallel phase memory as the round began under its own stores, and in its serial turn memory
/// itself. With all of them the hart is as at the round's end, its stop told. `None` where it does fewer.
pub fn sight_in_round<R: Threads + Wait + Sync>(
    crew: &Crew<'_, Open, R>,
    guest: GuestState,
    plan: &Plan,
    done: u32,
    hart: u32,
    count: u64,
) -> Result<Option<Sight>, OutOfMemory>
    requires workers { AreWorkers crew.now.workers }
    requires harts { length guest.harts ≡ plan.now.harts }
    requires done { done + 1 < 2 ^ 32 }
    requires hart { hart < length guest.harts }
    requires run { (es : List Event) × Tied guest.shared.reservations es }
    ensures { IfOk result (λ s. (es : List Event) → Tied guest.shared.reservations es → s ≡
        sight_after (words_of guest.shared.memory.code) plan.now.budget (quotas_of plan.now)
        (guest_state done es guest) hart count) }
{
    // The types keep: bytes in memory, at most 64 harts with quotas in range, and a budget of at most 1,000.
    guest.pages().bytes_fit();
    let _harts = plan.harts();
    let budget = plan.budget();
    let harts = guest.harts();
    let before = harts[hart as usize];
    let half = guest.into_half_round(crew, plan, done)?;
    let HalfRound { mut shared, ends } = half;
    let parts = ends.as_slice();
    let part = &parts[hart as usize];
    let in_part = done_since(before, part.hart);
    if count < in_part {
        return Ok(Some(shorter_part(shared, before, count as u32)?));
    }
    if !part.waits {
        if count > in_part {
            return Ok(None);
        }
        let there = shorter_part(shared, before, count as u32)?;
        return Ok(Some(there.with_hart(part.hart)));
    }
    if count - in_part > u64::from(budget) {
        return Ok(None);
    }
    let place = TurnPlace {
        hart,
        round: done + 1,
        budget,
        count: (count - in_part) as u32,
    };
    ask_turn(crew, &mut shared, parts, part.hart, place)
}

/// How many instructions a hart did from one time to another, by its count of them.
fn done_since(before: Hart, after: Hart) -> u64
    ensures count { result ≡ minus after.done before.done }
    ensures fits { before.done < 2 ^ 64 }
{
    after.done.wrapping_sub(before.done)
}

/// What a hart sees after its part of the parallel phase, of so many instructions at most.
fn shorter_part(shared: SharedState, hart: Hart, quota: u32) -> Result<Sight, OutOfMemory>
    ensures { IfOk result (λ s. last_of (part_sights (words_of shared.pages.memory.code) quota
        (sight_of hart shared.pages.memory)) ≡ Some s) }
{
    let (pages, code) = shared.into_memory();
    Sight::after_part(pages, &code, hart, quota)
}
