ghost use Rattle.std.specs.Prelude.{◌≡◌, ◌++◌, ◌+◌, ◌<◌, ◌^◌, ◌&&◌, None, length, get_or, is_some, IfOk, IfErr, OnOk};
ghost use Rattle.std.specs.List.{list_any};
ghost use Rattle.host_io.specs.declared.error.RunError.TheVariants as refusals;
ghost use Rattle.machine.specs.Machine.{Running};
ghost use Rattle.machine.specs.Untraced.{IsUntraced};
ghost use Rattle.moments.specs.Hits.{tells};
ghost use Rattle.past_harts.specs.Begun.{begun_of};
ghost use Rattle.round_steps.specs.Places.{serial_places, turns_of};
ghost use Rattle.round_steps.specs.TurnsNoted.{noted, noted_at};

use crate::noting::note;
use hart_step::Hart;
use host_io::RunError;
use machine::UntracedMachine;
use moments::Asked;
use pages::OutOfMemory;
use past_harts::{Place, TurnVisitor, visit_turns};
use round_schedule::Phase;
use std::sync::Wait;
use std::thread::Threads;

/// Adds the places of the serial turns of the next round of a run, of which each comes after so many instructions of its hart, where it
/// does. The turns are done once, all together, and not at all where none comes. It may wait.
pub(crate) fn add_turns<R: Threads + Wait + Sync>(
    rt: &R,
    machine: &mut UntracedMachine,
    turns: &[Option<u32>],
    asked: &Asked,
    found: Vec<Place>,
) -> Result<Vec<Place>, RunError>
    requires run { (m : Running) × IsUntraced m machine.old }
    requires rounds { machine.old.rounds + 1 < 2 ^ 32 }
    requires turns { length turns.now ≡ length machine.old.harts }
    ensures stays { machine.new ≡ machine.old }
    ensures places { (m : Running) → IsUntraced m machine.old →
        turns.now ≡ turns_of (begun_of m) (length m.state.harts) → IfOk result (λ v. v.items ≡
        found.items ++ serial_places asked.now m (length m.state.harts)) }
    ensures refused { IfErr result (λ e. e ≡ refusals.OutOfMemory) }
{
    if !some_comes(turns) {
        return Ok(found);
    }
    let copy = machine.share()?;
    let mut noting = Noting {
        asked,
        turns,
        found,
    };
    visit_turns(rt, copy, 1, &mut noting)?;
    Ok(noting.found)
}

/// Whether one of the turns comes.
fn some_comes(turns: &[Option<u32>]) -> bool
    ensures { result ≡ list_any is_some turns.now }
{
    turns.iter().any(|turn| turn.is_some())
}

/// Notes where something is told along the turns that it is shown.
#[derive(Drop)]
struct Noting<'a> {
    asked: &'a Asked,
    /// After how many instructions of each hart its turn comes, where it does.
    turns: &'a [Option<u32>],
    found: Vec<Place>,
}

impl<'a> TurnVisitor for Noting<'a> {
    ghost knows = { λ first v turns along.
        (v.asked.now ≡ first.asked.now) × (v.turns.now ≡ first.turns.now) ×
        (v.found.items ≡ first.found.items ++ noted first.asked.now first.turns.now turns along) };

    fn before_instruction(
        &mut self,
        number: u32,
        count: u32,
        hart: &Hart,
    ) -> Result<(), OutOfMemory> {
        let told = self.asked.tells(number, hart);
        let begun = begun_in(self.turns, number);
        note_in_turn(&mut self.found, told, begun, number, count)
    }

    fn after_turn(&mut self, number: u32, count: u32, hart: &Hart) -> Result<(), OutOfMemory> {
        let told = tells_stopped(self.asked, number, hart);
        let begun = begun_in(self.turns, number);
        note_in_turn(&mut self.found, told, begun, number, count)
    }
}

/// Whether something is told of a hart, where it has stopped.
fn tells_stopped(asked: &Asked, number: u32, hart: &Hart) -> bool
    ensures { result ≡ (is_some hart.now.stop && tells asked.now number hart.now) }
{
    hart.stop.is_some() && asked.tells(number, hart)
}

/// After how many instructions of a hart its turn comes, where it does.
fn begun_in(turns: &[Option<u32>], number: u32) -> Option<u32>
    ensures { result ≡ get_or turns.now number None }
{
    match turns.get(number as usize) {
        Some(begun) => *begun,
        None => None,
    }
}

/// Adds the place of a hart after so many instructions of its turn, where it is told and the turn comes.
fn note_in_turn(
    found: &mut Vec<Place>,
    told: bool,
    begun: Option<u32>,
    number: u32,
    count: u32,
) -> Result<(), OutOfMemory>
    ensures { OnOk result (found.new.items ≡
        found.old.items ++ noted_at told number count begun) }
{
    let Some(begun) = begun else {
        return Ok(());
    };
    let place = Place {
        phase: Phase::Serial,
        hart: number,
        count: u64::from(begun) + u64::from(count),
    };
    note(found, told, place)
}
