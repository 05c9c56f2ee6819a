ghost use Rattle.std.specs.Prelude.{◌≡◌, ◌+◌, ◌<◌, ◌^◌, length, IfOk, IfErr};
ghost use Rattle.host_io.specs.declared.error.RunError.TheVariants as refusals;
ghost use Rattle.round_planner.specs.Quotas.{quotas_of};
ghost use Rattle.machine.specs.Machine.{Running};
ghost use Rattle.machine.specs.Untraced.{IsUntraced};
ghost use Rattle.round_steps.specs.Places.{parallel_places, round_places, turns_of};

use crate::part::{Before, add_part};
use crate::turn::add_turns;
use host_io::RunError;
use machine::UntracedMachine;
use moments::{Asked, quiet_lengths};
use pages::{OutOfMemory, Range};
use past_harts::{Place, code_of_run};
use std::sync::Wait;
use std::thread::Threads;

/// What the parts of the parallel phase of a round came to.
#[derive(Drop)]
struct Parts {
    /// Where something is told in them.
    found: Vec<Place>,
    /// After how many instructions of each hart its turn comes, where it does.
    turns: Vec<Option<u32>>,
}

/// Where something is told in the next round of a run, in the order of the trace. Of the run there is the machine without its trace,
/// and its code. It may wait.
///
/// # Errors
///
/// `OutOfMemory` alone.
pub(crate) fn places_in_round<R: Threads + Wait + Sync>(
    rt: &R,
    machine: &mut UntracedMachine,
    code: &[Range],
    asked: &Asked,
) -> Result<Vec<Place>, RunError>
    requires run { (m : Running) × IsUntraced m machine.old }
    requires rounds { machine.old.rounds + 1 < 2 ^ 32 }
    ensures stays { machine.new ≡ machine.old }
    ensures places { (m : Running) → IsUntraced m machine.old → m.code ≡ code.now →
        IfOk result (λ v. v.items ≡ round_places asked.now m) }
    ensures refused { IfErr result (λ e. e ≡ refusals.OutOfMemory) }
{
    let Parts { found, turns } = parts_in_round(machine, code, asked)?;
    add_turns(rt, machine, &turns, asked, found)
}

/// The same of its parallel phase.
fn parts_in_round(
    machine: &UntracedMachine,
    code: &[Range],
    asked: &Asked,
) -> Result<Parts, OutOfMemory>
    requires rounds { machine.now.rounds + 1 < 2 ^ 32 }
    ensures found { IfOk result (λ p. p.found.items ≡ parallel_places asked.now (record {
      harts = machine.now.harts;
      bytes = machine.now.bytes;
      code = code.now;
      quotas = quotas_of machine.now.plan machine.now.rounds;
    }) (length machine.now.harts)) }
    ensures turns { IfOk result (λ p. p.turns.items ≡ turns_of (record {
      harts = machine.now.harts;
      bytes = machine.now.bytes;
      code = code.now;
      quotas = quotas_of machine.now.plan machine.now.rounds;
    }) (length machine.now.harts)) }
{
    let pages = machine.pages();
    let decoded_code = code_of_run(pages, code, u64::MAX)?;
    let runs = quiet_lengths(pages.allocator(), &decoded_code, &asked.stops)?;
    let mut found = Vec::new(pages.allocator());
    let mut turns = Vec::new(pages.allocator());
    // At most 64.
    let _harts = machine.plan().harts();
    let harts = machine.harts();
    for number in 0..harts.len() {
        let before = Before {
            number: number as u32,
            hart: harts[number],
            quota: machine.plan().quota(machine.rounds() + 1, number as u32),
        };
        turns.push(add_part(before, pages, &decoded_code, &runs, asked, &mut found)?)?;
    }
    Ok(Parts { found, turns })
}
