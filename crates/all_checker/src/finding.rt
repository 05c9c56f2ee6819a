//! The table of all endings.
ghost use Rattle.std.specs.Prelude.{◌≡◌, ◌+◌, ◌*◌, ◌≤◌, ◌<◌, ◌^◌, length, All as Each, IfOk, IsTrue};
ghost use Rattle.hart_step.specs.Console.{output_room};
ghost use Rattle.all_endings.specs.Offering.{AreFresh};
ghost use Rattle.own_moves.specs.Owned.{owns_of};
ghost use Rattle.private_bytes.specs.PrivateWalks.{AreNobodys};
ghost use Rattle.ending_nodes.specs.Raising.{AreRight};
ghost use Rattle.all_checker.specs.Tables.{IsFoundOf};

use crate::guest::Guest;
use crate::mapping::right_maps;
use crate::owning::{unseen, without};
use crate::sighting::{Batch, sights_of};
use crate::taking::{LookedNodes, none_taken, take_batch};
use ending_nodes::MappedProgram;
use hart_ends::TableEnding;
use list_suffixes::node_tables_are_whole;
use pages::OutOfMemory;
use run_places::{Omission, OwnDoubleword};
use std::alloc::Global;
use std::thread::Threads;

/// So many nodes at most are looked at before their next nodes are taken in, whatever the number of workers: so that tells nothing of them.
const BATCH: usize = 64;

/// How far is looked.
#[derive(Clone, Copy)]
pub struct Bounds {
    /// So many instructions of each hart are followed. What is said holds of executions in which no hart does more.
    pub steps: u64,
    /// So many nodes at most: memory, the stores since then, and where the harts' runs go on from there.
    pub nodes: usize,
    /// So many places at most of the harts' runs from all nodes together. By so many at most stores are put behind a node, too.
    pub places: usize,
}

/// Why nothing is said.
#[derive(Clone, Copy, PartialEq, Eq)]
pub enum Reason {
    /// The console has no room for a byte of each instruction.
    Room,
    /// There are more nodes than were to be looked through.
    Nodes,
    /// Time is over.
    Time,
    /// A hart's runs from a node aren't known.
    Runs(Omission),
}

/// Who looks on while nodes are looked through.
pub trait ListsObserver {
    /// Looks at how many nodes were looked through, and says whether there is time to go on.
    fn look(&mut self, lists: u64) -> bool;
}

/// What was found.
#[derive(Drop)]
pub enum Found {
    /// These are all endings.
    All(Vec<TableEnding>),
    /// Nothing is said, for this reason.
    Unknown(Reason),
}

/// All endings of a guest under RVWMO, over all executions in which no hart does more than so many instructions. Endings show the bytes of
/// some ranges of memory, and what each hart put out by itself. Nodes are looked through by so many workers at the same time; what is found
/// doesn't hang on how many. The observer looks on.
///
/// Of some doublewords the caller may think that one hart alone touches them: then stores to them aren't listed. Where that isn't so, it is
/// begun anew without them, and the bounds count anew.
///
/// # Errors
///
/// `OutOfMemory` alone.
pub fn find_all<O: ListsObserver, R: Threads + Sync>(
    rt: &R,
    alloc: Global,
    guest: &Guest<'_>,
    hint: &[OwnDoubleword],
    bounds: Bounds,
    workers: u32,
    observer: &mut O,
) -> Result<Found, OutOfMemory>
    requires few { length guest.now.harts.now ≤ 64 }
    requires fresh { AreFresh guest.now.harts.now }
    requires ranges { Each (λ r. r.start + r.len < 2 ^ 64) guest.now.see.now }
    ensures { IfOk result (λ f. IsFoundOf bounds.steps guest.now.pages.now.memory
        guest.now.harts.now guest.now.see.now f) }
{
    if !has_room(bounds.steps, guest.harts.len()) {
        return Ok(Found::Unknown(Reason::Room));
    }
    let mut owned = Vec::from_slice(alloc, hint)?;
    for _ in 0..hint.len() {
        let found = look_at_all(rt, alloc, guest, &owned, bounds, workers, observer)?;
        match strayed_to(&found) {
            Some(doubleword) => owned = without(alloc, &owned, doubleword)?,
            None => return Ok(found),
        }
    }
    look_at_all(rt, alloc, guest, &owned, bounds, workers, observer)
}

/// The doubleword that a hart strayed to, if that is why nothing is said.
fn strayed_to(found: &Found) -> Option<u64> {
    match *found {
        Found::Unknown(Reason::Runs(Omission::Strays(doubleword))) => Some(doubleword),
        _ => None,
    }
}

/// All endings, where one hart alone touches these doublewords, but for those that are seen.
fn look_at_all<O: ListsObserver, R: Threads + Sync>(
    rt: &R,
    alloc: Global,
    guest: &Guest<'_>,
    hint: &[OwnDoubleword],
    bounds: Bounds,
    workers: u32,
    observer: &mut O,
) -> Result<Found, OutOfMemory>
    requires few { length guest.now.harts.now ≤ 64 }
    requires fresh { AreFresh guest.now.harts.now }
    requires ranges { Each (λ r. r.start + r.len < 2 ^ 64) guest.now.see.now }
    requires room { bounds.steps * length guest.now.harts.now ≤ output_room }
    ensures { IfOk result (λ f. IsFoundOf bounds.steps guest.now.pages.now.memory
        guest.now.harts.now guest.now.see.now f) }
{
    let owned = unseen(alloc, hint, guest.see)?;
    let maps = right_maps(alloc, guest.pages, &owned, guest.harts)?;
    let program = MappedProgram {
        pages: guest.pages,
        owned: &owned,
        maps: &maps,
        steps: bounds.steps,
        most: bounds.places,
    };
    look_at_nodes(rt, alloc, &program, guest, bounds, workers, observer)
}

/// All endings of a guest whose code is mapped.
fn look_at_nodes<O: ListsObserver, R: Threads + Sync>(
    rt: &R,
    alloc: Global,
    program: &MappedProgram<'_>,
    guest: &Guest<'_>,
    bounds: Bounds,
    workers: u32,
    observer: &mut O,
) -> Result<Found, OutOfMemory>
    requires few { length program.now.maps.now ≤ 64 }
    requires right { AreRight (owns_of program.now.owned.now) program.now.pages.now.memory
        program.now.maps.now }
    requires harts { length guest.now.harts.now ≡ length program.now.maps.now }
    requires fresh { AreFresh guest.now.harts.now }
    requires nobodys { AreNobodys (owns_of program.now.owned.now) (length guest.now.harts.now)
        guest.now.see.now }
    requires ranges { Each (λ r. r.start + r.len < 2 ^ 64) guest.now.see.now }
    requires room { program.now.steps * length guest.now.harts.now ≤ output_room }
    ensures { IfOk result (λ f. IsFoundOf program.now.steps program.now.pages.now.memory
        guest.now.harts.now guest.now.see.now f) }
{
    node_tables_are_whole();
    let mut taken = none_taken(alloc, guest.harts, bounds.places)?;
    while taken.done < taken.nodes.all.len() {
        if taken.done >= bounds.nodes {
            return Ok(Found::Unknown(Reason::Nodes));
        }
        if !observer.look(taken.done as u64) {
            return Ok(Found::Unknown(Reason::Time));
        }
        let batch = next_batch(&taken, bounds.nodes);
        let slots = sights_of(rt, alloc, program, guest.see, &batch, workers)?;
        if let Some(why) = take_batch(alloc, program, guest, &mut taken, slots)? {
            return Ok(Found::Unknown(Reason::Runs(why)));
        }
    }
    Ok(Found::All(taken.table))
}

/// The next nodes that are there, but not more than so many in all.
fn next_batch(taken: &LookedNodes, most: usize) -> Batch<'_>
    requires more { taken.now.done < length taken.now.nodes.all.items }
    requires few { taken.now.done < most }
    ensures nodes { result.nodes.now ≡ taken.now.nodes.all.items }
    ensures from { result.from ≡ taken.now.done }
    ensures some { 0 < result.count }
    ensures within { result.from + result.count ≤ length taken.now.nodes.all.items }
{
    let there = taken.nodes.all.len().min(most) - taken.done;
    Batch {
        nodes: &taken.nodes.all,
        from: taken.done,
        count: there.min(BATCH) as u32,
        most: taken.left,
    }
}

/// Whether the console has room for a byte of each instruction.
fn has_room(steps: u64, harts: usize) -> bool
    requires { harts ≤ 64 }
    ensures { IsTrue result → steps * harts ≤ output_room }
{
    steps <= 1 << 20 && steps * (harts as u64) <= 1 << 20
}
