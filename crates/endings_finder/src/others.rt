ghost use Rattle.std.specs.Prelude.{◌≡◌, ◌≤◌, ◌↔◌, Contains, IfOk, IsTrue, map};
ghost use Rattle.all_endings.specs.Endings.{Ending as EndsSo};
ghost use Rattle.ending_judge.specs.JudgedEndings.{ending_in, stop_of};
ghost use Rattle.endings_finder.specs.AllEndings.{HasAll, guest_from};
ghost use Rattle.endings_finder.specs.Checked.{output_told, stop_told};
ghost use Rattle.endings_table.specs.declared.others.Others.TheVariants.{Absent};
ghost use Rattle.hart_ends.specs.Told.{bytes_told, ending_told, table_told};

use crate::guest::{Guest, searched_ranges};
use crate::searching::EndingsObserver;
use crate::settings::EndingsSettings;
use all_checker::{
    Bounds, Found, Guest as CheckedGuest, HartEnd as CheckedEnd, ListsObserver, OwnDoubleword,
    Reason, TableEnding, find_all,
};
use endings_table::{FoundEnding, HartEnd, Others, Why};
use pages::OutOfMemory;
use std::thread::Threads;

/// How many places of harts' runs the checker looks at for each list of stores that it may look through.
const PLACES: usize = 15;

/// How far the checker looks, and who looks.
#[derive(Clone, Copy)]
pub(crate) struct Reach {
    /// So many instructions of each hart.
    pub(crate) steps: u32,
    /// So many lists of stores.
    pub(crate) nodes: u32,
    /// So many workers at the same time, on which nothing that is found depends.
    pub(crate) workers: u32,
}

impl Reach {
    /// As far as the search.
    pub(crate) fn new(settings: &EndingsSettings) -> Reach
        ensures { result.steps ≡ settings.now.steps }
    {
        Reach {
            steps: settings.steps,
            nodes: settings.nodes,
            workers: settings.hunt.workers,
        }
    }
}

/// Who looks on while the endings that were found are checked.
#[derive(Drop)]
struct Looking<'a, O> {
    observer: &'a mut O,
    /// How many endings were found.
    endings: u64,
}

impl<O: EndingsObserver> ListsObserver for Looking<'_, O> {
    fn look(&mut self, lists: u64) -> bool {
        self.observer.look(lists, 0, self.endings)
    }
}

/// Whether a guest has other endings than these, of executions in which no hart does more than so many instructions. Where the search for
/// them wasn't whole, there may be some for its reason. Where the checker finds one that isn't among them, the search has a fault. It also saw
/// one hart alone touch some doublewords, which spares the checker lists of stores.
///
/// # Errors
///
/// `OutOfMemory` alone.
pub(crate) fn others_than<O: EndingsObserver, R: Threads + Sync>(
    rt: &R,
    guest: &Guest<'_>,
    reach: Reach,
    endings: &[FoundEnding],
    why: Option<Why>,
    owned: &[OwnDoubleword],
    observer: &mut O,
) -> Result<Others, OutOfMemory>
    requires few { guest.now.scripted.harts ≤ 64 }
    // There are none only where the endings are all.
    ensures { IfOk result (λ o. o ≡ Absent →
        HasAll (guest_from guest.now.program.now guest.now.scripted) guest.now.ranges.now
        reach.steps endings.now) }
{
    if let Some(why) = why {
        return Ok(Others::Possible(why));
    }
    let memory = guest.program.memory(guest.alloc)?;
    let harts = guest.program.harts(guest.alloc, guest.scripted.harts)?;
    let see = searched_ranges(guest.alloc, guest.ranges)?;
    let bounds = Bounds {
        steps: u64::from(reach.steps),
        nodes: reach.nodes as usize,
        places: PLACES * reach.nodes as usize,
    };
    let mut looking = Looking {
        observer,
        endings: endings.len() as u64,
    };
    let checked = CheckedGuest {
        pages: &memory,
        harts: &harts,
        see: &see,
    };
    match find_all(
        rt,
        guest.alloc,
        &checked,
        owned,
        bounds,
        reach.workers,
        &mut looking,
    )? {
        Found::All(table) => Ok(others_by(endings, &table)),
        Found::Unknown(Reason::Time) => Ok(Others::Possible(Why::Time)),
        Found::Unknown(_) => Ok(Others::Possible(Why::Unchecked)),
    }
}

/// Whether there are others than these, where the checker's table has all.
fn others_by(endings: &[FoundEnding], table: &[TableEnding]) -> Others
    ensures { result ≡ Absent → (e : EndsSo) → Contains (table_told table.now) e →
        Contains (map ending_in endings.now) e }
{
    if have_all(endings, table) {
        Others::Absent
    } else {
        Others::Possible(Why::Unchecked)
    }
}

/// Whether each ending of the checker's table is one of these.
fn have_all(endings: &[FoundEnding], table: &[TableEnding]) -> bool
    ensures { IsTrue result → (e : EndsSo) → Contains (table_told table.now) e →
        Contains (map ending_in endings.now) e }
{
    for other in table {
        if !has_ending(endings, other) {
            return false;
        }
    }
    true
}

/// Whether the checker's ending is one of these.
fn has_ending(endings: &[FoundEnding], other: &TableEnding) -> bool
    ensures { IsTrue result → Contains (map ending_in endings.now) (ending_told other.now) }
{
    for ending in endings {
        if is_same(ending, other) {
            return true;
        }
    }
    false
}

/// Whether an ending is the checker's one.
fn is_same(ending: &FoundEnding, other: &TableEnding) -> bool
    ensures { IsTrue result → ending_in ending.now ≡ ending_told other.now }
{
    if !end_alike(&ending.ends, &other.harts) {
        return false;
    }
    if !put_out_alike(&ending.outputs, &other.harts) {
        return false;
    }
    look_alike(&ending.seen, &other.seen)
}

/// Whether harts stop as others do.
fn end_alike(ends: &[HartEnd], others: &[CheckedEnd]) -> bool
    ensures { IsTrue result → map stop_of ends.now ≡ map stop_told others.now }
{
    if ends.len() != others.len() {
        return false;
    }
    for index in 0..ends.len() {
        if ends[index] != HartEnd::Stopped(others[index].stop) {
            return false;
        }
    }
    true
}

/// Whether harts put out what others do.
fn put_out_alike(outputs: &[Vec<u8>], others: &[CheckedEnd]) -> bool
    ensures { IsTrue result → bytes_told outputs.now ≡ map output_told others.now }
{
    if outputs.len() != others.len() {
        return false;
    }
    for index in 0..outputs.len() {
        if !same_bytes(&outputs[index], &others[index].output) {
            return false;
        }
    }
    true
}

/// Whether two lists of bytes are the same.
fn look_alike(seen: &[Vec<u8>], others: &[Vec<u8>]) -> bool
    ensures { IsTrue result → bytes_told seen.now ≡ bytes_told others.now }
{
    if seen.len() != others.len() {
        return false;
    }
    for index in 0..seen.len() {
        if !same_bytes(&seen[index], &others[index]) {
            return false;
        }
    }
    true
}

/// Whether bytes are the same.
pub(crate) fn same_bytes(a: &[u8], b: &[u8]) -> bool
    ensures { IsTrue result ↔ (a.now ≡ b.now) }
{
    a == b
}
