ghost use Rattle.std.specs.Prelude.{◌≡◌, ◌+◌, ◌<◌, ◌^◌, IfOk, length};
ghost use Rattle.fence_search.specs.Counting.{count_all};
ghost use Rattle.fence_search.specs.Gathered.{plans_of};
ghost use Rattle.fence_search.specs.Searching.{IsSearchBy};

use crate::counting::Counted;
use crate::gathering::{Weakness, fewest_weaknesses};
use crate::searcher::Searcher;
use crate::trials::Trials;
use fence_table::Tally;
use fence_trials::{Executer, FenceGuest, Ordinary, TrialObserver, ordinary_runs};
use pages::OutOfMemory;
use plan_hunt::{Extent, HuntObserver};
use std::alloc::Global;
use std::thread::Threads;

/// What was found.
pub struct Search {
    /// Gaps at which fences forbid each execution that fails by what its departures move, the one that forbids the most
    /// first.
    pub weaknesses: Vec<Weakness>,
    /// Numbers that fail only with departures, by executions that are sequentially consistent, and those that no fence at a gap would mend.
    pub unnamed: Tally,
    /// What came of the numbers.
    pub counted: Counted,
    /// How many numbers are done: from the first one on, without a gap.
    pub done: u32,
    /// What the executions were compared with.
    pub runs: Ordinary,
}

// By hand, so that a proof has one step for it wherever one is dropped, in this crate and above.
impl Drop for Search {
    fn drop(self) {
        let Search {
            weaknesses,
            unnamed: _,
            counted: _,
            done: _,
            runs,
        } = self;
        drop(weaknesses);
        drop(runs);
    }
}

/// Makes the executions of a guest that have the numbers of an extent, until the search is over, and says by what those fail that fail. It is
/// the same for any number of workers. Where it ends with a find, the observer says what is one.
///
/// # Errors
///
/// `OutOfMemory` alone.
pub fn search_fences<E: Executer + Sync, O: HuntObserver + TrialObserver + Sync, R: Threads + Sync>(
    rt: &R,
    executer: &E,
    guest: &FenceGuest<'_>,
    extent: Extent,
    workers: u32,
    observer: &O,
) -> Result<Search, OutOfMemory>
    requires { extent.first + extent.most < 2 ^ 32 }
    // Each number was executed and is counted once, and none that fails is lost.
    ensures { IfOk result (IsSearchBy (E.comes_to guest.now) (O.answers observer.now) extent) }
{
    let runs = ordinary_runs(executer, guest, observer)?;
    let searcher = Searcher {
        executer,
        guest,
        runs: &runs,
        extent,
        workers,
        observer,
    };
    let trials = searcher.try_all(rt)?;
    drop(searcher);
    gathered(guest.alloc, trials, runs)
}

/// What is told of trials.
fn gathered(alloc: Global, trials: Trials, runs: Ordinary) -> Result<Search, OutOfMemory>
    requires few { count_all trials.counted < 2 ^ 32 }
    requires found { length trials.founds.items ≡ trials.counted.failing }
    ensures none_lost { IfOk result (λ s. plans_of s.weaknesses.items + s.unnamed.plans
        ≡ trials.counted.unnamed.plans + trials.counted.failing) }
    ensures counted { IfOk result (λ s. s.counted ≡ trials.counted) }
    ensures done { IfOk result (λ s. s.done ≡ trials.done) }
    ensures runs { IfOk result (λ s. s.runs ≡ runs) }
{
    let Trials {
        founds,
        counted,
        done,
        is_over: _,
    } = trials;
    let found = fewest_weaknesses(alloc, founds)?;
    Ok(Search {
        weaknesses: found.weaknesses,
        unnamed: counted.unnamed.joined(found.unnamed),
        counted,
        done,
        runs,
    })
}
