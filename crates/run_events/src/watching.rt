ghost use Rattle.std.specs.Prelude.{◌≡◌, ◌≤◌, [], length, true, IfOk, IfErr};
ghost use Rattle.host_io.specs.declared.error.RunError.TheVariants as refusals;
ghost use Rattle.machine.specs.Machine.{Running, after_rounds, count_stopped};
ghost use Rattle.machine.specs.Untraced.{IsUntraced};
ghost use Rattle.machine.specs.Walks.{HasStopped};
ghost use Rattle.run_events.specs.Hits.{sought_in};
ghost use Rattle.round_schedule.specs.Bounds.{AreWorkers};
ghost use Rattle.run_events.specs.Watched.{IsAtStart};

use crate::sought::{Search, Sought};
use crate::watcher::Watcher;
use hart_step::Hart;
use host_io::RunError;
use machine::{Next, Observer, UntracedMachine, Visitor};
use pages::OutOfMemory;
use round_schedule::Event;
use std::alloc::Global;
use std::marker::Brand;
use std::sync::Wait;
use std::thread::Threads;

/// Does so many rounds of a machine that was just opened, as long as a hart runs, on 1 to 16 workers, and gives the events of its
/// trace that are sought, in the order of the trace. Fences are none of them; store-conditionals that failed may be. It may wait.
///
/// The observer looks at the machine after each round in which a hart runs.
///
/// # Errors
///
/// `OutOfMemory` alone.
pub fn hits_of_run<O: Observer, R: Threads + Wait + Sync>(
    rt: &R,
    alloc: Global,
    machine: &mut UntracedMachine,
    rounds: u32,
    sought: Sought<'_>,
    workers: u32,
    observer: &mut O,
) -> Result<Vec<Event>, RunError>
    requires workers { AreWorkers workers }
    requires start { IsAtStart machine.old }
    ensures hits { (m : Running) → IsUntraced m machine.old → m.state.trace ≡ [] →
        IfOk result (λ v. v.items ≡
        sought_in sought.entry.within sought.entry.ranges.now (after_rounds rounds m).state.trace) }
    ensures refused { IfErr result (λ e. e ≡ refusals.OutOfMemory) }
{
    Ok(find::<Brand, O, R>(rt, alloc, machine, rounds, sought, workers, observer)?)
}

/// The same of what a search seeks.
fn find<S: Search, O: Observer, R: Threads + Wait + Sync>(
    rt: &R,
    alloc: Global,
    machine: &mut UntracedMachine,
    rounds: u32,
    sought: Sought<'_>,
    workers: u32,
    observer: &mut O,
) -> Result<Vec<Event>, OutOfMemory>
    requires workers { AreWorkers workers }
    requires start { IsAtStart machine.old }
    requires ranges { sought.ranges.now ≡ S.ranges }
    requires within { sought.within ≡ S.within }
    ensures { (m : Running) → IsUntraced m machine.old → m.state.trace ≡ [] →
        IfOk result (λ v. v.items ≡
        sought_in S.within S.ranges (after_rounds rounds m).state.trace) }
{
    machine.check_to_go_on();
    let mut watcher = Watcher::<S>::new(alloc, sought);
    let mut showing = Showing { observer };
    machine.walk_keeping(rt, rounds, workers, &mut watcher, &mut showing)?;
    watcher.into_found()
}

/// Shows each round to an observer, until no hart runs.
#[derive(Drop)]
struct Showing<'a, O> {
    observer: &'a mut O,
}

impl<'a, O: Observer> Visitor for Showing<'a, O> {
    ghost knows = { λ first v start rounds done. Unit {0} };

    ghost has_enough = { λ v u. HasStopped u };

    ghost may_fail = { ⊥ };

    fn after_round(&mut self, machine: &UntracedMachine) -> Result<Next, OutOfMemory> {
        self.observer.after_round(machine);
        if all_stopped(machine.harts()) {
            Ok(Next::Enough)
        } else {
            Ok(Next::Round)
        }
    }
}

/// Whether none of the harts runs.
fn all_stopped(harts: &[Hart]) -> bool
    ensures { result ≡ true → count_stopped harts.now ≡ length harts.now }
{
    match harts {
        [] => true,
        [first, rest @ ..] => first.stop.is_some() && all_stopped(rest),
    }
}
