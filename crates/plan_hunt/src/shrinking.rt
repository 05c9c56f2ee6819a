ghost use Rattle.std.specs.Prelude.{◌≡◌, ◌≤◌, IfOk, Ok, length, map};
ghost use Rattle.round_planner.specs.Causes.{checked};
ghost use Rattle.round_planner.specs.Quotas.{planned};
ghost use Rattle.plan_hunt.specs.Steps.{IsShrunk, LeadsTo, NoStepLeads};
ghost use Rattle.plan_hunt.specs.Tried.{IsTried};
ghost use denote.Param.Send.{IsSync};

use crate::draft::Draft;
use crate::ending::Ending;
use crate::plan_runs::PlanRuns;
use crate::shrink_observing::ShrinkObserver;
use crate::step::Step;
use pages::OutOfMemory;
use round_planner::Plan;
use std::alloc::Global;
use std::sync::Wait;
use std::thread::Threads;

/// A plan that ends as that of these rows does and isn't larger, and from which no single step to a smaller plan ends so.
///
/// The runs go one after another, and the observer looks on after each of them.
///
/// # Errors
///
/// `OutOfMemory` alone.
pub fn shrink<Q: PlanRuns, O: ShrinkObserver, R: Threads + Wait + Sync>(
    rt: &R,
    alloc: Global,
    runs: &Q,
    rows: Vec<Vec<u32>>,
    harts: u32,
    budget: u32,
    observer: &mut O,
) -> Result<Plan, OutOfMemory>
    requires some_harts { 1 ≤ harts }
    requires few_harts { harts ≤ 64 }
    requires some_rows { 1 ≤ length rows.items }
    requires accepted { checked harts (map (λ r. r.items) rows.items) ≡ Ok tt }
    requires some_budget { 1 ≤ budget }
    requires few_budget { budget ≤ 1000 }
    ensures { IfOk result (λ p.
        IsShrunk (Q.ends runs.now) (planned harts (map (λ r. r.items) rows.items) budget) p) }
{
    let draft = Draft {
        rows,
        harts,
        budget,
    };
    let ending = runs.run_under(rt, draft.plan(alloc)?)?;
    shrink_to(rt, alloc, runs, &ending, draft, observer)
}

/// Tries all steps, until none is taken.
fn shrink_to<Q: PlanRuns, O: ShrinkObserver, R: Threads + Wait + Sync>(
    rt: &R,
    alloc: Global,
    runs: &Q,
    ending: &Ending,
    mut draft: Draft,
    observer: &mut O,
) -> Result<Plan, OutOfMemory>
    requires sync { IsSync R.row }
    requires ends { Q.ends runs.now draft ≡ ending.now }
    ensures { IfOk result (λ p. IsShrunk (Q.ends runs.now) draft p) }
{
    while try_all(rt, alloc, runs, ending, &mut draft, observer)? {}
    draft.plan(alloc)
}

/// Tries each step once. It answers whether the plan became smaller.
fn try_all<Q: PlanRuns, O: ShrinkObserver, R: Threads + Wait + Sync>(
    rt: &R,
    alloc: Global,
    runs: &Q,
    ending: &Ending,
    draft: &mut Draft,
    observer: &mut O,
) -> Result<bool, OutOfMemory>
    requires sync { IsSync R.row }
    ensures { IfOk result (λ taken. IsTried (Q.ends runs.now) ending.now draft.old
        (NoStepLeads (Q.ends runs.now) ending.now draft.old) taken draft.new) }
{
    let rows = draft.row_count();
    let mut taken = false;
    for number in 0..draft.count_steps() {
        let step = Step::at(rows, number);
        if try_step(rt, alloc, runs, ending, step, draft, observer)? {
            taken = true;
        }
    }
    Ok(taken)
}

/// Takes a step where the run after it comes to the ending. It answers whether it did.
fn try_step<Q: PlanRuns, O: ShrinkObserver, R: Threads + Wait + Sync>(
    rt: &R,
    alloc: Global,
    runs: &Q,
    ending: &Ending,
    step: Step,
    draft: &mut Draft,
    observer: &mut O,
) -> Result<bool, OutOfMemory>
    requires sync { IsSync R.row }
    ensures { IfOk result (λ taken. IsTried (Q.ends runs.now) ending.now draft.old
        (LeadsTo (Q.ends runs.now) ending.now draft.old step → ⊥) taken draft.new) }
{
    let Some(smaller) = draft.after(alloc, step)? else {
        return Ok(false);
    };
    let found = runs.run_under(rt, smaller.plan(alloc)?)?;
    observer.after_run(draft.row_count());
    if !found.is_same(ending) {
        return Ok(false);
    }
    *draft = smaller;
    Ok(true)
}
