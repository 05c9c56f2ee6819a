//! Walks through the runs of a hart.
use crate::computing::step;
use hart_walks::{Against, Mode, Walk};
use pages::OutOfMemory;
use run_states::{Bounds, EndedRun, RunEnd, RunState, Runs, Settled};
use store_lists::{ListedStore, add_once};

/// All runs of a hart against a list: from its start, or from the states that were settled where the list was one store shorter, which are
/// given with the runs that ended there.
///
/// # Errors
///
/// `OutOfMemory` alone.
pub fn runs_against(
    walk: &mut Walk,
    against: Against<'_>,
    above: Option<&Runs>,
) -> Result<Runs, OutOfMemory> {
    walk.begin(Mode::All);
    match (above, against.list.last()) {
        (Some(above), Some(last)) => resume(walk, against, above, last)?,
        _ => start(walk, against)?,
    }
    follow_all(walk, against)?;
    walk.finish()
}

/// The hart starts.
fn start(walk: &mut Walk, against: Against<'_>) -> Result<(), OutOfMemory> {
    match against.guest.harts.get(usize::from(against.hart)) {
        Some(hart) => walk.put_off(RunState::new(walk.alloc, *hart)),
        None => Ok(()),
    }
}

/// The hart goes on from settled states, with one store more.
fn resume(
    walk: &mut Walk,
    against: Against<'_>,
    above: &Runs,
    last: ListedStore,
) -> Result<(), OutOfMemory> {
    let is_own = last.hart == against.hart;
    if !is_own {
        for ended in &above.ended {
            walk.runs.add_ended(ended.copy()?)?;
        }
    }
    // The first is to be followed first, so it is added last.
    for settled in above.settled.iter().rev() {
        let mut state = settled.state.copy()?;
        if is_own {
            state.owed.push(against.list.now().saturating_sub(1))?;
        }
        if settled.is_met {
            state.course.past = walk.keep(against, &state)?;
        }
        state.course.is_resumed = true;
        walk.put_off(state)?;
    }
    Ok(())
}

/// Follows all runs that were put off.
fn follow_all(walk: &mut Walk, against: Against<'_>) -> Result<(), OutOfMemory> {
    for _ in 0..u64::MAX {
        if walk.is_over() {
            break;
        }
        match walk.pending.pop() {
            Some(state) => follow(walk, against, state)?,
            None => break,
        }
    }
    Ok(())
}

/// Follows a run until it ends, or is put off.
fn follow(walk: &mut Walk, against: Against<'_>, begun: RunState) -> Result<(), OutOfMemory> {
    let mut state = begun;
    for _ in 0..u64::MAX {
        if walk.is_over() {
            break;
        }
        if state.hart.done >= against.guest.most_steps {
            walk.runs.is_cut |= state.owes_none();
            walk.break_off(against, &state)?;
            break;
        }
        walk.steps = walk.steps.wrapping_add(1);
        if !step(walk, against, &mut state)? {
            break;
        }
    }
    Ok(())
}

/// Those runs that wait for ever from a settled state on, where the list stays as it is: the hart reads the last of memory alone, and
/// comes back to where it was.
///
/// # Errors
///
/// `OutOfMemory` alone.
pub fn waiting_runs(
    walk: &mut Walk,
    against: Against<'_>,
    settled: &[Settled],
) -> Result<Vec<EndedRun>, OutOfMemory> {
    let mut waiting = Runs::new(walk.alloc);
    for settled in settled {
        if settled.state.owes_none() && !walk.sharing.grew() {
            if let Some(pc) = waits_at(walk, against, &settled.state)? {
                waiting.add_ended(EndedRun {
                    end: RunEnd::Waits(pc),
                    output: Vec::from_slice(walk.alloc, &settled.state.output)?,
                    steps: settled.state.hart.done,
                    last_deed: settled.state.last_deed,
                })?;
            }
        }
    }
    let Runs {
        ended,
        next: _,
        settled: _,
        is_cut: _,
    } = waiting;
    Ok(ended)
}

/// The least address of the loop in which a hart waits for ever, where it does.
fn waits_at(
    walk: &mut Walk,
    against: Against<'_>,
    settled: &RunState,
) -> Result<Option<u64>, OutOfMemory> {
    let kept = walk.kept();
    walk.begin(Mode::Last);
    let mut state = settled.copy()?;
    state.bounds = Bounds::at(against.list.now());
    state.course.past = None;
    state.hart.done = 0;
    walk.put_off(state)?;
    follow_all(walk, against)?;
    walk.forget(kept);
    Ok(if walk.came_back {
        Some(walk.least_pc)
    } else {
        None
    })
}
