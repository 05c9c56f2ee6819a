//! Harts of a run that run for ever.
use command_line::Program;
use hunter::find_run_endings;
use plan_hunt::HartEnding;
use program_files::{CommandFailure, RunFiles, World, guest_files, settings_of};
use std::alloc::Global;
use std::sync::Wait;
use std::thread::Threads;

/// Runs the guest program of some files once more, as far as it needs to be told whether the run goes round, and says on standard
/// error which harts loop.
pub(crate) fn tell_loops<W: World, R: Threads + Wait + Sync>(
    threads: &R,
    alloc: Global,
    program: &Program<'_>,
    given: &RunFiles,
    world: &W,
) -> Result<(), CommandFailure> {
    let endings = endings_of(threads, alloc, program, given)?;
    for (hart, ending) in endings.iter().enumerate() {
        if *ending == HartEnding::Loops {
            world.tell(format_args!("hart {hart} loops: it runs for ever under this plan"));
        }
    }
    Ok(())
}

/// How the harts of the run end.
fn endings_of<R: Threads + Wait + Sync>(
    threads: &R,
    alloc: Global,
    program: &Program<'_>,
    given: &RunFiles,
) -> Result<Vec<HartEnding>, CommandFailure> {
    let settings = settings_of(program, &given.plan);
    let answer = find_run_endings(threads, alloc, &guest_files(&given.program), &settings);
    given.plan.explain(alloc, settings.harts, answer)
}
