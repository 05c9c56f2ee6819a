ghost use Rattle.std.specs.Prelude.{IfErr, IfOk};
ghost use Rattle.program_files.specs.Asked.{IsFileOfRun, IsGiven, LacksSpurious};
ghost use Rattle.program_files.specs.Failures.{IsFileFailure};

use crate::failure::CommandFailure;
use crate::plans::{AskedPlan, plan_of};
use crate::reading::{ProgramFiles, read_program};
use crate::world::World;
use command_line::Run;
use std::alloc::Global;

/// What a run reads of files.
#[derive(Drop)]
pub struct RunFiles {
    /// The guest program, and its input.
    pub program: ProgramFiles,
    /// The plan.
    pub plan: AskedPlan,
}

/// Reads the files of a run.
///
/// # Errors
///
/// `File` where one of them can't be read, and `OutOfMemory`.
pub fn read_run<W: World>(
    world: &W,
    alloc: Global,
    run: &Run<'_>,
) -> Result<RunFiles, CommandFailure>
    ensures given { IfOk result (λ read. IsGiven (W.files world.now) run.now
        read.program.image.items read.program.input.items read.plan.text.items read.plan.budget) }
    ensures errors { IfErr result (IsFileFailure (W.files world.now) (IsFileOfRun run.now)
        (LacksSpurious (W.files world.now) run.now.program)) }
{
    let program = read_program(world, alloc, &run.program)?;
    let plan = plan_of(world, alloc, &run.plan, run.program.harts)?;
    Ok(RunFiles { program, plan })
}
