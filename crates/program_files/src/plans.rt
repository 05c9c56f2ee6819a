//! The plan of a run, and the plans of a family.
ghost use Rattle.std.specs.Prelude.{◌≡◌, ◌≤◌, ◌++◌, ◌∷◌, [], IfOk, IfErr};
ghost use Rattle.program_files.specs.Asked.{IsFamilyPlan, IsFileOfPlan, IsPlanChosen};
ghost use Rattle.program_files.specs.Failures.{IsFileFailure, IsTold};

use crate::failure::CommandFailure;
use crate::plan_lines::bad_line;
use crate::reading::read_file;
use crate::world::World;
use command_line::PlanChoice;
use host_io::RunError;
use pages::OutOfMemory;
use round_planner::Family;
use round_schedule::MOST_HARTS;
use std::alloc::Global;

/// A plan as a run is asked for one: its text, and how many instructions a serial turn may have.
#[derive(Drop)]
pub struct AskedPlan {
    /// The text.
    pub text: Vec<u8>,
    /// The budget.
    pub budget: u32,
    /// The text is a file's.
    pub is_file: bool,
}

/// The plan that a run of so many harts goes by: one of the family, one from a file, or one row.
///
/// # Errors
///
/// `File` where the file can't be read, and `OutOfMemory`.
pub fn plan_of<W: World>(
    world: &W,
    alloc: Global,
    choice: &PlanChoice<'_>,
    harts: u32,
) -> Result<AskedPlan, CommandFailure>
    ensures plan { IfOk result (λ plan.
        IsPlanChosen (W.files world.now) choice.now harts plan.text.items plan.budget) }
    ensures errors { IfErr result (IsFileFailure (W.files world.now) (IsFileOfPlan choice.now)
        ⊥) }
{
    let (text, is_file) = match (choice.number, choice.file) {
        // Where there is no such number of harts, the run is refused for it, whatever its plan.
        (Some(number), _) if harts >= 1 && harts <= MOST_HARTS => {
            let family = Family {
                seed: choice.seed,
                harts,
            };
            return Ok(family_plan(alloc, family, number)?);
        }
        (None, Some(path)) => (read_file(world, alloc, path)?, true),
        _ => (row_of(alloc, choice.quota)?, false),
    };
    Ok(AskedPlan {
        text,
        budget: choice.budget,
        is_file,
    })
}

impl AskedPlan {
    /// What came of a run of so many harts by this plan. Where the plan of a file is refused, its first bad line is told too.
    pub fn explain<T: Drop>(
        &self,
        alloc: Global,
        harts: u32,
        answer: Result<T, RunError>,
    ) -> Result<T, CommandFailure>
        ensures { IsTold answer result }
    {
        let error = match answer {
            Ok(value) => return Ok(value),
            Err(error) => error,
        };
        if let (RunError::Plan(cause), true) = (error, self.is_file) {
            if let Some(line) = bad_line(alloc, &self.text, harts, cause) {
                return Err(CommandFailure::Plan(error, line));
            }
        }
        Err(CommandFailure::Refused(error))
    }
}

/// A plan of a family.
pub fn family_plan(alloc: Global, family: Family, number: u32) -> Result<AskedPlan, OutOfMemory>
    requires some_harts { 1 ≤ family.harts }
    requires few_harts { family.harts ≤ MOST_HARTS }
    ensures { IfOk result (λ p.
        IsFamilyPlan family.seed family.harts number p.text.items p.budget) }
{
    let plan = family.plan(alloc, number)?;
    Ok(AskedPlan {
        text: plan.text(alloc)?,
        budget: plan.budget(),
        is_file: false,
    })
}

/// The plan of one row.
pub fn row_of(alloc: Global, quota: &str) -> Result<Vec<u8>, OutOfMemory>
    ensures { IfOk result (λ row. row.items ≡ quota.now ++ 10 ∷ []) }
{
    let mut row = Vec::new(alloc);
    row.extend_from_slice(quota.as_bytes())?;
    row.push(b'\n')?;
    Ok(row)
}
