ghost use Rattle.std.specs.Prelude.{◌≡◌, IfOk, OnErr};
ghost use Rattle.pages.specs.Memory.{Memory};
ghost use Rattle.execution.specs.Executions.{IsLike};
ghost use Rattle.execution.specs.Progressing.{IsReady, IsTaken, standing};

use crate::noting::{event_of, note, own_held_after, reserve_one};
use crate::reading::{laid_for, other_read};
use crate::step::{ScriptedStep, do_step, instruction_at};
use crate::step_fault::StepFault;
use hart_step::Hart;
use pages::OutOfMemory;
use round_schedule::{Event, Span, Stepped};
use rv64_decode::Instr;
use serial_phase::SharedState;

/// The harts of an image on their way.
#[derive(Drop)]
pub(crate) struct Progress {
    pub(crate) harts: Vec<Hart>,
    /// The reservation that each hart's own LRs and SCs left it.
    pub(crate) own: Vec<Option<Span>>,
    /// A scratch memory, and the console.
    pub(crate) shared: SharedState,
    /// The number of the last round.
    pub(crate) round: u32,
    /// What was done.
    pub(crate) instructions: Vec<Instr>,
    /// An event for each instruction.
    pub(crate) events: Vec<Event>,
}

/// The next step of a hart, or why there is none.
pub(crate) fn take_step(
    progress: &mut Progress,
    step: ScriptedStep,
) -> Result<Option<StepFault>, OutOfMemory>
    requires { IsReady progress.old }
    ensures ready { IsReady progress.new }
    ensures like { (image : Memory) → IsLike image progress.old.shared.pages.memory →
        IsLike image progress.new.shared.pages.memory }
    ensures took { IfOk result (λ fault. IsTaken fault progress.old.shared.pages.memory step
        (standing progress.old) (standing progress.new)) }
    ensures refused { OnErr result (standing progress.new ≡ standing progress.old) }
{
    let index = usize::from(step.hart);
    if index >= progress.harts.len() {
        return Ok(Some(StepFault::NoSuchHart));
    }
    if step.round < progress.round {
        return Ok(Some(StepFault::RoundFalls));
    }
    let mut hart = progress.harts[index];
    if hart.stop.is_some() {
        return Ok(Some(StepFault::HasStopped));
    }
    let own = progress.own[index];
    let next = instruction_at(&progress.shared.pages, hart.pc);
    reserve_one(&mut progress.instructions, &mut progress.events)?;
    let laid = laid_for(&hart, &next, step.number);
    let answer = do_step(&mut hart, &mut progress.shared, own, laid, step)?;
    if let Some(read) = other_read(answer, step.number) {
        return Ok(Some(StepFault::OtherNumber { read }));
    }
    progress.round = step.round;
    progress.harts[index] = hart;
    match answer {
        Stepped::Done(access) => match next {
            Some(instruction) => {
                progress.own[index] = own_held_after(access, own);
                let event = event_of(step.hart, access);
                note(
                    &mut progress.instructions,
                    &mut progress.events,
                    instruction,
                    event,
                );
                Ok(None)
            }
            None => unreachable!(),
        },
        Stepped::Stopped(_) => Ok(None),
        Stepped::Waits => unreachable!(),
    }
}
