ghost use Rattle.std.specs.Prelude.{◌≡◌, ◌≤◌, ◌^◌, length, IfOk, OnErr};
ghost use Rattle.pages.specs.Memory.{Memory};
ghost use Rattle.execution.specs.Executions.{IsLike};
ghost use Rattle.execution.specs.Progressing.{IsTaken, at_start};

use crate::progress::{Progress, take_step};
use crate::step::ScriptedStep;
use crate::step_fault::StepFault;
use hart_step::Hart;
use pages::OutOfMemory;
use round_schedule::{Event, MOST_HARTS};
use rv64_decode::Instr;
use serial_phase::SharedState;
use std::alloc::Global;
use std::marker::Model;

/// An execution of an image under way: what its harts did so far, one after another, each instruction on numbers that it was given.
pub struct Execution {
    progress: Progress,
}

// By hand, so that a proof has one step for it wherever one is dropped, in this crate and above.
impl Drop for Execution {
    fn drop(self) {
        let Execution { progress } = self;
        drop(progress);
    }
}

impl Model for Execution {
    ghost use Rattle.execution.specs.Progressing.{IsReady, Underway, underway};

    ghost Value = { Underway };

    ghost view = { λ e. underway e.progress };

    ghost invariant = { λ e. IsReady e.progress };
}

impl Execution {
    /// The execution in which nothing is done yet: of these harts, over the memory and the console that they share.
    ///
    /// # Errors
    ///
    /// `OutOfMemory` alone.
    pub fn new(
        alloc: Global,
        harts: Vec<Hart>,
        shared: SharedState,
    ) -> Result<Execution, OutOfMemory>
        requires few { length harts.items ≤ MOST_HARTS }
        requires reservations { length shared.reservations ≡ length harts.items }
        ensures memory { IfOk result (λ e. e.memory ≡ shared.pages.memory) }
        ensures standing { IfOk result (λ e.
            e.standing ≡ at_start harts.items shared.console.console) }
    {
        let own = vec![in alloc; None; harts.len()]?;
        let progress = Progress {
            harts,
            own,
            shared,
            round: 0,
            instructions: Vec::new(alloc),
            events: Vec::new(alloc),
        };
        Ok(Execution { progress })
    }

    /// The next step of a hart, or why there is none. Whatever the step says, the hart does the instruction of the image, as the
    /// instruction set has it; where the instruction reads, it reads the step's number.
    ///
    /// # Errors
    ///
    /// `OutOfMemory` alone, and the execution stands where it stood.
    pub fn take_step(&mut self, step: ScriptedStep) -> Result<Option<StepFault>, OutOfMemory>
        ensures like { (image : Memory) → IsLike image self.old.memory →
            IsLike image self.new.memory }
        ensures took { IfOk result (λ fault.
            IsTaken fault self.old.memory step self.old.standing self.new.standing) }
        ensures refused { OnErr result (self.new.standing ≡ self.old.standing) }
    {
        take_step(&mut self.progress, step)
    }

    /// The harts, 64 at most.
    pub fn harts(&self) -> &[Hart]
        ensures harts { result.now ≡ self.now.standing.harts }
        ensures few { length result.now ≤ 64 }
    {
        self.progress.harts.as_slice()
    }

    /// What was put out.
    pub fn output(&self) -> &[u8]
        ensures { result.now ≡ self.now.standing.console.output }
    {
        self.progress.shared.console.output()
    }

    /// The instructions that were done, in the order of the steps.
    pub fn instructions(&self) -> &[Instr]
        ensures { result.now ≡ self.now.standing.instructions }
    {
        self.progress.instructions.as_slice()
    }

    /// The event of each.
    pub fn events(&self) -> &[Event]
        ensures { result.now ≡ self.now.standing.events }
    {
        self.progress.events.as_slice()
    }

    /// Guest memory has at most 2^26 bytes.
    pub fn is_small(&self)
        ensures { length self.now.memory.bytes ≤ 2 ^ 26 }
    {
        let _pages = self.progress.shared.pages.count();
    }
}
