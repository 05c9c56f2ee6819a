//! An execution under way, with its script and what is seen of it.

ghost use Rattle.std.specs.Prelude.{◌≡◌, ◌≤◌, IfOk, OnOk, Option};
ghost use Rattle.pages.specs.Memory.{Memory};
ghost use Rattle.guest_rounds.specs.Guests.{opening_guest};
ghost use Rattle.execution.specs.Executions.{Standing};
ghost use Rattle.execution.specs.Progressing.{IsTaken};
ghost use Rattle.execution_views.specs.declared.sights.HartStep.{HartStep as StepAsked};
ghost use Rattle.execution_scripts.specs.Findings.{start_of};
ghost use Rattle.execution_scripts.specs.Courses.{IsWay};

use crate::opening::open_execution;
use elf_loader::Image;
use execution_checker::{Execution, ScriptedStep, StepFault};
use execution_views::{HartStep, Notes, take_noted};
use pages::OutOfMemory;
use round_schedule::MOST_HARTS;
use std::alloc::Global;

/// An execution that is followed.
#[derive(Drop)]
pub(crate) struct Way {
    pub(crate) execution: Execution,
    /// The steps that led there.
    pub(crate) script: Vec<ScriptedStep>,
    /// What was seen on the way.
    pub(crate) notes: Notes,
    /// The step that is looked at.
    pub(crate) asked: Option<HartStep>,
}

impl Way {
    /// An execution of so many harts of an image and an input, in which nothing is done yet.
    pub(crate) fn open(
        alloc: Global,
        image: &Image,
        input: &[u8],
        harts: u32,
        asked: Option<HartStep>,
    ) -> Result<Way, OutOfMemory>
        requires { harts ≤ MOST_HARTS }
        ensures way { IfOk result (λ w. let g = opening_guest image.now input.now harts in
            IsWay g.shared.memory (start_of g) asked w) }
        ensures standing { IfOk result (λ w.
            w.execution.standing ≡ start_of (opening_guest image.now input.now harts)) }
    {
        let execution = open_execution(alloc, image, input, harts)?;
        Ok(Way {
            execution,
            script: Vec::new(alloc),
            notes: Notes::new(alloc),
            asked,
        })
    }

    /// The next step of a hart, or why there is none.
    pub(crate) fn take(&mut self, step: ScriptedStep) -> Result<Option<StepFault>, OutOfMemory>
        ensures way { OnOk result ((image : Memory) (start : Standing) (asked : Option StepAsked) →
            IsWay image start asked self.old → IsWay image start asked self.new) }
        ensures took { IfOk result (λ fault. IsTaken fault self.old.execution.memory step
            self.old.execution.standing self.new.execution.standing) }
    {
        match take_noted(&mut self.execution, &mut self.notes, self.asked, step)? {
            Some(fault) => Ok(Some(fault)),
            None => {
                self.script.push(step)?;
                Ok(None)
            }
        }
    }
}
