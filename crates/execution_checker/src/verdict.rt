use execution::{ScriptedStep, StepFault};
use refusal_reasons::Refusal;
use round_schedule::Event;
use std::fmt;

/// What is found of a script and an order.
#[derive(Clone, Copy, PartialEq, Eq)]
pub enum Verdict {
    /// RVWMO allows the execution that the script leads to, in this order of its memory operations.
    Allowed,
    /// It does not, for this reason.
    Refused(Refusal),
    /// The hart of the step at this index of the script has no next one.
    Broken { index: usize, fault: StepFault },
}

impl Verdict {
    /// The reason in one line for people, where the script and the events are those that the verdict is on; nothing for `Allowed`.
    pub fn reason<'a>(self, script: &'a [ScriptedStep], events: &'a [Event]) -> Reason<'a> {
        Reason {
            verdict: self,
            script,
            events,
        }
    }
}

/// Why a verdict isn't `Allowed`.
#[derive(Clone, Copy)]
pub struct Reason<'a> {
    verdict: Verdict,
    script: &'a [ScriptedStep],
    events: &'a [Event],
}

impl fmt::Display for Reason<'_> {
    fn fmt<W: fmt::Write>(&self, f: &mut fmt::Formatter<W>) -> fmt::Result {
        match self.verdict {
            Verdict::Allowed => Ok(()),
            Verdict::Refused(refusal) => {
                let line = refusal.line(self.events);
                write!(f, "{line}")
            }
            Verdict::Broken { index, fault } => {
                let hart = hart_at(self.script, index);
                let number = steps_before(self.script, index, hart);
                let why = words_of(fault);
                write!(f, "step {number} of hart {hart}: {why}")
            }
        }
    }
}

/// The hart of the step at an index.
fn hart_at(script: &[ScriptedStep], index: usize) -> u8 {
    match script.get(index) {
        Some(step) => step.hart,
        None => 0,
    }
}

/// How many steps of a hart stand before an index.
fn steps_before(script: &[ScriptedStep], index: usize, hart: u8) -> usize {
    script
        .iter()
        .take(index)
        .filter(|step| step.hart == hart)
        .count()
}

fn words_of(fault: StepFault) -> &'static str {
    match fault {
        StepFault::NoSuchHart => "there is no such hart",
        StepFault::RoundFalls => "its round is before that of an earlier step",
        StepFault::HasStopped => "the hart has stopped",
        StepFault::OtherNumber { .. } => "it reads another number",
    }
}
