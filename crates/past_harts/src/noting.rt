ghost use Rattle.std.specs.Prelude.{◌≡◌};
ghost use Rattle.machine.specs.Answers.{AnswersRun};
ghost use Rattle.machine.specs.Untraced.{AreAdded, AreLast, IsAfter};

use host_io::RunError;
use machine::{Unobserved, UntracedMachine};
use std::sync::Wait;
use std::thread::Threads;
use trace::Trace;

/// Does what `UntracedMachine::run` does, and adds the events of these rounds to a trace that holds the last events of the run.
/// It may be empty.
///
/// # Errors
///
/// Those of `UntracedMachine::run`. The trace has the events of the rounds that are done.
pub fn run_noting<R: Threads + Wait + Sync>(
    rt: &R,
    machine: &mut UntracedMachine,
    rounds: u32,
    workers: u32,
    trace: &mut Trace,
) -> Result<(), RunError>
    requires { AreLast machine.old trace.old.events }
    ensures last { AreLast machine.new trace.new.events }
    ensures answers { AnswersRun rounds workers machine.old.rounds machine.new.rounds
        (λ k. IsAfter k machine.old machine.new ×
        AreAdded k machine.old trace.old.events trace.new.events)
        ((machine.new ≡ machine.old) × (trace.new.events ≡ trace.old.events)) result }
    ensures opening { trace.new.opening ≡ trace.old.opening }
{
    machine.check_to_go_on();
    machine.run_keeping(rt, rounds, workers, trace, &mut Unobserved)
}
