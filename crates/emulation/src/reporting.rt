ghost use Rattle.std.specs.Prelude.{◌≡◌, ◌<◌};
ghost use Rattle.host_io.specs.Taken.{WritesText};
ghost use Rattle.report.specs.Report.{report_of};

use host_io::{RunError, Sink};
use machine::{Machine, UntracedMachine};
use report::{RunState, write_state, write_state_on};
use std::alloc::Global;
use std::sync::Wait;
use std::thread::Threads;

/// The report of a machine. It stands here and not at `Machine`, which waits for no text.
pub trait Report {
    /// Writes the report of the state.
    ///
    /// # Errors
    ///
    /// `OutOfMemory` and `SinkFailed`; a beginning of the report is written then.
    fn report<S: Sink>(&self, alloc: Global, out: &mut S) -> Result<(), RunError>;
}

impl Report for Machine {
    fn report<S: Sink>(&self, alloc: Global, out: &mut S) -> Result<(), RunError>
        ensures { WritesText (report_of self.now.state) (S.took out.old) (S.failures out.old) result
            (S.took out.new) (S.failures out.new) }
    {
        write_state(alloc, &state_of(self), self.trace(), out)
    }
}

/// Writes the report of a machine, with the lines of its events formatted by so many workers, though by no more than 16.
///
/// # Errors
///
/// As `report`.
pub fn report_on<S: Sink, R: Threads + Wait + Sync>(
    rt: &R,
    workers: u32,
    alloc: Global,
    machine: &Machine,
    out: &mut S,
) -> Result<(), RunError>
    ensures { WritesText (report_of machine.now.state) (S.took out.old) (S.failures out.old) result
        (S.took out.new) (S.failures out.new) }
{
    write_state_on(rt, workers, alloc, &state_of(machine), machine.trace(), out)
}

/// What a run has come to, for its report.
fn state_of(machine: &Machine) -> RunState<'_>
    ensures rounds { result.rounds ≡ machine.now.state.rounds }
    ensures harts { result.harts.now ≡ machine.now.state.harts }
    ensures bytes { result.pages.now.memory.bytes ≡ machine.now.state.bytes }
    ensures output { result.output.now ≡ machine.now.state.console.output }
{
    RunState {
        rounds: machine.rounds(),
        harts: machine.harts(),
        pages: machine.pages(),
        output: machine.output(),
    }
}

/// The same of a run that keeps no trace.
pub(crate) fn untraced_state_of(machine: &UntracedMachine) -> RunState<'_>
    ensures rounds { result.rounds ≡ machine.now.rounds }
    ensures harts { result.harts.now ≡ machine.now.harts }
    ensures bytes { result.pages.now.memory.bytes ≡ machine.now.bytes }
    ensures output { result.output.now ≡ machine.now.console.output }
{
    RunState {
        rounds: machine.rounds(),
        harts: machine.harts(),
        pages: machine.pages(),
        output: machine.output(),
    }
}
