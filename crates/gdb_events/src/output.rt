ghost use Rattle.std.specs.Prelude.{◌≡◌, ◌<◌, ◌+◌, ◌^◌, IfOk};
ghost use Rattle.machine.specs.Machine.{Running, after_rounds};
ghost use Rattle.machine.specs.Untraced.{IsUntraced};
ghost use Rattle.gdb_packets.specs.Writing.{packet_text};
ghost use Rattle.gdb_events.specs.Output.{last_told, output_answer};
ghost use Rattle.round_schedule.specs.Bounds.{AreWorkers};

use gdb_replies::{Reply, reply_text};
use machine::UntracedMachine;
use pages::OutOfMemory;
use std::alloc::Global;
use std::sync::Wait;
use std::thread::Threads;
use timelines::of_memory;

/// The most bytes of a text that are told, so that a reply, of two digits for each, is no longer than a packet may be.
const MOST_PUT_OUT: usize = 32_000;

/// Answers what the program has put out after so many rounds of the run of a machine, or the end of it where it is long. It may wait.
pub fn answer_output<R: Threads + Wait + Sync>(
    rt: &R,
    alloc: Global,
    start: &mut UntracedMachine,
    rounds: u32,
    workers: u32,
) -> Result<Vec<u8>, OutOfMemory>
    requires rounds { start.old.rounds + rounds < 2 ^ 32 }
    requires workers { AreWorkers workers }
    ensures stays { start.new ≡ start.old }
    ensures text { (m : Running) → IsUntraced m start.old → IfOk result (λ text. text.items ≡
        packet_text (output_answer (after_rounds rounds m).state.console.output)) }
{
    let mut machine = of_memory(start.share())?;
    let said = say_after(rt, alloc, &mut machine, rounds, workers);
    drop(machine);
    said
}

/// The same of a machine that does these rounds.
fn say_after<R: Threads + Wait + Sync>(
    rt: &R,
    alloc: Global,
    machine: &mut UntracedMachine,
    rounds: u32,
    workers: u32,
) -> Result<Vec<u8>, OutOfMemory>
    requires rounds { machine.old.rounds + rounds < 2 ^ 32 }
    requires workers { AreWorkers workers }
    ensures { (m : Running) → IsUntraced m machine.old → IfOk result (λ text. text.items ≡
        packet_text (output_answer (after_rounds rounds m).state.console.output)) }
{
    of_memory(machine.run(rt, rounds, workers))?;
    say_output(alloc, machine.output())
}

/// Answers with the end of some output, or that there is none.
fn say_output(alloc: Global, output: &[u8]) -> Result<Vec<u8>, OutOfMemory>
    ensures { IfOk result (λ text. text.items ≡ packet_text (output_answer output.now)) }
{
    match output {
        [] => reply_text(alloc, &Reply::Words(b"no output\n")),
        [_, ..] => reply_text(alloc, &Reply::Words(end_of(output))),
    }
}

/// The last ones of some bytes, as many as are told.
pub(crate) fn end_of<'a>(bytes: &'a [u8]) -> &'a [u8]
    ensures { result.now ≡ last_told bytes.now }
{
    let start = bytes.len().saturating_sub(MOST_PUT_OUT);
    &bytes[start..]
}
