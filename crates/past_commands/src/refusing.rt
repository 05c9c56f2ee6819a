ghost use Rattle.past_commands.specs.Refused.{IsRefusedFor};

use machine::Unobserved;
use program_files::{CommandFailure, NamingFault};
use recording::Recording;
use replayer::{Rounds, watch_rounds};
use std::alloc::Global;
use std::sync::Wait;
use std::thread::Threads;

/// Why a recording isn't asked about bytes of which this is wrong: what refuses its run comes before.
pub(crate) fn refused_for<R: Threads + Wait + Sync>(
    threads: &R,
    alloc: Global,
    recorded: &Recording,
    workers: u32,
    fault: NamingFault,
) -> CommandFailure
    ensures { IsRefusedFor fault workers recorded.now result }
{
    let no_rounds = Rounds { first: 0, last: 0 };
    match watch_rounds(
        threads,
        alloc,
        recorded,
        &[],
        no_rounds,
        workers,
        &mut Unobserved,
    ) {
        Ok(_) => CommandFailure::Naming(fault),
        Err(error) => CommandFailure::from(error),
    }
}
