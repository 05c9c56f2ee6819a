ghost use Rattle.std.specs.Prelude.{◌≡◌, length, IfOk};
ghost use Rattle.parallel_phase.specs.Rounds.{IsWholeRound};
ghost use Rattle.round_schedule.specs.Bounds.{AreWorkers};

use crate::claimed_round::HartRound;
use crate::gate::Gate;
use crate::run_starts::RunStarts;
use crate::working::work_all;
use hart_rounds::RoundStart;
use pages::OutOfMemory;
use run_book::RunBook;
use std::sync::Wait;
use std::thread::Threads;

/// Gathers the rounds of all harts, by 1 to 16 workers, in a book for one round. The calling thread is one of them.
///
/// With Ok each hart stands in the history once, with its round from this start. How many workers there were, and which of
/// them did which hart, makes no difference to it. It may wait.
///
/// # Errors
///
/// A worker was refused memory. The start is only read.
// docs/decisions/shared-book.md
pub fn gather<S: RunStarts + Send + Sync, G: Gate + Sync, R: Threads + Wait + Sync>(
    rt: &R,
    start: &RoundStart<'_>,
    workers: u32,
    gate: &G,
) -> Result<Vec<HartRound<S>>, OutOfMemory>
    requires start { start.now ≡ S.starts 0 }
    requires workers { AreWorkers workers }
    ensures { IfOk result (λ es. IsWholeRound 0 (length start.now.harts) es.items) }
{
    let alloc = start.pages().allocator();
    let harts = start.harts().len();
    let blank = Vec::with_capacity(alloc, harts)?;
    let (book, mut seat, mut others) = RunBook::<HartRound<S>>::open_for_run(
        alloc,
        harts as u32,
        workers,
    )?;
    work_all(rt, start, 0, &book, gate, &mut seat, others.as_mut_slice());
    let Some(history) = book.take_whole(rt, &mut seat, blank) else {
        return Err(OutOfMemory);
    };
    Ok(history)
}
