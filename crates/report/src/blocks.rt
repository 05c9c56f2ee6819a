//! The lines of memory and of the events in blocks, which several workers format beside each other.

ghost use Rattle.std.specs.Prelude.{◌≡◌, ◌<◌, ◌≤◌, []};
ghost use denote.Param.Send.{IsSync};
ghost use Rattle.report.specs.Blocks.{body_text};
ghost use Rattle.report.specs.Pending.{Puts};
ghost use Rattle.report.specs.RunStates.{body_of};

use crate::block::PutBody;
use crate::cut::Cut;
use crate::formatting::Formatting;
use crate::putting::put_all_blocks;
use crate::run_state::RunState;
use host_io::{RunError, Sink};
use round_schedule::MOST_WORKERS;
use std::alloc::Global;
use std::marker::Brand;
use std::sync::Wait;
use std::thread::{self, Threads};
use trace::Trace;

/// Puts the blocks on the calling thread, with so many other threads that format them.
#[cycle(workers)]
fn put_with<B: PutBody + Send + Sync, S: Sink, R: Threads + Wait + Sync>(
    rt: &R,
    others: usize,
    formatting: &Formatting<'_, B>,
    out: &mut S,
) -> Result<(), RunError>
    ensures { Puts S.took S.failures (body_text B.bytes B.output B.events) out.old [] result
        out.new [] }
{
    if others == 0 {
        put_all_blocks::<B, S, R>(rt, formatting, out)
    } else {
        put_beside(rt, others - 1, formatting, out)
    }
}

/// Starts one thread that formats blocks, and puts them with so many further ones. Where the thread can't be started, its work
/// comes last, and finds none left.
#[cycle(workers)]
fn put_beside<B: PutBody + Send + Sync, S: Sink, R: Threads + Wait + Sync>(
    rt: &R,
    others: usize,
    formatting: &Formatting<'_, B>,
    out: &mut S,
) -> Result<(), RunError>
    ensures { Puts S.took S.failures (body_text B.bytes B.output B.events) out.old [] result
        out.new [] }
{
    let mut theirs = || formatting.work(rt);
    let mut ours = || -> Result<(), RunError>
        requires { IsSync R.row × IsSync B.row }
        ensures { Puts S.took S.failures (body_text B.bytes B.output B.events) out.entry.now []
            result out.exit.now [] }
    { put_with(rt, others, formatting, out) };
    thread::join_mut(rt, &mut theirs, &mut ours).1
}

/// Puts what the brand names. The threads are started once for all blocks: on a busy machine a new thread may wait longer for a
/// processor than a block takes.
fn put_body_of<B: PutBody + Send + Sync, S: Sink, R: Threads + Wait + Sync>(
    rt: &R,
    workers: usize,
    alloc: Global,
    out: &mut S,
    cut: Cut,
    state: &RunState<'_>,
    trace: &Trace,
) -> Result<(), RunError>
    requires bytes { state.now.pages.now.memory.bytes ≡ B.bytes }
    requires output { state.now.output.now ≡ B.output }
    requires events { trace.now.events ≡ B.events }
    requires some { 0 < workers }
    requires few { workers ≤ MOST_WORKERS }
    ensures { Puts S.took S.failures (body_of state.now trace.now.events) out.old [] result
        out.new [] }
{
    let formatting = Formatting::<B>::new(alloc, cut, state, trace, workers);
    // The calling thread is a worker, and one without a block isn't needed.
    let others = workers.min(formatting.blocks()).saturating_sub(1);
    put_with(rt, others, &formatting, out)
}

/// Puts the lines of memory, the output and the events, by so many workers, with at most two blocks for each of them in memory at
/// a time.
pub(crate) fn put_body<S: Sink, R: Threads + Wait + Sync>(
    rt: &R,
    workers: usize,
    alloc: Global,
    out: &mut S,
    cut: Cut,
    state: &RunState<'_>,
    trace: &Trace,
) -> Result<(), RunError>
    requires some { 0 < workers }
    requires few { workers ≤ MOST_WORKERS }
    ensures { Puts S.took S.failures (body_of state.now trace.now.events) out.old [] result
        out.new [] }
{
    put_body_of::<Brand, S, R>(rt, workers, alloc, out, cut, state, trace)
}
