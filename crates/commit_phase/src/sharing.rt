ghost use Rattle.std.specs.Prelude.{◌<◌, ◌≤◌, ◌+◌, length, map, All};
ghost use Rattle.commit_phase.specs.Commit.{CommitsBuffers, IsWritable, all_buffered};
ghost use Rattle.commit_phase.specs.Shards.{IsShardReady, ShardWritten};

use crate::buffered::Buffered;
use crate::gate::ShardGate;
use crate::in_turn::break_all;
use crate::shard::write_all;
use pages::{MOST_PAGES, Pages, Part};
use round_schedule::{MOST_HARTS, MOST_WORKERS, Reservations};
use std::thread::{Threads, for_each_chunk_mut, for_each_mut, join_mut};

/// Does what `commit` does, with so many workers.
///
/// Each worker has a shard of guest memory, some pages in a row, and writes the bytes of all buffers that lie in it.
/// With z the least whole number that is not under the number of pages divided by the number of workers, shard k is
/// pages k z to (k + 1) z - 1, as far as they exist. The calling thread is a worker, and does the shards of which no
/// thread could be started. Takes no memory.
pub fn commit_on<R: Threads + Sync, B: Buffered + Sync, G: ShardGate + Sync>(
    rt: &R,
    pages: &mut Pages,
    reservations: &mut Reservations,
    rounds: &[B],
    workers: u32,
    gate: &G,
)
    requires some_workers { 1 ≤ workers }
    requires few { length rounds.now ≤ MOST_HARTS }
    requires writable { All (IsWritable pages.old) (map B.bytes rounds.now) }
    ensures { CommitsBuffers (map B.bytes rounds.now) pages.old pages.new reservations.old
        reservations.new }
{
    let count = pages.count();
    let size = count.div_ceil(workers).max(1);
    let unready = pages.unready();
    write_beside(rt, pages.parts(), size as usize, rounds, workers, gate);
    pages.keep_unready(unready);
    break_all(reservations, rounds);
}

/// Writes the bytes of all buffers, shard by shard, and tells the gate of the shards that have no page, each on a thread of
/// its own where one can be started.
fn write_beside<R: Threads + Sync, B: Buffered + Sync, G: ShardGate + Sync>(
    rt: &R,
    parts: &mut [Part],
    size: usize,
    rounds: &[B],
    workers: u32,
    gate: &G,
)
    requires size { 0 < size }
    requires few { length parts.old ≤ MOST_PAGES }
    requires ready { All (IsShardReady 0 parts.old) (map B.bytes rounds.now) }
    ensures { ShardWritten 0 (all_buffered (map B.bytes rounds.now)) parts.old parts.new }
{
    let empty = parts.len().div_ceil(size) as u32;
    if empty >= workers {
        write_shards(rt, parts, size, rounds, gate);
        return;
    }
    join_mut(
        rt,
        &mut || pass_empty(rt, empty, workers, gate),
        &mut ||
            requires size { 0 < size }
            requires few { length parts.now ≤ MOST_PAGES }
            requires ready { All (IsShardReady 0 parts.now) (map B.bytes rounds.now) }
        { write_shards(rt, parts, size, rounds, gate) },
    );
}

/// Writes the bytes of all buffers, shard by shard, each on a thread of its own where one can be started.
fn write_shards<R: Threads + Sync, B: Buffered + Sync, G: ShardGate + Sync>(
    rt: &R,
    parts: &mut [Part],
    size: usize,
    rounds: &[B],
    gate: &G,
)
    requires size { 0 < size }
    requires few { length parts.old ≤ MOST_PAGES }
    requires ready { All (IsShardReady 0 parts.old) (map B.bytes rounds.now) }
    ensures { ShardWritten 0 (all_buffered (map B.bytes rounds.now)) parts.old parts.new }
{
    for_each_chunk_mut(
        rt,
        parts,
        size,
        &|start, shard| { write_one(shard, start, size, rounds, gate) },
    );
}

/// Writes the bytes of all buffers that lie in one shard, between the gate's two calls.
fn write_one<B: Buffered, G: ShardGate>(
    shard: &mut [Part],
    start: usize,
    size: usize,
    rounds: &[B],
    gate: &G,
)
    requires size { 0 < size }
    requires few { start + length shard.old ≤ MOST_PAGES }
    requires ready { All (IsShardReady start shard.old) (map B.bytes rounds.now) }
    ensures { ShardWritten start (all_buffered (map B.bytes rounds.now)) shard.old shard.new }
{
    let number = (start / size) as u32;
    gate.pass(number);
    write_all(shard, start as u64, rounds);
    gate.done(number);
}

/// Tells the gate of the shards that have no page, each on a thread of its own where one can be started.
fn pass_empty<R: Threads + Sync, G: ShardGate + Sync>(rt: &R, first: u32, workers: u32, gate: &G) {
    let mut numbers = [0; MOST_WORKERS as usize];
    let count = workers.saturating_sub(first).min(MOST_WORKERS);
    for (index, number) in numbers.iter_mut().enumerate() {
        *number = first.saturating_add(index as u32);
    }
    for_each_mut(
        rt,
        &mut numbers[..count as usize],
        MOST_WORKERS as usize,
        &|_, number| pass_one(*number, gate),
    );
}

/// Tells the gate of a shard that has no page.
fn pass_one<G: ShardGate>(number: u32, gate: &G) {
    gate.pass(number);
    gate.done(number);
}
