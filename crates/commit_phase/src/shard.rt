ghost use Rattle.std.specs.Prelude.{◌≡◌, ◌+◌, ◌<◌, ◌≤◌, ◌^◌, All, map, length};
ghost use Rattle.store_buffer.specs.Covered.{stores_of};
ghost use Rattle.commit_phase.specs.Commit.{all_buffered};
ghost use Rattle.commit_phase.specs.Shards.{IsShardReady, ShardWritten};

use crate::buffered::Buffered;
use crate::part::write_line;
use pages::Part;
use store_buffer::StoreBuffer;

/// Writes the bytes of one buffer that lie in a shard, which is some pages in a row from page `first` on.
pub(crate) fn write_shard(parts: &mut [Part], first: u64, buffer: &StoreBuffer)
    requires first { first + length parts.old ≤ 2 ^ 60 }
    requires ready { IsShardReady first parts.old buffer.now }
    ensures { ShardWritten first (stores_of buffer.now) parts.old parts.new }
{
    // A hart that waits for a lock has often stored nothing.
    if buffer.is_empty() {
        return;
    }
    let end = first + parts.len() as u64;
    for (start, line) in buffer.lines() {
        let page = start / 4096;
        if page < first {
            continue;
        }
        if page >= end {
            continue;
        }
        write_line(&mut parts[(page - first) as usize], start % 4096, line);
    }
}

/// Writes the bytes of all buffers that lie in a shard, in hart order.
pub(crate) fn write_all<B: Buffered>(parts: &mut [Part], first: u64, rounds: &[B])
    requires first { first + length parts.old ≤ 2 ^ 60 }
    requires ready { All (IsShardReady first parts.old) (map B.bytes rounds.now) }
    ensures { ShardWritten first (all_buffered (map B.bytes rounds.now)) parts.old parts.new }
{
    for round in rounds {
        write_shard(parts, first, round.buffer());
    }
}
