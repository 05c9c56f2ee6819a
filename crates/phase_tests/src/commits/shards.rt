ghost use Rattle.std.specs.Prelude.{◌≡◌, ◌<◌, ◌%◌, All, IfOk, IsTrue, length};
ghost use Rattle.commit_phase.specs.Commit.{IsWritable};
ghost use Rattle.pages.specs.Memory.{width_bytes};

use super::{buffer_of, fits};
use commit_phase::{ShardGate, commit_on};
use pages::{OutOfMemory, Pages, Piece, Store, Width};
use round_schedule::Reservations;
use std::alloc::Global;
use std::sync::atomic::AtomicU32;
use std::sync::atomic::Ordering::SeqCst;
use std::test::Fail;
use std::thread::Threads;
use store_buffer::StoreBuffer;

/// Which shards have come to the gate, bit k for shard k.
#[derive(Drop)]
struct Marks {
    passed: AtomicU32,
    done: AtomicU32,
}

impl Marks {
    fn new() -> Marks {
        Marks {
            passed: AtomicU32::new(0),
            done: AtomicU32::new(0),
        }
    }
}

impl ShardGate for Marks {
    fn pass(&self, shard: u32) {
        self.passed.fetch_or(1 << (shard % 32), SeqCst);
    }

    fn done(&self, shard: u32) {
        self.done.fetch_or(1 << (shard % 32), SeqCst);
    }
}

/// Shard 0 waits at the gate for shard 1, and shard 1 for shard 0, for a bounded number of turns.
#[derive(Drop)]
struct Meeting {
    come: AtomicU32,
    met: AtomicU32,
}

impl ShardGate for Meeting {
    fn pass(&self, shard: u32) {
        self.come.fetch_or(1 << (shard % 32), SeqCst);
        for _ in 0..100_000_000 {
            if self.come.load(SeqCst) == 3 {
                self.met.fetch_or(1 << (shard % 32), SeqCst);
                return;
            }
        }
    }

    fn done(&self, _shard: u32) {}
}

/// So many zeros.
fn zeros(alloc: Global, count: usize) -> Result<Vec<u8>, OutOfMemory>
    ensures { IfOk result (λ v. length v.items ≡ count) }
{
    Ok(vec![in alloc; 0; count]?)
}

/// Ten pages that are ready and read 0.
fn ten_pages(alloc: Global) -> Result<Pages, OutOfMemory> {
    let piece = Piece {
        start: 0,
        bytes: zeros(alloc, 40_960)?,
    };
    Pages::new(alloc, 10, &[piece], &[])
}

/// Whether the bytes of all buffers may be written.
fn all_fit(pages: &Pages, buffers: &[StoreBuffer]) -> bool
    ensures { IsTrue result → All (IsWritable pages.now) buffers.now }
{
    for buffer in buffers {
        if !fits(pages, buffer) {
            return false;
        }
    }
    true
}

/// Commits buffers, if their bytes may be written.
fn commit_all<R: Threads + Sync, G: ShardGate + Sync>(
    rt: &R,
    pages: &mut Pages,
    table: &mut Reservations,
    buffers: &[StoreBuffer],
    workers: u32,
    gate: &G,
) -> bool
    ensures { length table.new ≡ length table.old }
{
    if workers == 0 || buffers.len() > 64 || !all_fit(pages, buffers) {
        return false;
    }
    commit_on(rt, pages, table, buffers, workers, gate);
    true
}

/// A store of this number.
fn store(address: u64, width: Width, value: u64) -> Store
    requires { address % width_bytes width ≡ 0 }
    ensures { result.address % width_bytes result.width ≡ 0 }
{
    Store {
        address,
        width,
        value,
    }
}

/// Buffers of three harts: the later ones write over bytes of the first, on both sides of the end of a page, and the
/// last page has a byte of each of two. Hart 2 writes its byte twice.
fn three_buffers(alloc: Global) -> Result<Vec<StoreBuffer>, OutOfMemory> {
    let across = store(0xff8, Width::W8, 0x1111_1111_1111_1111);
    let before = store(0xffc, Width::W4, 0x2222_2222);
    let behind = store(0x1000, Width::W4, 0x3333_3333);
    let last = store(0x9fff, Width::W1, 0x55);
    let mut buffers = Vec::new(alloc);
    buffers.push(buffer_of(alloc, across, store(0x9ffe, Width::W1, 0x44))?)?;
    buffers.push(buffer_of(alloc, before, behind)?)?;
    buffers.push(buffer_of(alloc, store(0x9fff, Width::W1, 0x54), last)?)?;
    Ok(buffers)
}

/// Reservations of three harts.
fn reserved() -> Reservations
    ensures { length result ≡ 3 }
{
    let mut table = Reservations::new(3);
    table.set(0, 0xff8, Width::W8);
    table.set(1, 0x1000, Width::W4);
    table.set(2, 0x9ff0, Width::W8);
    table
}

/// Whether the bytes of the three buffers were written, in hart order.
fn are_written(pages: &Pages) -> bool {
    pages.read(0xff8, Width::W8) == Ok(0x2222_2222_1111_1111)
        && pages.read(0x1000, Width::W8) == Ok(0x3333_3333)
        && pages.read(0x9ff8, Width::W8) == Ok(0x5544_0000_0000_0000)
}

/// Hart 1 wrote bytes of hart 0's reservation, and nobody else those of the other two.
fn is_broken_for_hart_0(table: &mut Reservations) -> bool
    requires { length table.old ≡ 3 }
{
    !table.take(0, 0xff8, Width::W8)
        && table.take(1, 0x1000, Width::W4)
        && table.take(2, 0x9ff0, Width::W8)
}

/// Whether a commit by so many workers writes the same as ever, each of them with a shard.
fn writes_by<R: Threads + Sync>(
    rt: &R,
    pages: &mut Pages,
    buffers: &[StoreBuffer],
    workers: u32,
) -> bool
    requires { workers < 32 }
{
    let mut table = reserved();
    let marks = Marks::new();
    let all = (1u32 << workers) - 1;
    commit_all(rt, pages, &mut table, buffers, workers, &marks)
        && are_written(pages)
        && is_broken_for_hart_0(&mut table)
        && marks.passed.load(SeqCst) == all
        && marks.done.load(SeqCst) == all
}

#[test]
fn any_number_of_workers_writes_the_same(rt: HostRuntime) -> Result<(), Fail> {
    let buffers = three_buffers(rt.alloc())?;
    for workers in 1..17 {
        let mut pages = ten_pages(rt.alloc())?;
        let writes = writes_by(&rt, &mut pages, &buffers, workers);
        drop(pages);
        assert!(rt; writes, "{workers}");
    }
    Ok(())
}

/// Whether two shards meet in the commit of these buffers by two workers.
fn meet<R: Threads + Sync>(rt: &R, pages: &mut Pages, buffers: &[StoreBuffer]) -> bool {
    let mut table = Reservations::new(3);
    let meeting = Meeting {
        come: AtomicU32::new(0),
        met: AtomicU32::new(0),
    };
    commit_all(rt, pages, &mut table, buffers, 2, &meeting) && meeting.met.load(SeqCst) == 3
}

#[test]
fn two_shards_run_at_once(rt: HostRuntime) -> Result<(), Fail> {
    let buffers = three_buffers(rt.alloc())?;
    let mut pages = ten_pages(rt.alloc())?;
    assert!(rt; meet(&rt, &mut pages, &buffers));
    Ok(())
}

#[test]
fn an_empty_shard_has_a_worker(rt: HostRuntime) -> Result<(), Fail> {
    let mut pages = ten_pages(rt.alloc())?;
    assert!(rt; meet(&rt, &mut pages, &[]));
    Ok(())
}
