//! Watchpoints that come and go.

ghost use Rattle.std.specs.Prelude.{◌≡◌, IfOk};
ghost use Rattle.std.specs.List.{list_any};
ghost use Rattle.gdb_talk.specs.Stops.{kind_number, kind_of, same_watch, watch_of, with_watch, without_watch};

use gdb_packets::Watch;
use pages::{OutOfMemory, Range};
use std::alloc::Global;
use watching::{WatchKind, Watchpoint};

/// The watchpoint that is asked for.
pub(crate) fn watch_of(kind: Watch, address: u64, count: u64) -> Watchpoint
    ensures { result ≡ watch_of kind address count }
{
    Watchpoint {
        kind: kind_of(kind),
        range: Range {
            start: address,
            len: count,
        },
    }
}

fn kind_of(kind: Watch) -> WatchKind
    ensures { result ≡ kind_of kind }
{
    match kind {
        Watch::Write => WatchKind::Changes,
        Watch::Read => WatchKind::Reads,
        Watch::Access => WatchKind::Accesses,
    }
}

fn kind_number(kind: WatchKind) -> u32
    ensures { result ≡ kind_number kind }
{
    match kind {
        WatchKind::Changes => 0,
        WatchKind::Reads => 1,
        WatchKind::Accesses => 2,
    }
}

/// Whether two watchpoints are one.
fn is_same(watch: &Watchpoint, other: &Watchpoint) -> bool
    ensures { result ≡ same_watch watch.now other.now }
{
    kind_number(watch.kind) == kind_number(other.kind)
        && watch.range.start == other.range.start
        && watch.range.len == other.range.len
}

/// Whether a watchpoint is among these.
fn has_watch(watches: &[Watchpoint], watch: &Watchpoint) -> bool
    ensures { result ≡ list_any (same_watch watch.now) watches.now }
{
    watches.iter().any(|other| is_same(watch, other))
}

/// The watchpoints with this one.
pub(crate) fn with_watch(
    alloc: Global,
    watches: &[Watchpoint],
    watch: Watchpoint,
) -> Result<Vec<Watchpoint>, OutOfMemory>
    ensures { IfOk result (λ v. v.items ≡ with_watch watches.now watch) }
{
    let mut changed = Vec::from_slice(alloc, watches)?;
    if !has_watch(watches, &watch) {
        changed.push(watch)?;
    }
    Ok(changed)
}

/// The watchpoints without this one.
pub(crate) fn without_watch(
    alloc: Global,
    watches: &[Watchpoint],
    watch: Watchpoint,
) -> Result<Vec<Watchpoint>, OutOfMemory>
    ensures { IfOk result (λ v. v.items ≡ without_watch watches.now watch) }
{
    let mut changed = Vec::new(alloc);
    for other in watches {
        if !is_same(&watch, other) {
            changed.push(*other)?;
        }
    }
    Ok(changed)
}
