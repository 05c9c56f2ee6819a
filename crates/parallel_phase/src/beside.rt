//! Work on the items of a list, side by side.

ghost use Rattle.std.specs.Prelude.{All};
ghost use denote.Param.Send.{IsSync, IsSend};

use std::thread::{self, Threads};

/// What is done to an item of a list.
pub(crate) trait Work<T> {
    // What it asks of an item, and what it makes of it.
    ghost asks: { Self → T → Type 0 };

    ghost leaves: { Self → T → T → Type 0 };

    /// Does it to one item. Threads do it to several items at once.
    fn work(&self, item: &mut T)
        requires { asks self.now item.old }
        ensures { leaves self.now item.old item.new };
}

/// Does the work on one item on the calling thread, and on each of the others on a thread of its own. The calling thread starts the
/// other threads, so that none of them waits for one that is itself to be started. Where a thread can't be started, the calling
/// thread does its work.
// docs/decisions/threads.md
#[cycle(others)]
pub(crate) fn work_on_each<R: Threads + Sync, T: Send, W: Work<T> + Sync>(
    rt: &R,
    w: &W,
    own: &mut T,
    others: &mut [T],
)
    requires own { W.asks w.now own.old }
    requires others { All (W.asks w.now) others.old }
    ensures { W.leaves w.now own.old own.new }
{
    let Some((item, later)) = others.split_first_mut() else {
        w.work(own);
        return;
    };
    work_beside(rt, w, own, item, later);
}

/// Does the work on an item on a thread of its own, and on the others.
#[cycle(others)]
fn work_beside<R: Threads + Sync, T: Send, W: Work<T> + Sync>(
    rt: &R,
    w: &W,
    own: &mut T,
    item: &mut T,
    others: &mut [T],
)
    requires own { W.asks w.now own.old }
    requires item { W.asks w.now item.old }
    requires others { All (W.asks w.now) others.old }
    ensures { W.leaves w.now own.old own.new }
{
    let mut theirs = ||
        requires { IsSync W.row × IsSend T.row × W.asks w.now item.now }
    { w.work(item) };
    let mut ours = ||
        requires { IsSync R.row × IsSync W.row × IsSend T.row × W.asks w.now own.now ×
            All (W.asks w.now) others.now }
        ensures { W.leaves w.entry.now own.entry.now own.exit.now }
    { work_on_each(rt, w, own, others) };
    thread::join_mut(rt, &mut theirs, &mut ours);
}
