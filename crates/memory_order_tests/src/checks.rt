//! What the checker says of orders of hand-made traces.

use crate::made::Made::{
    Atomic, Conditional, Fence, Load, LoadHalf, Release, Reserve, Store, StoreByte, StoreFence,
    TotalFence,
};
use crate::made::{Row, events_of, trace_of};
use memory_order::{Order, check_order};
use pages::Piece;
use std::alloc::Global;
use std::test::Fail;
use trace::Phase::{Parallel, Serial};
use trace::Trace;

/// What a trace is of, its events, and orders of them, by their indexes, with whether each is met.
type Case = (
    &'static str,
    &'static [Row],
    &'static [(&'static [usize], bool)],
);

static CASES: [Case; 18] = [
    (
        "each of two harts misses the other's store",
        &[
            (1, 0, Parallel, Store(3, 0x100, 1)),
            (1, 0, Parallel, Load(4, 0x108, 0)),
            (1, 1, Parallel, Store(3, 0x108, 1)),
            (1, 1, Parallel, Load(4, 0x100, 0)),
        ],
        &[
            (&[1, 3, 0, 2], true),
            (&[1, 3, 2, 0], true),
            (&[0, 1, 2, 3], false),
            (&[1, 3, 0], false),
            (&[1, 3, 0, 2, 2], false),
            (&[1, 3, 0, 4], false),
        ],
    ),
    (
        "a load may see its hart's store before others do",
        &[
            (1, 0, Parallel, Store(2, 0x100, 5)),
            (1, 0, Parallel, Load(3, 0x100, 5)),
            (1, 1, Parallel, Store(2, 0x100, 6)),
            (1, 1, Parallel, Load(3, 0x100, 6)),
        ],
        &[
            (&[1, 3, 0, 2], true),
            (&[0, 1, 2, 3], true),
            (&[2, 0, 1, 3], false),
        ],
    ),
    (
        "a byte is from the hart's latest store that covers it",
        &[
            (1, 0, Parallel, Store(1, 0x100, 0x1122_3344_5566_7788)),
            (1, 0, Parallel, StoreByte(2, 0x103, 0xaa)),
            (1, 0, Parallel, LoadHalf(3, 0x102, 0xaa66)),
        ],
        &[(&[0, 1, 2], true), (&[2, 0, 1], true), (&[1, 0, 2], false)],
    ),
    (
        "a byte is from another hart's latest store that covers it",
        &[
            (1, 0, Parallel, Store(1, 0x100, 0x1122_3344_5566_7788)),
            (1, 0, Parallel, StoreByte(2, 0x103, 0xaa)),
            (1, 1, Parallel, LoadHalf(3, 0x102, 0x5566)),
        ],
        &[(&[0, 2, 1], true), (&[0, 1, 2], false), (&[2, 0, 1], false)],
    ),
    (
        "no other hart stores between an LR and its SC",
        &[
            (1, 0, Serial, Reserve(1, 0)),
            (1, 1, Serial, Store(1, 0x100, 7)),
            (1, 0, Serial, Conditional(2, Some(1))),
        ],
        &[(&[0, 2, 1], true), (&[0, 1, 2], false), (&[1, 0, 2], false)],
    ),
    (
        "another hart stores before an LR that sees it",
        &[
            (1, 0, Serial, Reserve(1, 7)),
            (1, 1, Serial, Store(1, 0x100, 7)),
            (1, 0, Serial, Conditional(2, Some(1))),
        ],
        &[(&[1, 0, 2], true), (&[0, 1, 2], false)],
    ),
    (
        "the hart's own store may stand between an LR and its SC",
        &[
            (1, 0, Serial, Reserve(1, 0)),
            (1, 0, Serial, Store(2, 0x100, 7)),
            (1, 0, Serial, Conditional(3, Some(1))),
        ],
        &[(&[0, 1, 2], true), (&[0, 2, 1], false)],
    ),
    (
        "an SC that failed is no operation",
        &[
            (1, 0, Serial, Reserve(2, 0)),
            (1, 1, Parallel, Store(2, 0x100, 0x100)),
            (1, 0, Serial, Conditional(3, None)),
        ],
        &[(&[0, 1], true), (&[0, 1, 2], false), (&[1, 0], false)],
    ),
    (
        "a store may pass no load behind a fence",
        &[
            (1, 0, Parallel, Store(1, 0x100, 1)),
            (1, 0, Parallel, Fence(2)),
            (1, 0, Parallel, Load(3, 0x108, 0)),
        ],
        &[(&[0, 2], true), (&[2, 0], false)],
    ),
    (
        "a store may pass a load behind a fence of total order",
        &[
            (1, 0, Parallel, Store(1, 0x100, 1)),
            (1, 0, Parallel, TotalFence(2)),
            (1, 0, Parallel, Load(3, 0x108, 0)),
        ],
        &[(&[0, 2], true), (&[2, 0], true)],
    ),
    (
        "a store may pass a load behind a fence of stores",
        &[
            (1, 0, Parallel, Store(1, 0x100, 1)),
            (1, 0, Parallel, StoreFence(2)),
            (1, 0, Parallel, Load(3, 0x108, 0)),
        ],
        &[(&[2, 0], true)],
    ),
    (
        "stores may pass one another",
        &[
            (1, 0, Parallel, Store(1, 0x100, 1)),
            (1, 0, Parallel, Store(3, 0x108, 1)),
        ],
        &[(&[1, 0], true)],
    ),
    (
        "stores may not pass one another over a fence of stores",
        &[
            (1, 0, Parallel, Store(1, 0x100, 1)),
            (1, 0, Parallel, StoreFence(2)),
            (1, 0, Parallel, Store(3, 0x108, 1)),
        ],
        &[(&[0, 2], true), (&[2, 0], false)],
    ),
    (
        "stores may not pass one another over a fence of total order",
        &[
            (1, 0, Parallel, Store(1, 0x100, 1)),
            (1, 0, Parallel, TotalFence(2)),
            (1, 0, Parallel, Store(3, 0x108, 1)),
        ],
        &[(&[2, 0], false)],
    ),
    (
        "a release stands after all before it",
        &[
            (1, 0, Parallel, Store(1, 0x100, 1)),
            (1, 0, Serial, Release(2)),
        ],
        &[(&[0, 1], true), (&[1, 0], false)],
    ),
    (
        "an AMO that is no release may pass a store",
        &[
            (1, 0, Parallel, Store(1, 0x100, 1)),
            (1, 0, Serial, Atomic(2)),
        ],
        &[(&[1, 0], true)],
    ),
    (
        "a load stands before what follows",
        &[
            (1, 0, Parallel, Load(1, 0x100, 0)),
            (1, 0, Parallel, Store(2, 0x108, 1)),
        ],
        &[(&[0, 1], true), (&[1, 0], false)],
    ),
    (
        "an AMO stands before what follows",
        &[(1, 0, Serial, Atomic(1)), (1, 0, Serial, Load(2, 0x100, 0))],
        &[(&[0, 1], true), (&[1, 0], false)],
    ),
];

/// Whether these indexes are an order that is met, if memory doesn't run out.
fn is_met(alloc: Global, trace: &Trace, indexes: &[usize]) -> Option<bool> {
    let indexes = Vec::from_slice(alloc, indexes).ok()?;
    check_order(alloc, trace, &Order(indexes)).ok()
}

/// The number of the first order of which the checker says otherwise than is wanted, if there is any.
fn first_other(alloc: Global, trace: &Trace, orders: &[(&[usize], bool)]) -> Option<usize> {
    for (number, (indexes, wanted)) in orders.iter().enumerate() {
        if is_met(alloc, trace, indexes) != Some(*wanted) {
            return Some(number);
        }
    }
    None
}

#[test]
fn orders_are_met_or_not(rt: HostRuntime) -> Result<(), Fail> {
    for (name, rows, orders) in &CASES {
        let trace = trace_of(rt.alloc(), rows).ok_or("a trace")?;
        let other = first_other(rt.alloc(), &trace, orders);
        drop(trace);
        assert_eq!(rt; other, None, "{name}");
    }
    Ok(())
}

/// A load of what memory has at first, before another hart stores there.
static OPENING: [Row; 2] = [
    (1, 0, Parallel, Load(1, 0x100, 0x107)),
    (1, 1, Parallel, Store(1, 0x100, 9)),
];

/// The trace of these events over memory that has 7 and 1 at 0x100.
fn trace_over_bytes(alloc: Global) -> Option<Trace> {
    let piece = Piece {
        start: 0x100,
        bytes: Vec::from_slice(alloc, &[7, 1]).ok()?,
    };
    let mut pieces = Vec::new(alloc);
    pieces.push(piece).ok()?;
    Trace::of(pieces, events_of(alloc, &OPENING)?)
}

#[test]
fn a_byte_may_be_the_opening_one(rt: HostRuntime) -> Result<(), Fail> {
    let trace = trace_over_bytes(rt.alloc()).ok_or("a trace")?;
    let other = first_other(rt.alloc(), &trace, &[(&[0, 1], true), (&[1, 0], false)]);
    drop(trace);
    assert_eq!(rt; other, None);
    Ok(())
}
