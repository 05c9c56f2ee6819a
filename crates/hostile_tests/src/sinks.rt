//! Sinks that fail or take little at a time, under each call that writes a text.

use crate::devices::{Stride, Tray, calls_to_write, writes};
use crate::harness::settings;
use emulation::emulate;
use hart_step::{Hart, Stop};
use host_io::{RunError, Sink, WriteSink};
use hunt_table::{merge, read_table, write_table};
use machine::Trace;
use pages::{OutOfMemory, Pages, Piece, Width};
use picture::{Scene, View, write_picture};
use recording::{read_recording, write_recording};
use report::{RunState, write_event, write_hart, write_order, write_state, write_state_on};
use round_schedule::{Access, Event, Phase};
use std::alloc::Global;
use std::sync::Wait;
use std::test::Fail;
use std::thread::Threads;

const STRIDES: [Stride; 2] = [Stride::One, Stride::All];

const ALL_STRIDES: [Stride; 3] = [Stride::One, Stride::Hundred, Stride::All];

/// ADDI x5,x10,5; ADD x6,x5,x5; SD x6,256(x0); LD x7,256(x0); ADDI x17,x0,0; ECALL.
const STORES_AND_LOADS: &[u8] = b"\x93\x02\x55\0\x33\x83\x52\0\x23\x30\x60\x10\
    \x83\x33\0\x10\x93\x08\0\0\x73\0\0\0";

const REPORT: &str = "rounds 1\n\
    hart 0 pc 0000000000000014 done 5 exit 0000000000000000\n\
    x5 0000000000000005\n\
    x6 000000000000000a\n\
    x7 000000000000000a\n\
    x11 0000000000000002\n\
    hart 1 pc 0000000000000014 done 5 exit 0000000000000001\n\
    x5 0000000000000006\n\
    x6 000000000000000c\n\
    x7 000000000000000c\n\
    x10 0000000000000001\n\
    x11 0000000000000002\n\
    memory 1\n\
    00000000 93025500338352002330601083330010\n\
    00000010 93080000730000000000000000000000\n\
    00000100 0c000000000000000000000000000000\n\
    output 0\n\
    trace 4\n\
    1 0 2 p store - 00000100 8 - 000000000000000a\n\
    1 0 3 p load - 00000100 8 000000000000000a -\n\
    1 1 2 p store - 00000100 8 - 000000000000000c\n\
    1 1 3 p load - 00000100 8 000000000000000c -\n\
    end\n";

/// ADDI x17,x0,0; ECALL.
const EXITS: &[u8] = b"\x93\x08\0\0\x73\0\0\0";

const EXITS_REPORT: &str = "rounds 1\n\
    hart 0 pc 0000000000000004 done 1 exit 0000000000000000\n\
    x11 0000000000000002\n\
    hart 1 pc 0000000000000004 done 1 exit 0000000000000001\n\
    x10 0000000000000001\n\
    x11 0000000000000002\n\
    memory 1\n\
    00000000 93080000730000000000000000000000\n\
    output 0\n\
    trace 0\n\
    end\n";

/// Whether all ways of the report of a run into a sink that fails are told, and those through the adapter of writers.
fn reports_run<R: Threads + Wait + Sync>(
    rt: &R,
    alloc: Global,
    image: &[u8],
    plan: &[u8],
    report: &str,
) -> bool {
    let asked = settings(plan);
    let text = report.as_bytes();
    let by_itself = |tray: &mut Tray| emulate(rt, alloc, image, &[], &asked, tray);
    let adapted = |tray: &mut Tray| emulate(
        rt,
        alloc,
        image,
        &[],
        &asked,
        &mut WriteSink::new(tray),
    );
    writes(alloc, text, &STRIDES, &by_itself) && writes(alloc, text, &ALL_STRIDES, &adapted)
}

#[test]
fn reports(rt: HostRuntime) {
    assert!(rt; reports_run(&rt, rt.alloc(), STORES_AND_LOADS, b"6\n", REPORT));
    assert!(rt; reports_run(&rt, rt.alloc(), EXITS, b"4\n", EXITS_REPORT));
    assert_eq!(rt; RunError::SinkFailed.number(), 21);
}

/// An event of the parallel phase of round 1.
fn event(hart: u8, access: Access) -> Event {
    Event {
        access,
        round: 1,
        hart,
        phase: Phase::Parallel,
    }
}

fn store(address: u64) -> Access {
    Access::Store {
        width: Width::W8,
        place: 3,
        address,
        written: 1,
    }
}

fn load(address: u64, read: u64) -> Access {
    Access::Load {
        width: Width::W8,
        place: 4,
        address,
        read,
    }
}

/// A hart that stopped with exit code 0 after one instruction, with 2 in x11.
fn hart() -> Hart {
    let mut x = [0; 32];
    x[11] = 2;
    Hart {
        x,
        pc: 4,
        done: 1,
        stop: Some(Stop { code: 1, value: 0 }),
    }
}

const HART: &str =
    "hart 0 pc 0000000000000004 done 1 exit 0000000000000000\nx11 0000000000000002\n";

#[test]
fn lines(rt: HostRuntime) {
    let (alloc, hart, event) = (rt.alloc(), hart(), event(0, store(0x100)));
    let of_hart = |tray: &mut Tray| write_hart(alloc, 0, &hart, tray);
    assert!(rt; writes(alloc, HART.as_bytes(), &STRIDES, &of_hart));
    let of_event = |tray: &mut Tray| write_event(alloc, &event, tray);
    let text = b"1 0 3 p store - 00000100 8 - 0000000000000001\n";
    assert!(rt; writes(alloc, text, &STRIDES, &of_event));
}

/// The trace of these events, over memory of zeros.
fn trace_of(alloc: Global, events: &[Event]) -> Result<Trace, Fail> {
    Ok(Trace::of(Vec::new(alloc), events.to_vec(alloc)?).ok_or("a trace")?)
}

/// Three pages, with few bytes on the second.
fn three_pages(alloc: Global) -> Result<Pages, OutOfMemory> {
    let piece = Piece {
        start: 0x1010,
        bytes: [1, 0, 0xab].to_vec(alloc)?,
    };
    Pages::new(alloc, 3, &[piece], &[])
}

const STATE: &str = "rounds 1\n\
    hart 0 pc 0000000000000004 done 1 exit 0000000000000000\n\
    x11 0000000000000002\n\
    memory 3\n\
    00001010 0100ab00000000000000000000000000\n\
    output 33\n\
    4141414141414141414141414141414141414141414141414141414141414141\n\
    41\n\
    trace 1\n\
    1 0 3 p store - 00000100 8 - 0000000000000001\n\
    end\n";

/// Whether a state and a trace are written as that text, by the calling thread and by any number of workers: more than 16 are as
/// good as 16, and none as one.
fn writes_state<R: Threads + Wait + Sync>(
    rt: &R,
    alloc: Global,
    pages: &Pages,
    trace: &Trace,
) -> bool {
    let state = RunState {
        rounds: 1,
        harts: &[hart()],
        pages,
        output: &[0x41; 33],
    };
    let alone = |tray: &mut Tray| write_state(alloc, &state, trace, tray);
    let none = |tray: &mut Tray| write_state_on(rt, 0, alloc, &state, trace, tray);
    let many = |tray: &mut Tray| write_state_on(rt, 1_000, alloc, &state, trace, tray);
    let text = STATE.as_bytes();
    writes(alloc, text, &STRIDES, &alone)
        && writes(alloc, text, &STRIDES, &none)
        && writes(alloc, text, &STRIDES, &many)
}

#[test]
fn states(rt: HostRuntime) -> Result<(), Fail> {
    let pages = three_pages(rt.alloc())?;
    let trace = trace_of(rt.alloc(), &[event(0, store(0x100))])?;
    assert!(rt; writes_state(&rt, rt.alloc(), &pages, &trace));
    Ok(())
}

/// Each of two harts stores to the doubleword that the other loads.
fn crossed() -> [Event; 4] {
    [
        event(0, store(0x100)),
        event(0, load(0x108, 0)),
        event(1, store(0x108)),
        event(1, load(0x100, 0)),
    ]
}

const ORDER: &str = "order 4\n\
    1 0 4 p load - 00000108 8 0000000000000000 -\n\
    1 1 4 p load - 00000100 8 0000000000000000 -\n\
    1 0 3 p store - 00000100 8 - 0000000000000001\n\
    1 1 3 p store - 00000108 8 - 0000000000000001\n\
    checked yes\n";

const ORDER_OF_A_LOAD: &str = "order 1\n\
    1 0 4 p load - 00000100 8 0000000000000007 -\n\
    checked no\n";

/// Whether the order of these events, over memory of zeros, is written as this text.
fn writes_as(alloc: Global, events: &[Event], order: &str) -> Result<bool, Fail> {
    let trace = trace_of(alloc, events)?;
    let write = |tray: &mut Tray| write_order(alloc, &trace, tray);
    Ok(writes(alloc, order.as_bytes(), &STRIDES, &write))
}

#[test]
fn orders(rt: HostRuntime) -> Result<(), Fail> {
    assert!(rt; writes_as(rt.alloc(), &crossed(), ORDER)?);
    // Nobody stored what it loads.
    assert!(rt; writes_as(rt.alloc(), &[event(0, load(0x100, 7))], ORDER_OF_A_LOAD)?);
    Ok(())
}

/// One hart that exits after one instruction, recorded after one round, in version 2.
const RECORDING: &[u8] = b"RVDETREC\x02\0\0\0\x01\x01\0\0\0\x01\0\0\0\x01\0\0\0\x01\0\0\0\0\0\0\0\
    \x08\0\0\0\0\0\0\0\x93\x08\0\0\x73\0\0\0\
    \0\0\0\0\0\0\0\0\
    \x02\0\0\0\0\0\0\04\n\
    \0\0\0\0\0\0\0\0\0\0\0\0\0\0\0\0\
    \x04\0\0\0\0\0\0\0\x01\0\0\0\0\0\0\0\x01\0\0\0\0\0\0\0\0";

/// Whether a text is read as a recording, and written so again.
fn writes_recording(alloc: Global, text: &[u8]) -> bool {
    let Ok(recording) = read_recording(alloc, text) else {
        return false;
    };
    let write = |tray: &mut Tray| write_recording(alloc, &recording, tray);
    writes(alloc, text, &STRIDES, &write)
}

#[test]
fn recordings(rt: HostRuntime) {
    assert!(rt; writes_recording(rt.alloc(), RECORDING));
}

const TABLE: &str = "plans 0 5 seed 1\n\
    endings 2\n\
    ending 1 plans 3 first 0\n\
    hart 0 exit 0000000000000000\n\
    see 00000100 2 0100\n\
    output 3 \"hi\\n\"\n\
    ending 2 bad plans 2 first 1\n\
    hart 0 stop 3\n\
    see 00000100 2 ff7f\n\
    output 0 \"\"\n\
    end\n";

/// Whether a text is read as a table, and written so again.
fn writes_table(alloc: Global, text: &[u8]) -> bool {
    let Ok(table) = read_table(alloc, text) else {
        return false;
    };
    let write = |tray: &mut Tray| write_table(
        alloc,
        &table.header,
        table.header.count,
        &table.rows,
        tray,
    );
    writes(alloc, text, &STRIDES, &write)
}

#[test]
fn tables(rt: HostRuntime) {
    assert!(rt; writes_table(rt.alloc(), TABLE.as_bytes()));
}

/// The number by which no tables at all are refused, which no command line can name, where nothing is written.
fn refused_by(alloc: Global) -> Option<u32> {
    let mut out = Vec::new(alloc);
    let number = merge(alloc, &[], &mut WriteSink::new(&mut out))
        .err()?
        .number();
    if out.is_empty() { Some(number) } else { None }
}

#[test]
fn no_tables_are_refused(rt: HostRuntime) {
    assert_eq!(rt; refused_by(rt.alloc()), Some(72));
}

/// Writes the picture of a trace, of whose harts nothing is known.
fn draw_trace<S: Sink>(
    alloc: Global,
    trace: &Trace,
    view: &View<'_>,
    out: &mut S,
) -> Result<(), RunError> {
    let scene = Scene {
        trace,
        starts: &[],
        ends: &[],
        sites: &[],
    };
    write_picture(alloc, &scene, view, out)
}

/// The whole picture of a trace.
fn picture_of(alloc: Global, trace: &Trace, view: &View<'_>) -> Result<Vec<u8>, RunError> {
    let mut text = Vec::new(alloc);
    draw_trace(alloc, trace, view, &mut WriteSink::new(&mut text))?;
    Ok(text)
}

/// Whether a trace has a picture, and that is written so.
fn writes_picture(alloc: Global, trace: &Trace) -> Result<bool, RunError> {
    let view = View {
        ranges: &[],
        from: 1,
        to: 1,
    };
    let text = picture_of(alloc, trace, &view)?;
    let draw = |tray: &mut Tray| draw_trace(alloc, trace, &view, tray);
    Ok(
        text.starts_with(b"<svg")
            && text.ends_with(b"</svg>\n")
            && calls_to_write(alloc, &text, Stride::One, &draw) == Some(text.len())
            && writes(alloc, &text, &[Stride::Hundred, Stride::All], &draw),
    )
}

#[test]
fn pictures(rt: HostRuntime) -> Result<(), Fail> {
    let trace = trace_of(rt.alloc(), &crossed())?;
    assert!(rt; writes_picture(rt.alloc(), &trace) == Ok(true));
    Ok(())
}
