//! Replies, with sums worked out by hand.

use gdb_replies::{
    FileReply, Reason, Registers, Reply, StopReply, ThreadNote, Window, target_description,
    write_reply,
};
use host_io::{RunError, WriteSink};
use round_schedule::Phase;
use std::alloc::Global;
use std::test::Fail;

/// What runs in the parallel phase of round 3.
const RUNNING: ThreadNote = ThreadNote {
    hart: 1,
    round: 3,
    phase: Phase::Parallel,
    place: 45,
    waits: false,
    uncommitted: 0,
    stop: None,
};

const WAITING: ThreadNote = ThreadNote {
    waits: true,
    uncommitted: 8,
    ..RUNNING
};

const ENDED: ThreadNote = ThreadNote {
    hart: 0,
    stop: Some((1, 10)),
    ..RUNNING
};

/// A stop of thread 2.
const STOPPED: StopReply = StopReply {
    reason: Reason::Breakpoint,
    thread: 2,
    pc: 0x10b0,
    sp: 0,
    fp: 0x1ff0,
};

const PART: Window<'static> = Window {
    text: b"abcd",
    offset: 2,
    count: 9,
};

/// Replies, and the packets that they are written as.
static REPLIES: [(Reply<'static>, &[u8]); 15] = [
    (Reply::Unknown, b"$#00"),
    (Reply::Done, b"$OK#9a"),
    (Reply::Refused(20), b"$E.error 20#1f"),
    (Reply::Thread(1), b"$QC00000001#15"),
    (Reply::Threads(2), b"$m00000001,00000002#9c"),
    (Reply::Memory(&[1, 255]), b"$01ff#2d"),
    (Reply::Checksum(0x0376_e6e7), b"$C0376e6e7#4a"),
    (Reply::File(FileReply::Failed(2)), b"$F-1,2#02"),
    (
        Reply::File(FileReply::Bytes(b"a#")),
        b"$F0000000000000002;a}\x03#64",
    ),
    (Reply::Words(b"ok\n"), b"$6f6b0a#c5"),
    (
        Reply::Note(RUNNING),
        b"$6861727420312c20726f756e6420332c20706172616c6c656c2c20706c616365203435#d2",
    ),
    (
        Reply::Note(WAITING),
        b"$6861727420312c20726f756e6420332c20706172616c6c656c2c20706c6163652034352c2077616974732c2038206279746573206e6f7420636f6d6d6974746564#77",
    ),
    (Reply::Note(ENDED), b"$6861727420302c2065786974203130#42"),
    (
        Reply::Stopped(STOPPED),
        b"$T05swbreak:;20:b010000000000000;02:0000000000000000;08:f01f000000000000;thread:00000002;#b7",
    ),
    (Reply::Part(PART), b"$lcd#33"),
];

/// The packet that a reply is written as.
fn packet_of(alloc: Global, reply: &Reply<'_>) -> Result<Vec<u8>, RunError> {
    let mut text = Vec::new(alloc);
    write_reply(alloc, reply, &mut WriteSink::new(&mut text))?;
    Ok(text)
}

#[test]
fn replies_are_written(rt: HostRuntime) -> Result<(), Fail> {
    for (reply, expected) in &REPLIES {
        let text = packet_of(rt.alloc(), reply)?;
        assert!(rt; text.as_slice() == *expected, "{expected:?}");
    }
    Ok(())
}

/// Registers whose numbers tell them apart.
const REGISTERS: Registers = Registers {
    x: [0; 32],
    pc: 1,
    round: 2,
    place: 3,
    phase: 1,
};

#[test]
fn registers_come_in_the_order_of_their_description(rt: HostRuntime) -> Result<(), Fail> {
    let text = packet_of(rt.alloc(), &Reply::Registers(&REGISTERS))?;
    // `$`, 36 numbers of 16 digits, `#` and two digits.
    assert_eq!(rt; text.len(), 580);
    let pc = &text[513..531];
    assert!(rt; pc == b"010000000000000002".as_slice());
    // Each register is described by one element.
    assert!(rt; target_description().starts_with(b"<?xml version=\"1.0\"?>"));
    Ok(())
}
