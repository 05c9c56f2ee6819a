//! The guest of the trials: each of two harts stores to the doubleword that the other loads behind a fence.

use machine::{Format, Settings};

/// SLLI x5,x10,3; XORI x6,x5,8; ADDI x7,x0,1; SD x7,256(x5); FENCE RW,RW; LD x28,256(x6).
pub(crate) static GUEST: [u8; 24] = [
    0x93, 0x12, 0x35, 0x00, 0x13, 0xC3, 0x82, 0x00, 0x93, 0x03, 0x10, 0x00, 0x23, 0xB0, 0x72, 0x10,
    0x0F, 0x00, 0x30, 0x03, 0x03, 0x3E, 0x03, 0x10,
];

/// The report after two rounds.
pub(crate) const REPORT: &str = "rounds 2\n\
    hart 0 pc 0000000000000018 done 6 stop 3\n\
    x6 0000000000000008\n\
    x7 0000000000000001\n\
    x11 0000000000000002\n\
    x28 0000000000000001\n\
    hart 1 pc 0000000000000018 done 6 stop 3\n\
    x5 0000000000000008\n\
    x7 0000000000000001\n\
    x10 0000000000000001\n\
    x11 0000000000000002\n\
    x28 0000000000000001\n\
    memory 1\n\
    00000000 9312350013c382009303100023b07210\n\
    00000010 0f003003033e03100000000000000000\n\
    00000100 01000000000000000100000000000000\n\
    output 0\n\
    trace 6\n\
    1 0 3 p store - 00000100 8 - 0000000000000001\n\
    1 1 3 p store - 00000108 8 - 0000000000000001\n\
    1 0 4 s fence 3 3 normal\n\
    1 1 4 s fence 3 3 normal\n\
    2 0 5 p load - 00000108 8 0000000000000001 -\n\
    2 1 5 p load - 00000100 8 0000000000000001 -\n\
    end\n";

/// Two rounds of two harts.
pub(crate) static SETTINGS: Settings<'static> = Settings {
    format: Format::Flat,
    harts: 2,
    pages: 1,
    rounds: 2,
    workers: 1,
    budget: 1,
    plan: b"6\n",
};
