//! Requests, as gdb-multiarch 13.1 sends them to a program for RISC-V, and as gdb's manual has them in appendix E.

use gdb_packets::{Command, FileRequest, Request, Watch, request_of};

/// What is asked of a stop, of threads, of files and of memory.
static QUESTIONS: [(&[u8], Request); 31] = [
    (
        b"qSupported:multiprocess+;swbreak+;hwbreak+",
        Request::Features,
    ),
    (
        b"qXfer:features:read:target.xml:0,ffb",
        Request::Description(0, 4091),
    ),
    (b"?", Request::WhyStopped),
    (
        b"qXfer:threads:read::1000,ff",
        Request::ThreadList(0x1000, 255),
    ),
    (b"qfThreadInfo", Request::FirstThreads),
    (b"qsThreadInfo", Request::MoreThreads),
    (b"qThreadExtraInfo,2", Request::Note(2)),
    (b"qC", Request::PresentThread),
    (b"qCRC:1000,4", Request::Checksum(0x1000, 4)),
    (
        b"qXfer:exec-file:read::0,1000",
        Request::ImageName(0, 0x1000),
    ),
    (
        b"qXfer:exec-file:read:a410:0,1000",
        Request::ImageName(0, 0x1000),
    ),
    (b"vFile:setfs:0", Request::File(FileRequest::Root)),
    (
        b"vFile:open:2f7265636f7264696e672f696d616765,0,0",
        Request::File(FileRequest::OpenImage),
    ),
    (
        b"vFile:open:2f7265636f7264696e672f696d61676573,0,0",
        Request::File(FileRequest::OpenOther),
    ),
    (
        b"vFile:pread:1,10000,7d00",
        Request::File(FileRequest::Read(1, 0x10000, 32_000)),
    ),
    (b"qRcmd,7768657265", Request::Command(Command::Where)),
    (b"qRcmd,776865726520", Request::Command(Command::Unknown)),
    (b"qRcmd,6576656e74", Request::Command(Command::Event)),
    (
        b"qRcmd,7265736572766174696f6e73",
        Request::Command(Command::Reservations),
    ),
    (b"qAttached:1", Request::Attached),
    (b"Hg0", Request::SelectGeneral(None)),
    (b"Hg2", Request::SelectGeneral(Some(2))),
    (b"Hc-1", Request::SelectMoving(None)),
    (b"T40", Request::IsAlive(64)),
    (b"g", Request::ReadRegisters),
    (b"p21", Request::ReadRegister(33)),
    (b"m20008,40", Request::ReadMemory(0x20008, 64)),
    (b"m20008", Request::Unknown),
    (b"M20008,1:00", Request::Change),
    (b"P2=0000000000000000", Request::Change),
    (b"vMustReplyEmpty", Request::Unknown),
];

#[test]
fn questions_are_read(rt: HostRuntime) {
    for (payload, expected) in &QUESTIONS {
        assert!(rt; request_of(payload) == *expected, "{payload:?}");
    }
}

/// What is set by words.
static SETTINGS: [(&[u8], Command); 11] = [
    (b"qRcmd,68697473206f6e", Command::HitsOn),
    (b"qRcmd,68697473206f6666", Command::HitsOff),
    (b"qRcmd,68697473", Command::Unknown),
    (b"qRcmd,676f746f203132", Command::GotoRound(12)),
    (
        b"qRcmd,676f746f20312031203135",
        Command::GotoPlace(1, 1, 15),
    ),
    (b"qRcmd,676f746f20656e64", Command::GotoEnd),
    (b"qRcmd,676f746f", Command::Unknown),
    (b"qRcmd,676f746f20", Command::Unknown),
    (b"qRcmd,676f746f20312031", Command::Unknown),
    (b"qRcmd,676f746f2031203120313520", Command::Unknown),
    (
        b"qRcmd,676f746f2031303030303030303030303030303030303030303030",
        Command::Unknown,
    ),
];

#[test]
fn settings_are_read(rt: HostRuntime) {
    for (payload, expected) in &SETTINGS {
        assert!(rt;
            request_of(payload) == Request::Command(*expected),
            "{payload:?}"
        );
    }
}

/// Breakpoints, watchpoints and moves.
static MOVES: [(&[u8], Request); 25] = [
    (b"Z0,10b0,4", Request::AddStop(0x10b0)),
    (b"z0,10b0,4", Request::RemoveStop(0x10b0)),
    (b"Z1,10b0,4", Request::AddHardwareStop(0x10b0)),
    (b"z1,10b0,4", Request::RemoveHardwareStop(0x10b0)),
    (b"Z2,20000,8", Request::AddWatch(Watch::Write, 0x20000, 8)),
    (b"z3,20000,8", Request::RemoveWatch(Watch::Read, 0x20000, 8)),
    (b"Z4,20000,8", Request::AddWatch(Watch::Access, 0x20000, 8)),
    (b"Z5,20000,8", Request::Unknown),
    (b"Z0,ffffffffffffffff,4", Request::AddStop(u64::MAX)),
    (b"Z0,10000000000000000,4", Request::Unknown),
    (b"vCont?", Request::Actions),
    (b"vCont;c", Request::Continue),
    (b"vCont;C05:1;c", Request::Continue),
    (b"vCont;s:2;c", Request::Step(2)),
    (b"vCont;s:2", Request::StepAlone(2)),
    (b"vCont;S05:2", Request::StepAlone(2)),
    (b"vCont;r10b0,10c8:2;c", Request::StepIn(0x10b0, 0x10c8, 2)),
    (b"vCont;r10b0,10c8:2", Request::StepAlone(2)),
    (b"vCont;r10b0:2;c", Request::Unknown),
    (b"bs", Request::StepBack),
    (b"bc", Request::ContinueBack),
    (b"D", Request::Detach),
    (b"vKill;a410", Request::Detach),
    (b"k", Request::Kill),
    (b"", Request::Unknown),
];

#[test]
fn moves_are_read(rt: HostRuntime) {
    for (payload, expected) in &MOVES {
        assert!(rt; request_of(payload) == *expected, "{payload:?}");
    }
}
