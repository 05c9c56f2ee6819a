ghost use Rattle.std.specs.Prelude.{◌≡◌};
ghost use Rattle.gdb_packets.specs.Grammar.{asking_of, change_of, going_of, moving_of, query_of, reading_of, request_of, resume_of, signalled_by, watching_of, way_of};
ghost use Rattle.gdb_packets.specs.Fields.{alone, by_two, two_numbers};
ghost use Rattle.gdb_packets.specs.declared.request.Request.TheVariants as requests;

use crate::commands::command_of;
use crate::fields::{behind, number_from, thread_of, two_numbers};
use crate::files::{file_of, name_of};
use crate::request::{Request, Watch};
use crate::steps::{range_of, step_of};

/// What a packet's payload asks for.
pub fn request_of(text: &[u8]) -> Request
    ensures { result ≡ request_of text.now }
{
    if let Some(rest) = behind(b"q", text) {
        return query_of(rest);
    }
    if let Some(rest) = behind(b"v", text) {
        return resume_of(rest);
    }
    change_of(text)
}

/// A query, behind its `q`.
fn query_of(text: &[u8]) -> Request
    ensures { result ≡ query_of text.now }
{
    if let Some(_) = behind(b"Supported", text) {
        return Request::Features;
    }
    if let Some(rest) = behind(b"Xfer:features:read:target.xml:", text) {
        return match two_numbers(rest) {
            Some((offset, count)) => Request::Description(offset, count),
            None => Request::Unknown,
        };
    }
    if let Some(rest) = behind(b"Xfer:threads:read::", text) {
        return match two_numbers(rest) {
            Some((offset, count)) => Request::ThreadList(offset, count),
            None => Request::Unknown,
        };
    }
    if let Some(rest) = behind(b"Xfer:exec-file:read:", text) {
        return name_of(rest);
    }
    if let Some(rest) = behind(b"CRC:", text) {
        return match two_numbers(rest) {
            Some((address, count)) => Request::Checksum(address, count),
            None => Request::Unknown,
        };
    }
    asking_of(text)
}

/// A query about threads, or what the user says, behind its `q`.
fn asking_of(text: &[u8]) -> Request
    ensures { result ≡ asking_of text.now }
{
    if let Some(rest) = behind(b"Rcmd,", text) {
        return Request::Command(command_of(rest));
    }
    if let Some(_) = behind(b"fThreadInfo", text) {
        return Request::FirstThreads;
    }
    if let Some(_) = behind(b"sThreadInfo", text) {
        return Request::MoreThreads;
    }
    if let Some(rest) = behind(b"ThreadExtraInfo,", text) {
        return match thread_of(rest) {
            Some(thread) => Request::Note(thread),
            None => Request::Unknown,
        };
    }
    if let Some(_) = behind(b"Attached", text) {
        return Request::Attached;
    }
    if let Some(rest) = behind(b"C", text) {
        return alone(Request::PresentThread, rest);
    }
    Request::Unknown
}

/// A request whose word has nothing behind it.
fn alone(request: Request, rest: &[u8]) -> Request
    ensures { result ≡ alone request rest.now }
{
    match rest {
        [] => request,
        [_, ..] => Request::Unknown,
    }
}

/// A way to go on, or something of files, behind its `v`.
fn resume_of(text: &[u8]) -> Request
    ensures { result ≡ resume_of text.now }
{
    if let Some(_) = behind(b"Cont?", text) {
        return Request::Actions;
    }
    if let Some(rest) = behind(b"Cont;s", text) {
        return step_of(rest);
    }
    if let Some(rest) = behind(b"Cont;S", text) {
        return match number_from(0, rest) {
            Some((_, rest)) => step_of(rest),
            None => Request::Unknown,
        };
    }
    if let Some(rest) = behind(b"Cont;r", text) {
        return range_of(rest);
    }
    going_of(text)
}

/// A way to go on without steps, an end, or something of files, behind its `v`.
fn going_of(text: &[u8]) -> Request
    ensures { result ≡ going_of text.now }
{
    if let Some(_) = behind(b"Cont;c", text) {
        return Request::Continue;
    }
    if let Some(_) = behind(b"Cont;C", text) {
        return Request::Continue;
    }
    if let Some(_) = behind(b"Kill", text) {
        return Request::Detach;
    }
    if let Some(rest) = behind(b"File:", text) {
        return file_of(rest);
    }
    Request::Unknown
}

/// A request that is no query and no way to go on: one to change something, or one of the others.
fn change_of(text: &[u8]) -> Request
    ensures { result ≡ change_of text.now }
{
    if let Some(_) = behind(b"G", text) {
        return Request::Change;
    }
    if let Some(_) = behind(b"P", text) {
        return Request::Change;
    }
    if let Some(_) = behind(b"M", text) {
        return Request::Change;
    }
    if let Some(_) = behind(b"X", text) {
        return Request::Change;
    }
    reading_of(text)
}

/// A request to read something, or one of the others.
fn reading_of(text: &[u8]) -> Request
    ensures { result ≡ reading_of text.now }
{
    if let Some(_) = behind(b"?", text) {
        return Request::WhyStopped;
    }
    if let Some(rest) = behind(b"Hg", text) {
        return Request::SelectGeneral(thread_of(rest));
    }
    if let Some(rest) = behind(b"Hc", text) {
        return Request::SelectMoving(thread_of(rest));
    }
    if let Some(rest) = behind(b"T", text) {
        return match thread_of(rest) {
            Some(thread) => Request::IsAlive(thread),
            None => Request::Unknown,
        };
    }
    if let Some(_) = behind(b"g", text) {
        return Request::ReadRegisters;
    }
    if let Some(rest) = behind(b"p", text) {
        return match number_from(0, rest) {
            Some((register, _)) => Request::ReadRegister(register),
            None => Request::Unknown,
        };
    }
    if let Some(rest) = behind(b"m", text) {
        return match two_numbers(rest) {
            Some((address, count)) => Request::ReadMemory(address, count),
            None => Request::Unknown,
        };
    }
    moving_of(text)
}

/// A breakpoint, or one of the others.
fn moving_of(text: &[u8]) -> Request
    ensures { result ≡ moving_of text.now }
{
    if let Some(rest) = behind(b"Z0,", text) {
        return match number_from(0, rest) {
            Some((address, _)) => Request::AddStop(address),
            None => Request::Unknown,
        };
    }
    if let Some(rest) = behind(b"z0,", text) {
        return match number_from(0, rest) {
            Some((address, _)) => Request::RemoveStop(address),
            None => Request::Unknown,
        };
    }
    if let Some(rest) = behind(b"Z1,", text) {
        return match number_from(0, rest) {
            Some((address, _)) => Request::AddHardwareStop(address),
            None => Request::Unknown,
        };
    }
    if let Some(rest) = behind(b"z1,", text) {
        return match number_from(0, rest) {
            Some((address, _)) => Request::RemoveHardwareStop(address),
            None => Request::Unknown,
        };
    }
    watching_of(text)
}

/// A watchpoint, or one of the others.
fn watching_of(text: &[u8]) -> Request
    ensures { result ≡ watching_of text.now }
{
    if let Some(rest) = behind(b"Z2,", text) {
        return added(Watch::Write, rest);
    }
    if let Some(rest) = behind(b"z2,", text) {
        return removed(Watch::Write, rest);
    }
    if let Some(rest) = behind(b"Z3,", text) {
        return added(Watch::Read, rest);
    }
    if let Some(rest) = behind(b"z3,", text) {
        return removed(Watch::Read, rest);
    }
    if let Some(rest) = behind(b"Z4,", text) {
        return added(Watch::Access, rest);
    }
    if let Some(rest) = behind(b"z4,", text) {
        return removed(Watch::Access, rest);
    }
    way_of(text)
}

/// A watchpoint that is added, by its address and how many bytes it is on.
fn added(watch: Watch, text: &[u8]) -> Request
    ensures { result ≡ by_two (requests.AddWatch watch) (two_numbers text.now) }
{
    match two_numbers(text) {
        Some((address, count)) => Request::AddWatch(watch, address, count),
        None => Request::Unknown,
    }
}

/// A watchpoint that is removed, likewise.
fn removed(watch: Watch, text: &[u8]) -> Request
    ensures { result ≡ by_two (requests.RemoveWatch watch) (two_numbers text.now) }
{
    match two_numbers(text) {
        Some((address, count)) => Request::RemoveWatch(watch, address, count),
        None => Request::Unknown,
    }
}

/// A way back or an end, or nothing that is known.
fn way_of(text: &[u8]) -> Request
    ensures { result ≡ way_of text.now }
{
    if let Some(_) = behind(b"bs", text) {
        return Request::StepBack;
    }
    if let Some(_) = behind(b"bc", text) {
        return Request::ContinueBack;
    }
    if let Some(_) = behind(b"D", text) {
        return Request::Detach;
    }
    if let Some(_) = behind(b"k", text) {
        return Request::Kill;
    }
    Request::Unknown
}
