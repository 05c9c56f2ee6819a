ghost use Rattle.std.specs.Prelude.{◌≡◌, ◌++◌, ◌∷◌, [], ◌+◌, ◌<◌, ◌^◌, IfOk, None, OnOk, codes};
ghost use Rattle.std.specs.Fmt.{decimal};
ghost use Rattle.std.specs.List.{flat_map};
ghost use Rattle.hex.specs.Hex.{encode_lower};
ghost use Rattle.gdb_replies.specs.declared.reply.Reply.TheVariants as replies;
ghost use Rattle.gdb_replies.specs.Replies.{checksum_text, features_text, note_text, part_text, payload_of, phase_word, place_text, reason_text, state_text, stop_text, uncommitted_text, waits_text};
ghost use Rattle.gdb_replies.specs.Words.{address_text, register_text, registers_text, thread_text, threads_text};

use crate::file_payload::put_file;
use crate::note::ThreadNote;
use crate::registers::Registers;
use crate::reply::Reply;
use crate::stop_reply::{Reason, StopReply};
use crate::text::{put, put_address, put_hex, put_number, put_register, put_thread, put_words};
use crate::window::Window;
use pages::OutOfMemory;
use round_schedule::Phase;
use std::alloc::Global;

/// The bytes of a reply.
pub(crate) fn payload_of(alloc: Global, reply: &Reply<'_>) -> Result<Vec<u8>, OutOfMemory>
    ensures { IfOk result (λ text. text.items ≡ payload_of reply.now) }
{
    let mut text = Vec::new(alloc);
    put_payload(&mut text, reply)?;
    Ok(text)
}

/// Adds the bytes of a reply.
fn put_payload(text: &mut Vec<u8>, reply: &Reply<'_>) -> Result<(), OutOfMemory>
    requires empty { text.old.items ≡ [] }
    ensures { OnOk result (text.new.items ≡ text.old.items ++ payload_of reply.now) }
{
    match reply {
        Reply::Unknown => Ok(()),
        Reply::Done => put(text, b"OK"),
        Reply::Missing => put(text, b"E01"),
        Reply::Refused(number) => put_refusal(text, *number),
        Reply::PastStands => put(text, b"E.the past of a recording cannot be changed"),
        Reply::ExecutionStands => put(text, b"E.the past of an execution cannot be changed"),
        Reply::Features(has_image) => put_features(text, *has_image),
        Reply::Actions => put(text, b"vCont;c;C;s;S;r"),
        Reply::Attached => put(text, b"1"),
        Reply::Registers(registers) => put_registers(text, registers),
        Reply::Register(value) => put_register(text, *value),
        Reply::Memory(bytes) => put_hex(text, bytes),
        Reply::Stopped(stop) => put_stop(text, stop),
        Reply::Threads(count) => put_threads(text, *count),
        Reply::NoMoreThreads => put(text, b"l"),
        Reply::Thread(thread) => put_present(text, *thread),
        Reply::Note(note) => put_note(text, note),
        Reply::Console(words) => put_console(text, words),
        Reply::Part(window) => put_part(text, window),
        Reply::Checksum(sum) => put_checksum(text, *sum),
        Reply::File(file) => put_file(text, file),
        Reply::Words(words) => put_hex(text, words),
    }
}

/// Adds what of the protocol is offered. A packet is of 65,536 bytes at most.
fn put_features(text: &mut Vec<u8>, has_image: bool) -> Result<(), OutOfMemory>
    ensures { OnOk result (text.new.items ≡ text.old.items ++ features_text has_image) }
{
    put(
        text,
        b"PacketSize=10000;qXfer:features:read+;qXfer:threads:read+;",
    )?;
    if has_image {
        put(text, b"qXfer:exec-file:read+;")?;
    }
    put(
        text,
        b"ReverseStep+;ReverseContinue+;swbreak+;hwbreak+;vContSupported+",
    )
}

/// Adds a checksum.
fn put_checksum(text: &mut Vec<u8>, sum: u32) -> Result<(), OutOfMemory>
    ensures { OnOk result (text.new.items ≡ text.old.items ++ checksum_text sum) }
{
    put(text, b"C")?;
    put_hex(text, sum.to_be_bytes().as_slice())
}

fn put_refusal(text: &mut Vec<u8>, number: u32) -> Result<(), OutOfMemory>
    ensures { OnOk result (text.new.items ≡
        text.old.items ++ payload_of (replies.Refused number)) }
{
    put(text, b"E.error ")?;
    put_number(text, u64::from(number))
}

fn put_registers(text: &mut Vec<u8>, registers: &Registers) -> Result<(), OutOfMemory>
    ensures { OnOk result (text.new.items ≡ text.old.items ++ registers_text registers.now) }
{
    put_each(text, registers.x.as_slice())?;
    let others = [
        registers.pc,
        registers.round,
        registers.place,
        registers.phase,
    ];
    put_each(text, others.as_slice())
}

/// Adds registers' values.
fn put_each(text: &mut Vec<u8>, values: &[u64]) -> Result<(), OutOfMemory>
    ensures { OnOk result (text.new.items ≡
        text.old.items ++ flat_map register_text values.now) }
{
    for value in values {
        put_register(text, *value)?;
    }
    Ok(())
}

fn put_stop(text: &mut Vec<u8>, stop: &StopReply) -> Result<(), OutOfMemory>
    ensures { OnOk result (text.new.items ≡ text.old.items ++ stop_text stop.now) }
{
    put_reason(text, stop.reason)?;
    put_named(text, b"20:", stop.pc)?;
    put_named(text, b";02:", stop.sp)?;
    put_named(text, b";08:", stop.fp)?;
    put_thread_of_stop(text, stop.thread)
}

/// Adds a register's value behind its name.
fn put_named(text: &mut Vec<u8>, name: &[u8], value: u64) -> Result<(), OutOfMemory>
    ensures { OnOk result (text.new.items ≡
        text.old.items ++ (name.now ++ register_text value)) }
{
    put(text, name)?;
    put_register(text, value)
}

fn put_thread_of_stop(text: &mut Vec<u8>, thread: u32) -> Result<(), OutOfMemory>
    ensures { OnOk result (text.new.items ≡
        text.old.items ++ (codes ";thread:" ++ thread_text thread ++ codes ";")) }
{
    put(text, b";thread:")?;
    put_thread(text, thread)?;
    put(text, b";")
}

fn put_reason(text: &mut Vec<u8>, reason: Reason) -> Result<(), OutOfMemory>
    ensures { OnOk result (text.new.items ≡ text.old.items ++ reason_text reason) }
{
    match reason {
        Reason::Step => put(text, b"T05"),
        Reason::Breakpoint => put(text, b"T05swbreak:;"),
        Reason::HardwareBreakpoint => put(text, b"T05hwbreak:;"),
        Reason::Watch(address) => put_watch(text, b"T05watch:", address),
        Reason::ReadWatch(address) => put_watch(text, b"T05rwatch:", address),
        Reason::AccessWatch(address) => put_watch(text, b"T05awatch:", address),
        Reason::Signal(number) => put_signal(text, number),
        Reason::Begin => put(text, b"T05replaylog:begin;"),
        Reason::End => put(text, b"T05replaylog:end;"),
    }
}

fn put_watch(text: &mut Vec<u8>, word: &[u8], address: u64) -> Result<(), OutOfMemory>
    ensures { OnOk result (text.new.items ≡
        text.old.items ++ (word.now ++ address_text address ++ codes ";")) }
{
    put(text, word)?;
    put_address(text, address)?;
    put(text, b";")
}

fn put_signal(text: &mut Vec<u8>, number: u8) -> Result<(), OutOfMemory>
    ensures { OnOk result (text.new.items ≡
        text.old.items ++ (codes "T" ++ encode_lower (number ∷ []))) }
{
    put(text, b"T")?;
    put_hex(text, [number].as_slice())
}

#[tactic(auto, unfolding(crate::specs::Words::threads_text))]
fn put_threads(text: &mut Vec<u8>, count: u32) -> Result<(), OutOfMemory>
    requires empty { text.old.items ≡ [] }
    ensures { OnOk result (text.new.items ≡ text.old.items ++ threads_text count) }
{
    for before in 0..count {
        put_next_thread(text, before)?;
    }
    Ok(())
}

/// Adds the thread that comes after so many.
#[tactic(auto, using(crate::proofs::Texts::assoc), unfolding(crate::specs::Words::threads_text))]
fn put_next_thread(text: &mut Vec<u8>, before: u32) -> Result<(), OutOfMemory>
    requires fits { before + 1 < 2 ^ 32 }
    requires before { text.old.items ≡ threads_text before }
    ensures { OnOk result (text.new.items ≡ threads_text (before + 1)) }
{
    if before == 0 {
        put(text, b"m")?;
    } else {
        put(text, b",")?;
    }
    put_thread(text, before + 1)
}

fn put_present(text: &mut Vec<u8>, thread: u32) -> Result<(), OutOfMemory>
    ensures { OnOk result (text.new.items ≡
        text.old.items ++ (codes "QC" ++ thread_text thread)) }
{
    put(text, b"QC")?;
    put_thread(text, thread)
}

fn put_note(text: &mut Vec<u8>, note: &ThreadNote) -> Result<(), OutOfMemory>
    ensures { OnOk result (text.new.items ≡ text.old.items ++ encode_lower (note_text note.now)) }
{
    let mut words = Vec::new(*text.allocator());
    put_note_words(&mut words, note)?;
    put_hex(text, words.as_slice())
}

/// Adds what is said of a hart.
pub(crate) fn put_note_words(text: &mut Vec<u8>, note: &ThreadNote) -> Result<(), OutOfMemory>
    ensures { OnOk result (text.new.items ≡ text.old.items ++ note_text note.now) }
{
    put_words(text, b"hart ", u64::from(note.hart))?;
    put(text, b", ")?;
    put_state(text, note)
}

pub(crate) fn put_state(text: &mut Vec<u8>, note: &ThreadNote) -> Result<(), OutOfMemory>
    ensures { OnOk result (text.new.items ≡ text.old.items ++ state_text note.now note.now.stop) }
{
    match note.stop {
        None => put_running(text, note),
        Some((1, value)) => put_words(text, b"exit ", value),
        Some((code, _)) => put_words(text, b"stop ", u64::from(code)),
    }
}

fn put_running(text: &mut Vec<u8>, note: &ThreadNote) -> Result<(), OutOfMemory>
    ensures { OnOk result (text.new.items ≡ text.old.items ++ state_text note.now None) }
{
    put_place(text, note)?;
    put_waits(text, note.waits)?;
    put_uncommitted(text, note.uncommitted)
}

/// Adds that a hart waits, where it does.
fn put_waits(text: &mut Vec<u8>, waits: bool) -> Result<(), OutOfMemory>
    ensures { OnOk result (text.new.items ≡ text.old.items ++ waits_text waits) }
{
    if waits {
        put(text, b", waits")?;
    }
    Ok(())
}

/// Adds how many bytes are not committed, where there are any.
fn put_uncommitted(text: &mut Vec<u8>, bytes: u64) -> Result<(), OutOfMemory>
    ensures { OnOk result (text.new.items ≡ text.old.items ++ uncommitted_text bytes) }
{
    if bytes > 0 {
        put_words(text, b", ", bytes)?;
        put(text, b" bytes not committed")?;
    }
    Ok(())
}

fn put_place(text: &mut Vec<u8>, note: &ThreadNote) -> Result<(), OutOfMemory>
    ensures { OnOk result (text.new.items ≡ text.old.items ++ place_text note.now) }
{
    put_words(text, b"round ", u64::from(note.round))?;
    put(text, b", ")?;
    put_phase(text, note.phase)?;
    put_words(text, b", place ", note.place)
}

fn put_phase(text: &mut Vec<u8>, phase: Phase) -> Result<(), OutOfMemory>
    ensures { OnOk result (text.new.items ≡ text.old.items ++ phase_word phase) }
{
    match phase {
        Phase::Parallel => put(text, b"parallel"),
        Phase::Serial => put(text, b"serial"),
    }
}

fn put_console(text: &mut Vec<u8>, words: &[u8]) -> Result<(), OutOfMemory>
    ensures { OnOk result (text.new.items ≡
        text.old.items ++ (codes "O" ++ encode_lower words.now)) }
{
    put(text, b"O")?;
    put_hex(text, words)
}

fn put_part(text: &mut Vec<u8>, window: &Window<'_>) -> Result<(), OutOfMemory>
    ensures { OnOk result (text.new.items ≡ text.old.items ++ part_text window.now) }
{
    let length = window.text.len() as u64;
    let start = window.offset.min(length);
    let count = window.count.min(length - start);
    if start + count == length {
        put(text, b"l")?;
    } else {
        put(text, b"m")?;
    }
    put(text, &window.text[start as usize..(start + count) as usize])
}
