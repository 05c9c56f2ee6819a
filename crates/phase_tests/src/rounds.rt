//! Rounds of one hart, through the public calls of the crate `hart_rounds`.

ghost use Rattle.std.specs.Prelude.{◌≡◌, ◌<◌, IfOk, Some, length, slice_get};

use crate::code::{COUNT, HARTS, code_of};
use hart_rounds::{HartEnd, LogForm, RoundStart, round_from, round_in_place};
use hart_step::{Access, Stop};
use pages::{OutOfMemory, Store, Width};
use std::alloc::Global;
use std::process::Abort;
use std::test::Fail;
use store_buffer::StoreBuffer;
use trace::Log;

/// A store that the rounds below do not do.
const OTHER: Store = Store {
    address: 8,
    width: Width::W1,
    value: 7,
};

/// Its access.
const OTHER_ACCESS: Access = Access::Store {
    width: Width::W1,
    place: 0,
    address: 8,
    written: 7,
};

/// Whether a buffer begins with this byte at the doubleword that the harts count in, and has no byte outside it.
fn has_count(buffer: &StoreBuffer, byte: u64) -> bool {
    let mut stores = buffer.stores();
    match stores.next() {
        Some(first) => {
            (first.address, first.value) == (0x100, byte)
                && stores.all(|store| store.address / 8 == 0x20)
        }
        None => false,
    }
}

/// Whether it is what the round of a hart leaves that counts to 100, with so many accesses kept.
fn has_counted(end: &HartEnd, logged: usize) -> bool {
    (end.hart.done, end.accesses, end.waits) == (300, 100, false)
        && has_count(&end.buffer, 100)
        && end.log.len() == logged
}

/// What an earlier round left of hart 0: a store and an access that the round below does not do.
fn earlier(start: &RoundStart<'_>) -> Result<HartEnd, OutOfMemory>
    requires { 0 < length start.now.harts }
    ensures { IfOk result (λ e. slice_get start.now.harts 0 ≡ Some e.hart) }
{
    let alloc = start.pages().allocator();
    let mut end = HartEnd::at_rest(alloc, start.harts()[0]);
    end.buffer.put(OTHER)?;
    end.log = Log::copied(alloc, &[OTHER_ACCESS])?;
    end.accesses = 1;
    end.waits = true;
    Ok(end)
}

/// Does the round of a hart where an earlier one left its end, and these accesses in the room for accesses.
fn round_after_earlier(start: &RoundStart<'_>, kept: &[Access]) -> Result<HartEnd, OutOfMemory>
    requires { 0 < length start.now.harts }
{
    let mut end = earlier(start)?;
    let mut room = Vec::from_slice(start.pages().allocator(), kept)?;
    round_in_place(0, start, &mut end, &mut room)?;
    Ok(end)
}

/// Whether the round of a hart takes the place of what an earlier one left.
fn takes_its_place(start: &RoundStart<'_>, logged: usize) -> Result<bool, OutOfMemory>
    requires { 0 < length start.now.harts }
{
    Ok(has_counted(&round_after_earlier(start, &[OTHER_ACCESS])?, logged))
}

/// Whether the same round leaves the same where there is none before it.
fn leaves(start: &RoundStart<'_>, logged: usize) -> Result<bool, OutOfMemory>
    requires { 0 < length start.now.harts }
{
    let mut room = Vec::new(start.pages().allocator());
    Ok(has_counted(&round_from(0, start, &mut room)?, logged))
}

/// Whether the round of a hart that has stopped leaves the hart alone, where an earlier one left more.
fn rests(start: &RoundStart<'_>) -> Result<bool, OutOfMemory>
    requires { 0 < length start.now.harts }
{
    let end = round_after_earlier(start, &[])?;
    let nothing = (end.accesses, end.waits, end.log.len()) == (0, false, 0);
    Ok(nothing && end.buffer.is_empty() && end.hart == start.harts()[0])
}

/// Does rounds whose accesses are kept or counted, as the form says.
fn does_rounds<R: Abort>(rt: &R, alloc: Global, form: LogForm, logged: usize) {
    let (pages, table) = code_of(alloc, &COUNT).expect(rt, "memory");
    let harts = HARTS;
    let start = RoundStart::new(&pages, &table, &harts, &[300; 64]).with_form(form);
    let placed = takes_its_place(&start, logged).expect(rt, "memory");
    let left = leaves(&start, logged).expect(rt, "memory");
    assert!(rt; (placed, left) == (true, true), "{form:?}");
}

#[test]
fn a_round_takes_the_place_of_what_is_there(rt: HostRuntime) -> Result<(), Fail> {
    let alloc = rt.alloc();
    does_rounds(&rt, alloc, LogForm::Counted, 0);
    does_rounds(&rt, alloc, LogForm::Logged, 100);
    does_rounds(&rt, alloc, LogForm::InBrief, 100);
    Ok(())
}

#[test]
fn a_stopped_hart_is_left_alone(rt: HostRuntime) -> Result<(), Fail> {
    let (pages, table) = code_of(rt.alloc(), &COUNT)?;
    let mut harts = HARTS;
    harts[0].stop = Some(Stop { code: 10, value: 0 });
    let start = RoundStart::new(&pages, &table, &harts, &[300; 64]);
    assert!(rt; rests(&start)?);
    Ok(())
}
