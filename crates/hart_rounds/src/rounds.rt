//! How the round of a hart is done.

ghost use Rattle.std.specs.Prelude.{◌≡◌, ◌<◌, ◌^◌, true, false, is_some, List, [], length, slice_get, IfOk, OnOk, Some};
ghost use Rattle.round_schedule.specs.declared.access.Access.{Access as AccessOf};
ghost use Rattle.hart_rounds.specs.Ends.{logged, round_at};

use crate::hart_end::HartEnd;
use crate::log_form::LogForm;
use crate::start::RoundStart;
use hart_step::{Access, AccessCount, AccessLog, Buffered, hart_round};
use pages::OutOfMemory;
use trace::Log;

/// From so many accesses on a log is long.
pub const LONG: u64 = 64;

/// Does the round of a hart, on the memory of its start. Its accesses are counted or logged, as the start says; a long log is put in
/// brief, if it says so. `spare` is taken for the accesses while the round goes on: what it holds is let go.
///
/// # Errors
///
/// A growth was refused. The start is only read.
pub fn round_from(
    number: usize,
    start: &RoundStart<'_>,
    spare: &mut Vec<Access>,
) -> Result<HartEnd, OutOfMemory>
    requires { number < length start.now.harts }
    ensures { IfOk result (λ e. round_at start.now number ≡ Some e) }
{
    let hart = start.harts()[number];
    let mut end = HartEnd::at_rest(start.pages().allocator(), hart);
    round_into(number, start, &mut end, spare)?;
    Ok(end)
}

/// Does the round of a hart as `round_from` does, in the place of what an earlier round of the hart left: that is let go, but for a
/// hart that has stopped, which isn't copied again.
///
/// # Errors
///
/// A growth was refused. The start is only read, and nothing is said of what stands in the place.
// docs/decisions/threads.md
#[inline(always)]
pub fn round_in_place(
    number: usize,
    start: &RoundStart<'_>,
    end: &mut HartEnd,
    spare: &mut Vec<Access>,
) -> Result<(), OutOfMemory>
    requires number { number < length start.now.harts }
    requires stays { is_some end.old.hart.stop ≡ true →
        slice_get start.now.harts number ≡ Some end.old.hart }
    ensures { OnOk result (round_at start.now number ≡ Some end.new) }
{
    if end.is_at_rest() {
        return Ok(());
    }
    end.begin(number, start);
    if end.hart.stop.is_some() {
        end.rest(start.pages().allocator());
        return Ok(());
    }
    round_into(number, start, end, spare)
}

/// Does the round of a hart that its place has as the round begins with it. The rest of what stands there is let go.
fn round_into(
    number: usize,
    start: &RoundStart<'_>,
    end: &mut HartEnd,
    spare: &mut Vec<Access>,
) -> Result<(), OutOfMemory>
    requires number { number < length start.now.harts }
    requires hart { slice_get start.now.harts number ≡ Some end.old.hart }
    ensures { OnOk result (round_at start.now number ≡ Some end.new) }
{
    match start.form() {
        LogForm::Counted => counted_round(number, start, end),
        LogForm::Logged | LogForm::InBrief => logged_round(number, start, end, spare),
    }
}

/// The same of a start whose harts' accesses are only counted.
fn counted_round(
    number: usize,
    start: &RoundStart<'_>,
    end: &mut HartEnd,
) -> Result<(), OutOfMemory>
    requires number { number < length start.now.harts }
    requires hart { slice_get start.now.harts number ≡ Some end.old.hart }
    requires counted { start.now.logs ≡ false }
    ensures { OnOk result (round_at start.now number ≡ Some end.new) }
{
    let mut count = AccessCount { count: 0 };
    do_round(number, start, end, &mut count)?;
    end.log = Log::of(Vec::new(start.pages().allocator()));
    end.accesses = count.count;
    Ok(())
}

/// The same of a start whose harts' accesses are logged.
fn logged_round(
    number: usize,
    start: &RoundStart<'_>,
    end: &mut HartEnd,
    spare: &mut Vec<Access>,
) -> Result<(), OutOfMemory>
    requires number { number < length start.now.harts }
    requires hart { slice_get start.now.harts number ≡ Some end.old.hart }
    requires logged { start.now.logs ≡ true }
    ensures { OnOk result (round_at start.now number ≡ Some end.new) }
{
    spare.clear();
    do_round(number, start, end, spare)?;
    let accesses = spare.len() as u64;
    let alloc = start.pages().allocator();
    end.log = if accesses == 0 {
        // As in most rounds of a hart that comes from one serial word to the next.
        Log::of(Vec::new(alloc))
    } else if start.form() == LogForm::InBrief && accesses >= LONG {
        Log::in_brief(alloc, spare)?
    } else {
        Log::copied(alloc, spare)?
    };
    end.accesses = accesses;
    Ok(())
}

/// Does the round of a hart in its place, all but its accesses: they are added to `log`, which holds none.
fn do_round<L: AccessLog>(
    number: usize,
    start: &RoundStart<'_>,
    end: &mut HartEnd,
    log: &mut L,
) -> Result<(), OutOfMemory>
    requires number { number < length start.now.harts }
    requires hart { slice_get start.now.harts number ≡ Some end.old.hart }
    requires empty { L.holds log.old [] }
    ensures { OnOk result ((es : List AccessOf) × L.holds log.new es × (length es < 2 ^ 32) ×
        (round_at start.now number ≡
        Some (record end.new { log = logged start.now.logs es; accesses = length es }))) }
{
    let quota = start.quotas()[number];
    let pages = start.pages();
    let mut view = Buffered::new(pages.allocator(), pages);
    end.waits = hart_round(&mut end.hart, &mut view, start.code(), quota, log)?;
    end.buffer = view.into_buffer();
    Ok(())
}
