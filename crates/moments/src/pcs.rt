ghost use Rattle.std.specs.Prelude.{◌≡◌, ◌≤◌, ◌+◌, ◌++◌, IfOk, IfSome, length, map, take};
ghost use Rattle.hart_step.specs.DecodedCode.{Shows};
ghost use Rattle.moments.specs.Hits.{harts_in_part};
ghost use Rattle.moments.specs.Pcs.{ComeInOrder, GoesOn, pc_after, pc_in};
ghost use Rattle.moments.specs.Bytes.{sight_of};

use crate::stepping::step_by;
use hart_step::{Bus, DecodedCode, Hart};
use pages::OutOfMemory;
use round_schedule::{Event, Stepped};

/// Adds the pcs of the instructions of some events in one walk over their hart's part of the parallel phase: of all of them where each
/// comes later in the part than the one before it, and else of the first ones. `None` stands for an event whose instruction the hart
/// doesn't do in the part; the walk ends there. It answers how many events have their pc. The part is that of the hart and the bytes
/// that it sees now, of at most `quota` instructions.
///
/// # Errors
///
/// `OutOfMemory`: some of the pcs are added.
pub fn add_pcs_in_part<B: Bus>(
    h: &mut Hart,
    b: &mut B,
    code: &DecodedCode,
    quota: u32,
    events: &[Event],
    pcs: &mut Vec<Option<u64>>,
) -> Result<usize, OutOfMemory>
    requires shows { Shows (B.memory b.old) code.now.first code.now.instructions }
    requires some { 1 ≤ length events.now }
    ensures some { IfOk result (λ n. 1 ≤ n) }
    ensures few { IfOk result (λ n. n ≤ length events.now) }
    ensures all { IfOk result (λ n. ComeInOrder h.old.done
        (harts_in_part (B.memory b.old).code quota (sight_of h.old (B.memory b.old))) events.now →
        n ≡ length events.now) }
    ensures pcs { IfOk result (λ n. pcs.new.items ≡ pcs.old.items ++ map (pc_in h.old.done
        (harts_in_part (B.memory b.old).code quota (sight_of h.old (B.memory b.old))))
        (take n events.now)) }
{
    let before = h.done;
    let mut done = 0;
    for (number, event) in events.iter().enumerate() {
        let count = event.access.place().saturating_sub(before);
        if count < u64::from(done) {
            return Ok(number);
        }
        let pc = pc_there(h, b, code, quota - done, count - u64::from(done))?;
        pcs.push(pc)?;
        if pc.is_none() {
            return Ok(number + 1);
        }
        done = count as u32 + 1;
    }
    Ok(events.len())
}

/// Does the instructions of a part of at most `quota` up to the one after `count` others, and that one too. Answers its pc, or none where
/// the part has no such instruction.
fn pc_there<B: Bus>(
    h: &mut Hart,
    b: &mut B,
    code: &DecodedCode,
    quota: u32,
    count: u64,
) -> Result<Option<u64>, OutOfMemory>
    requires { Shows (B.memory b.old) code.now.first code.now.instructions }
    ensures pc { IfOk result (λ pc. pc ≡ pc_after (harts_in_part (B.memory b.old).code quota
        (sight_of h.old (B.memory b.old))) count) }
    ensures rest { IfOk result (λ pc. IfSome pc (λ _.
        GoesOn quota (count + 1) code.now.first code.now.instructions h.old (B.memory b.old) h.new
        (B.memory b.new))) }
{
    let mut done = 0;
    while done < quota {
        if h.stop.is_some() {
            return Ok(None);
        }
        let pc = h.pc;
        match step_by(h, b, code)? {
            Stepped::Waits => return Ok(None),
            Stepped::Stopped(_) => return Ok(None),
            Stepped::Done(_) => {}
        }
        if u64::from(done) == count {
            return Ok(Some(pc));
        }
        done += 1;
    }
    Ok(None)
}
