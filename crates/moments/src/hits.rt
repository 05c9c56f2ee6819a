ghost use Rattle.std.specs.Prelude.{◌≡◌, ◌++◌, ◌+◌, [], ◌∷◌, IfOk, OnOk, Some, length};
ghost use Rattle.hart_step.specs.DecodedCode.{Shows};
ghost use Rattle.round_schedule.specs.Past.{last_of};
ghost use Rattle.moments.specs.Hits.{Walked, harts_in_part, hits_from, tells};
ghost use Rattle.moments.specs.Quiet.{AreQuiet};
ghost use Rattle.moments.specs.Bytes.{sight_of};

use crate::asked::Asked;
use crate::quiet::pass_over;
use crate::stepping::step_by;
use hart_step::{Bus, DecodedCode, Hart};
use pages::OutOfMemory;
use round_schedule::Stepped;
use std::alloc::Global;

/// What a walk over a hart's part of the parallel phase came by.
#[derive(Drop)]
pub struct PartHits {
    /// After how many instructions of the part something is told, in rising order.
    pub counts: Vec<u32>,
    /// How many instructions the part has.
    pub done: u32,
}

/// Walks over the part of the parallel phase of hart `number`, and notes where something is told. The part may begin anywhere: it is that of the
/// hart and the bytes that it sees now, of at most `quota` instructions. The hart is left as the part leaves it. `lengths` are the
/// `quiet_lengths` of the decoded code and of the addresses that are asked for.
///
/// # Errors
///
/// `OutOfMemory`: the walk is given up, with some of the part done.
pub fn hits_in_part<B: Bus>(
    alloc: Global,
    number: u32,
    h: &mut Hart,
    b: &mut B,
    code: &DecodedCode,
    lengths: &[u8],
    quota: u32,
    asked: &Asked,
) -> Result<PartHits, OutOfMemory>
    requires shows { Shows (B.memory b.old) code.now.first code.now.instructions }
    requires quiet { AreQuiet asked.now.stops.items code.now.first code.now.instructions
        lengths.now }
    ensures counts { IfOk result (λ p. p.counts.items ≡ hits_from (tells asked.now number) 0
        (harts_in_part (B.memory b.old).code quota (sight_of h.old (B.memory b.old)))) }
    ensures done { IfOk result (λ p. length (harts_in_part (B.memory b.old).code quota
        (sight_of h.old (B.memory b.old))) ≡ p.done + 1) }
    ensures end { OnOk result (last_of (harts_in_part (B.memory b.old).code quota
        (sight_of h.old (B.memory b.old))) ≡ Some h.new) }
{
    let mut counts = Vec::new(alloc);
    let done = walk(number, h, b, code, lengths, quota, asked, &mut counts)?;
    note_end(number, h, done, asked, &mut counts)?;
    Ok(PartHits { counts, done })
}

/// Notes the end of a part, after so many instructions, where the hart is stopped there and something is told.
fn note_end(
    number: u32,
    h: &Hart,
    done: u32,
    asked: &Asked,
    counts: &mut Vec<u32>,
) -> Result<(), OutOfMemory>
    ensures { OnOk result (counts.new.items ≡
        counts.old.items ++ hits_from (tells asked.now number) done (h.now ∷ [])) }
{
    let told = h.stop.is_some() && asked.tells(number, h);
    if told {
        counts.push(done)?;
    }
    Ok(())
}

/// Walks to the end of the part, and notes all but the end. Answers how many instructions are done.
fn walk<B: Bus>(
    number: u32,
    h: &mut Hart,
    b: &mut B,
    code: &DecodedCode,
    lengths: &[u8],
    quota: u32,
    asked: &Asked,
    counts: &mut Vec<u32>,
) -> Result<u32, OutOfMemory>
    requires shows { Shows (B.memory b.old) code.now.first code.now.instructions }
    requires quiet { AreQuiet asked.now.stops.items code.now.first code.now.instructions
        lengths.now }
    requires none { counts.old.items ≡ [] }
    ensures { IfOk result (λ done.
        Walked (tells asked.now number) (harts_in_part (B.memory b.old).code quota
        (sight_of h.old (B.memory b.old))) counts.new.items done h.new) }
{
    let mut done = 0;
    while done < quota {
        if h.stop.is_some() {
            return Ok(done);
        }
        done += pass_over(number, h, b, code, lengths, quota - done, asked);
        if done >= quota {
            return Ok(done);
        }
        let told = asked.tells(number, h);
        match step_by(h, b, code)? {
            Stepped::Waits => return Ok(done),
            Stepped::Stopped(_) => return Ok(done),
            Stepped::Done(_) => {}
        }
        if told {
            counts.push(done)?;
        }
        done += 1;
    }
    Ok(done)
}
