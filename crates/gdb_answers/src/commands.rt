//! The user's commands.

ghost use Rattle.std.specs.Prelude.{◌≡◌, ◌≤◌, ◌+◌, ◌<◌, ◌^◌, ◌++◌, IfOk, OnOk};
ghost use Rattle.machine.specs.Machine.{Running};
ghost use Rattle.machine.specs.Untraced.{IsUntraced};
ghost use Rattle.gdb_packets.specs.Writing.{packet_text};
ghost use Rattle.gdb_replies.specs.CommandTexts.{where_line};
ghost use Rattle.gdb_answers.specs.Answers.{note_at};
ghost use Rattle.timelines.specs.Shown.{seen};
ghost use Rattle.gdb_answers.specs.Commands.{hart_entry, hart_lines, harts_answer, plan_answer, plan_text, quotas_text, where_answer};
ghost use Rattle.round_schedule.specs.Bounds.{AreWorkers};

use crate::noting::note_at;
use gdb_replies::{
    Reply, ThreadNote, add_hart_line, add_plan_head, add_quota, add_where_line, reply_text,
};
use gdb_talk::{Look, note_of};
use pages::OutOfMemory;
use past_harts::Point;
use round_planner::Plan;
use std::alloc::Global;
use std::sync::Wait;
use std::thread::Threads;
use timelines::Timeline;

/// Answers where the run stands at a point, of its moment's hart. It may wait.
pub fn answer_where<R: Threads + Wait + Sync>(
    rt: &R,
    alloc: Global,
    timeline: &mut Timeline,
    point: Point,
    workers: u32,
) -> Result<Vec<u8>, OutOfMemory>
    requires within { point.moment.rounds ≤ timeline.old.rounds }
    requires workers { AreWorkers workers }
    requires rounds { point.moment.rounds + 1 < 2 ^ 32 }
    ensures stays { timeline.new ≡ timeline.old }
    ensures text { (m : Running) → IsUntraced m timeline.old.start → IfOk result (λ text. text.items
        ≡ packet_text (where_answer point.moment (seen m point point.moment.place.hart))) }
{
    let moment = point.moment;
    let place = moment.place;
    let Some(sight) = timeline.shown_at(rt, &point, place.hart, workers)? else {
        return reply_text(alloc, &Reply::Missing);
    };
    let hart = sight.hart();
    drop(sight);
    let note = note_of(place.hart, &hart, moment);
    let text = where_line(alloc, &note, place.count, hart.pc)?;
    reply_text(alloc, &Reply::Words(text.as_slice()))
}

/// The line of a hart's note, behind so many instructions of the round and with this pc.
fn where_line(alloc: Global, note: &ThreadNote, count: u64, pc: u64) -> Result<Vec<u8>, OutOfMemory>
    ensures { IfOk result (λ text. text.items ≡ where_line note.now count pc) }
{
    let mut text = Vec::new(alloc);
    add_where_line(&mut text, note, count, pc)?;
    Ok(text)
}

/// Answers where each hart before one is at a point. It may wait.
pub fn answer_harts<R: Threads + Wait + Sync>(
    rt: &R,
    alloc: Global,
    timeline: &mut Timeline,
    look: Look,
) -> Result<Vec<u8>, OutOfMemory>
    requires within { look.point.moment.rounds ≤ timeline.old.rounds }
    requires workers { AreWorkers look.workers }
    requires rounds { look.point.moment.rounds + 1 < 2 ^ 32 }
    ensures stays { timeline.new ≡ timeline.old }
    ensures text { (m : Running) → IsUntraced m timeline.old.start → IfOk result (λ text. text.items
        ≡ packet_text (harts_answer m look.point look.hart)) }
{
    let text = hart_lines(rt, alloc, timeline, look)?;
    reply_text(alloc, &Reply::Words(text.as_slice()))
}

/// A line for each hart before one.
#[tactic(auto, unfolding(crate::specs::Commands::hart_lines))]
fn hart_lines<R: Threads + Wait + Sync>(
    rt: &R,
    alloc: Global,
    timeline: &mut Timeline,
    look: Look,
) -> Result<Vec<u8>, OutOfMemory>
    requires within { look.point.moment.rounds ≤ timeline.old.rounds }
    requires workers { AreWorkers look.workers }
    requires rounds { look.point.moment.rounds + 1 < 2 ^ 32 }
    ensures stays { timeline.new ≡ timeline.old }
    ensures lines { (m : Running) → IsUntraced m timeline.old.start →
        IfOk result (λ text. text.items ≡
        hart_lines m look.point look.hart) }
{
    let mut text = Vec::new(alloc);
    for hart in 0..look.hart {
        add_line(rt, alloc, timeline, Look { hart, ..look }, &mut text)?;
    }
    Ok(text)
}

/// Adds a hart's line, where there is the hart.
fn add_line<R: Threads + Wait + Sync>(
    rt: &R,
    alloc: Global,
    timeline: &mut Timeline,
    look: Look,
    text: &mut Vec<u8>,
) -> Result<(), OutOfMemory>
    requires within { look.point.moment.rounds ≤ timeline.old.rounds }
    requires workers { AreWorkers look.workers }
    requires rounds { look.point.moment.rounds + 1 < 2 ^ 32 }
    ensures stays { timeline.new ≡ timeline.old }
    ensures entry { (m : Running) → IsUntraced m timeline.old.start → OnOk result (text.new.items ≡
        text.old.items ++ hart_entry (note_at m look.point look.hart)) }
{
    if let Some(note) = note_at(rt, alloc, timeline, look)? {
        add_hart_line(text, &note)?;
    }
    Ok(())
}

/// Answers how many instructions each hart may do in a round by a plan.
pub fn answer_plan(alloc: Global, plan: &Plan, round: u32) -> Result<Vec<u8>, OutOfMemory>
    requires round { 1 ≤ round }
    ensures { IfOk result (λ text. text.items ≡ packet_text (plan_answer plan.now round)) }
{
    let text = plan_line(alloc, plan, round)?;
    reply_text(alloc, &Reply::Words(text.as_slice()))
}

/// The line of a round by a plan.
fn plan_line(alloc: Global, plan: &Plan, round: u32) -> Result<Vec<u8>, OutOfMemory>
    requires round { 1 ≤ round }
    ensures { IfOk result (λ text. text.items ≡ plan_text plan.now round) }
{
    let mut text = Vec::new(alloc);
    add_plan_head(&mut text, round, plan.budget())?;
    add_quotas(&mut text, plan, round)?;
    text.push(b'\n')?;
    Ok(text)
}

/// Adds what each hart may do.
#[tactic(auto, using(crate::proofs::Texts::assoc), unfolding(crate::specs::Commands::quotas_text))]
fn add_quotas(text: &mut Vec<u8>, plan: &Plan, round: u32) -> Result<(), OutOfMemory>
    requires round { 1 ≤ round }
    ensures { OnOk result (text.new.items ≡
        text.old.items ++ quotas_text plan.now round plan.now.harts) }
{
    for hart in 0..plan.harts() {
        add_quota(text, plan.quota(round, hart))?;
    }
    Ok(())
}
