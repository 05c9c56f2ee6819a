//! Where the user wants the next run to stop.

ghost use Rattle.std.specs.Prelude.{◌≡◌, ◌≤◌, IfOk, OnErr, true};
ghost use Rattle.hex.specs.Hex.{encode_lower};
ghost use Rattle.gdb_packets.specs.Writing.{packet_text};
ghost use Rattle.gdb_replies.specs.CommandTexts.{harts_text, rounds_text};
ghost use Rattle.gdb_packets.specs.declared.request.Request.TheVariants as requests;
ghost use Rattle.gdb_resumes.specs.Goals.{IsGoalWithin};
ghost use Rattle.gdb_runs.specs.Sessions.{IsReady, OfRun, state_of};
ghost use Rattle.gdb_session.specs.Answers.{Answers, IsGoal, goal_text, goal_then, is_goto, side_text};
ghost use Rattle.round_schedule.specs.Bounds.{AreWorkers};

use gdb_packets::Command;
use gdb_replies::{Reply, add_harts_line, add_rounds_line, reply_text};
use gdb_resumes::{Goal, goal_at_place, goal_at_round};
use gdb_runs::{Debugged, Session, Standing};
use pages::OutOfMemory;
use past_harts::Point;
use std::alloc::Global;
use std::sync::Wait;
use std::thread::Threads;

/// What is said of a moment that is ahead.
const AHEAD: &[u8] = b"continue stops there, if nothing stops it before\n";

/// What is said of one that is behind.
const BEHIND: &[u8] = b"reverse-continue stops there, if nothing stops it before\n";

/// What is said where the run stands there.
const HERE: &[u8] = b"the run stands there\n";

/// What is said of a place at which the hart isn't in that round.
const ELSEWHERE: &[u8] = b"the hart is not there in that round\n";

/// Has the next run that goes on or back stop once where a command says, and says which way leads there. It may wait.
pub(crate) fn go_to<R: Threads + Wait + Sync>(
    rt: &R,
    alloc: Global,
    run: &mut Debugged,
    session: &mut Session,
    command: Command,
) -> Result<Vec<u8>, OutOfMemory>
    requires ready { IsReady run.old session.old.standing }
    requires goes { is_goto command ≡ true }
    ensures stays { run.new ≡ run.old }
    ensures ready { IsReady run.old session.new.standing }
    ensures answers { OfRun run.old (λ r. IfOk result (λ text. Answers r (state_of session.old)
        (requests.Command command) text.items (state_of session.new))) }
    ensures refused { OnErr result (state_of session.new ≡ state_of session.old) }
{
    let goal = goal_of(rt, alloc, run, command)?;
    let text = goal_text(alloc, run, session.standing, goal)?;
    session.standing.goal = goal_then(session.standing, goal);
    Ok(text)
}

/// Where that is.
fn goal_of<R: Threads + Wait + Sync>(
    rt: &R,
    alloc: Global,
    run: &mut Debugged,
    command: Command,
) -> Result<Goal, OutOfMemory>
    requires workers { AreWorkers run.old.workers }
    requires harts { 1 ≤ run.old.harts }
    ensures stays { run.new ≡ run.old }
    ensures goal { OfRun run.old (λ r. IfOk result (λ goal. IsGoal r command goal)) }
    ensures within { IfOk result (λ goal. IsGoalWithin run.old goal) }
{
    match command {
        Command::GotoRound(round) => Ok(goal_at_round(run, round)),
        Command::GotoPlace(round, hart, place) => goal_at_place(rt, alloc, run, round, hart, place),
        Command::GotoEnd => Ok(Goal::End),
        // No other command says where.
        _ => Err(OutOfMemory),
    }
}

/// Says which way leads there, or that none does.
fn goal_text(
    alloc: Global,
    run: &Debugged,
    standing: Standing,
    goal: Goal,
) -> Result<Vec<u8>, OutOfMemory>
    ensures { OfRun run.now (λ r. IfOk result (λ text.
        text.items ≡ packet_text (encode_lower (goal_text r standing goal)))) }
{
    let here = standing.point.moment;
    match goal {
        Goal::At(at) => {
            let (is_here, is_ahead) = (here.is_same(&at.moment), here.is_before(&at.moment));
            say(alloc, side_text(is_here, is_ahead))
        }
        Goal::End => {
            let is_here = run.timeline.rounds() <= here.rounds;
            say(alloc, side_text(is_here, true))
        }
        Goal::NoRound => say_rounds(alloc, run.timeline.rounds()),
        Goal::NoHart => say_harts(alloc, run.harts),
        Goal::NoPlace => say(alloc, ELSEWHERE),
    }
}

fn side_text(is_here: bool, is_ahead: bool) -> &'static [u8]
    ensures { result.now ≡ side_text is_here is_ahead }
{
    if is_here {
        HERE
    } else if is_ahead {
        AHEAD
    } else {
        BEHIND
    }
}

/// Says how many rounds there are.
fn say_rounds(alloc: Global, rounds: u32) -> Result<Vec<u8>, OutOfMemory>
    ensures { IfOk result (λ text. text.items ≡ packet_text (encode_lower (rounds_text rounds))) }
{
    let mut text = Vec::new(alloc);
    add_rounds_line(&mut text, rounds)?;
    say(alloc, text.as_slice())
}

/// Says how many harts there are.
fn say_harts(alloc: Global, harts: u32) -> Result<Vec<u8>, OutOfMemory>
    ensures { IfOk result (λ text. text.items ≡ packet_text (encode_lower (harts_text harts))) }
{
    let mut text = Vec::new(alloc);
    add_harts_line(&mut text, harts)?;
    say(alloc, text.as_slice())
}

/// Answers the user with some words.
fn say(alloc: Global, words: &[u8]) -> Result<Vec<u8>, OutOfMemory>
    ensures { IfOk result (λ text. text.items ≡ packet_text (encode_lower words.now)) }
{
    reply_text(alloc, &Reply::Words(words))
}

/// Where the next run is to stop once then.
fn goal_then(standing: Standing, goal: Goal) -> Option<Point>
    ensures { result ≡ goal_then standing goal }
{
    match goal {
        Goal::At(at) => {
            if standing.point.moment.is_same(&at.moment) {
                None
            } else {
                Some(at)
            }
        }
        Goal::End => None,
        Goal::NoRound | Goal::NoHart | Goal::NoPlace => standing.goal,
    }
}
