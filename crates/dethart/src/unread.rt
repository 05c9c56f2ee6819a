//! Options of a line that aren't looked at.

use command_line::{Command, PlanChoice, Replay};

/// Says on standard error which options of the line aren't looked at. It is no failure where that can't be written.
pub(crate) fn tell_unread(rt: &HostRuntime, command: &Command<'_>) {
    match command {
        Command::Run(asked) => tell_of_plan(rt, &asked.run.plan),
        Command::Order(run) | Command::Trace(run) => tell_of_plan(rt, &run.plan),
        Command::Record(asked) => tell_of_plan(rt, &asked.run.plan),
        Command::Draw(asked) => tell_of_plan(rt, &asked.run.plan),
        Command::Execution(asked) => tell_of_plan(rt, &asked.run.plan),
        Command::Replay(asked) => tell_of_replay(rt, asked),
        _ => {}
    }
}

fn tell_of_plan(rt: &HostRuntime, plan: &PlanChoice<'_>) {
    if plan.quota_is_unread {
        let _unwritten = eprintln!(rt; "--quota isn't looked at beside --plan");
    }
}

fn tell_of_replay(rt: &HostRuntime, asked: &Replay<'_>) {
    if asked.hart_is_unread {
        let _unwritten = eprintln!(rt; "--hart isn't looked at without --round or --place");
    }
    if asked.count_is_unread {
        let _unwritten = eprintln!(rt; "--count isn't looked at without --round");
    }
    if asked.seen_is_unread {
        let _unwritten = eprintln!(rt; "--see isn't looked at without --round or --place");
    }
    if asked.object_is_unread {
        let _unwritten = eprintln!(rt; "--see-object isn't looked at without --round or --place");
    }
}
