//! What `watch` prints.
ghost use Rattle.std.specs.Prelude.{◌≡◌, IfOk};
ghost use Rattle.past_commands.specs.Watched.{Prints, hit_line, hits_lines, hits_text, pc_at, watched_status, watched_text};

use crate::answer::{Answer, number_line};
use host_io::{RunError, Sink, put_all};
use pages::OutOfMemory;
use program_files::ExitStatus;
use replayer::Hit;
use report_lines::{Line, Tail, event_line};
use std::alloc::Global;
use trace_events::located_line;

/// The accesses that hit.
#[derive(Drop)]
pub struct Hits {
    /// Their events.
    pub events: Vec<Hit>,
    /// For each of them, where that is asked for, the pc of its instruction, if that is known.
    pub pcs: Vec<Option<u64>>,
}

/// What came of watching.
#[derive(Drop)]
pub enum Watched {
    /// These accesses hit.
    Hits(Hits),
    /// RVWMO doesn't allow the execution, and this is told of it.
    Refused(Answer),
}

/// Prints what came of watching, and answers the exit status.
pub(crate) fn print_watched<S: Sink>(
    alloc: Global,
    watched: &Watched,
    out: &mut S,
) -> Result<ExitStatus, RunError>
    ensures prints { Prints (watched_text watched.now) (S.took out.old) (S.failures out.old) result
        (S.took out.new) (S.failures out.new) }
    ensures status { IfOk result (λ status. status ≡ watched_status watched.now) }
{
    match watched {
        Watched::Hits(hits) => {
            print_hits(alloc, &hits.events, &hits.pcs, out)?;
            Ok(ExitStatus::Done)
        }
        Watched::Refused(answer) => {
            put_all(out, answer.text.as_bytes())?;
            Ok(answer.status)
        }
    }
}

/// Prints how many hits there are, and a line for each, with its pc where there is one.
fn print_hits<S: Sink>(
    alloc: Global,
    hits: &[Hit],
    pcs: &[Option<u64>],
    out: &mut S,
) -> Result<(), RunError>
    ensures { Prints (hits_text hits.now pcs.now) (S.took out.old) (S.failures out.old) result
        (S.took out.new) (S.failures out.new) }
{
    let line = number_line(alloc, "hits ", hits.len() as u64)?;
    put_all(out, line.as_bytes())?;
    print_lines(alloc, hits, pcs, out)
}

/// Prints the lines of hits.
fn print_lines<S: Sink>(
    alloc: Global,
    hits: &[Hit],
    pcs: &[Option<u64>],
    out: &mut S,
) -> Result<(), RunError>
    ensures { Prints (hits_lines hits.now pcs.now) (S.took out.old) (S.failures out.old) result
        (S.took out.new) (S.failures out.new) }
{
    for (number, hit) in hits.iter().enumerate() {
        print_hit(alloc, hit, pc_at(pcs, number), out)?;
    }
    Ok(())
}

/// The pc of the hit of a number, if it is known.
fn pc_at(pcs: &[Option<u64>], number: usize) -> Option<u64>
    ensures { result ≡ pc_at pcs.now number }
{
    match pcs.get(number) {
        Some(pc) => *pc,
        None => None,
    }
}

/// Prints the line of a hit, with its pc if that is known.
fn print_hit<S: Sink>(
    alloc: Global,
    hit: &Hit,
    pc: Option<u64>,
    out: &mut S,
) -> Result<(), RunError>
    ensures { Prints (hit_line pc hit.now) (S.took out.old) (S.failures out.old) result
        (S.took out.new) (S.failures out.new) }
{
    let line = hit_line(alloc, hit, pc)?;
    put_all(out, line.as_bytes())
}

/// The line of a hit, with its pc if that is known.
fn hit_line(alloc: Global, hit: &Hit, pc: Option<u64>) -> Result<Line, OutOfMemory>
    ensures { IfOk result (λ line. line ≡ hit_line pc hit.now) }
{
    let mut line = Line::new(alloc);
    match pc {
        Some(pc) => located_line(alloc, &mut line, hit, pc)?,
        None => event_line(&mut line, &mut Tail::new(), hit)?,
    }
    Ok(line)
}
