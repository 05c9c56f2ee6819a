//! Gaps at which fences forbid all executions that fail.

ghost use Rattle.std.specs.Prelude.{◌≡◌, ◌+◌, ◌<◌, ◌^◌, IfOk, IfSome, OnOk, length};
ghost use Rattle.fence_search.specs.Gathered.{plans_of};
ghost use Rattle.fence_search.specs.Places.{pc_of};

use fence_places::{Gap, Move};
use fence_table::Tally;
use fence_trials::{Found, Spot};
use pages::OutOfMemory;
use std::alloc::Global;
use std::mem;

/// A gap at which a fence is missing: it would forbid some executions that fail.
pub struct Weakness {
    /// The address of the instruction before it.
    pub earlier: u64,
    /// The address of the instruction behind it.
    pub later: u64,
    /// Where a fence forbids these executions.
    pub spot: Spot,
    /// The numbers of these executions.
    pub numbers: Tally,
    /// Of these executions one in which an operation moved past just the two instructions, if there is one; of several one with the fewest
    /// departures; of several one with the fewest steps, and of these the one with the least number.
    pub shown: Found,
    /// The operation that the fence would have kept in it.
    pub moved: Move,
    /// The other ones.
    pub others: Vec<Found>,
}

// By hand, so that a proof has one step for it wherever one is dropped, in this crate and above.
impl Drop for Weakness {
    fn drop(self) {
        let Weakness {
            earlier: _,
            later: _,
            spot: _,
            numbers: _,
            shown,
            moved: _,
            others,
        } = self;
        drop(shown);
        drop(others);
    }
}

impl Weakness {
    /// The address of the instruction before which a fence is tried.
    pub fn pc(&self) -> u64
        ensures { result ≡ pc_of self.now }
    {
        match self.spot {
            Spot::Behind(pc) => pc.saturating_add(4),
            Spot::Before(pc) | Spot::Between(_, pc) => pc,
        }
    }
}

/// The gaps of a search.
#[derive(Drop)]
pub(crate) struct Gathered {
    pub weaknesses: Vec<Weakness>,
    /// Numbers that no fence at a gap would mend.
    pub unnamed: Tally,
}

/// That a fence at a spot forbids an execution.
#[derive(Clone, Copy)]
struct Vote {
    spot: Spot,
    /// How far it is from the operation that moved.
    distance: u32,
}

/// A spot, and what speaks for it.
#[derive(Clone, Copy)]
struct Candidate {
    spot: Spot,
    /// How many executions a fence there forbids.
    executions: u32,
    /// The sum of its distances in them.
    distance: u64,
}

/// Chooses gaps until each execution is forbidden by a fence at one of them: always right behind or right before an instruction where it
/// forbids the most of those that are left.
///
/// # Errors
///
/// `OutOfMemory` alone.
pub(crate) fn fewest_weaknesses(alloc: Global, founds: Vec<Found>) -> Result<Gathered, OutOfMemory>
    requires few { length founds.items < 2 ^ 32 }
    // None is lost.
    ensures { IfOk result (λ g. plans_of g.weaknesses.items + g.unnamed.plans
        ≡ length founds.items) }
{
    let mut left = founds;
    let mut gathered = Gathered {
        weaknesses: Vec::new(alloc),
        unnamed: Tally::none(),
    };
    for _ in 0..left.len() {
        let Some(spot) = elected(spots_of(alloc, &left)?) else {
            break;
        };
        add_weakness(alloc, spot, &mut left, &mut gathered)?;
    }
    gathered.unnamed = gathered.unnamed.joined(numbers_of(&left));
    Ok(gathered)
}

/// Adds the gap of a spot, and takes away the executions that a fence there forbids.
fn add_weakness(
    alloc: Global,
    spot: Spot,
    left: &mut Vec<Found>,
    gathered: &mut Gathered,
) -> Result<(), OutOfMemory>
    requires few { plans_of gathered.old.weaknesses.items + gathered.old.unnamed.plans + length
        left.old.items < 2 ^ 32 }
    ensures { OnOk result
        (plans_of gathered.new.weaknesses.items + gathered.new.unnamed.plans + length left.new.items
        ≡ plans_of gathered.old.weaknesses.items + gathered.old.unnamed.plans + length
        left.old.items) }
{
    let hit = taken_away(alloc, left, spot)?;
    let numbers = numbers_of(&hit);
    match weakness_at(alloc, spot, numbers, hit)? {
        Some(weakness) => gathered.weaknesses.push(weakness)?,
        None => gathered.unnamed = gathered.unnamed.joined(numbers),
    }
    Ok(())
}

/// For each execution the spots next to an instruction.
fn spots_of(alloc: Global, founds: &[Found]) -> Result<Vec<Vote>, OutOfMemory> {
    let mut votes = Vec::new(alloc);
    for found in founds {
        for gap in &found.moves.gaps {
            add_vote(found, &mut votes, Spot::Behind(gap.earlier), gap)?;
            add_vote(found, &mut votes, Spot::Before(gap.later), gap)?;
        }
    }
    Ok(votes)
}

/// For each execution the gap that a spot is in.
fn gaps_of(alloc: Global, founds: &[Found], spot: Spot) -> Result<Vec<Vote>, OutOfMemory> {
    let mut votes = Vec::new(alloc);
    for found in founds {
        if let Some(gap) = found.nearest(spot) {
            votes.push(Vote {
                spot: Spot::Between(gap.earlier, gap.later),
                distance: gap.distance,
            })?;
        }
    }
    Ok(votes)
}

/// The spot that has the most votes.
fn elected(votes: Vec<Vote>) -> Option<Spot> {
    let mut votes = votes;
    votes.sort_unstable_by_key(|vote| vote.spot);
    let mut best: Option<Candidate> = None;
    let mut current: Option<Candidate> = None;
    for vote in &votes {
        current = Some(match current {
            Some(last) if last.spot == vote.spot => last.with(vote),
            _ => {
                best = better(best, current);
                Candidate::new(vote.spot).with(vote)
            }
        });
    }
    better(best, current).map(|best| best.spot)
}

impl Candidate {
    /// A spot for which nothing speaks yet.
    fn new(spot: Spot) -> Candidate {
        Candidate {
            spot,
            executions: 0,
            distance: 0,
        }
    }

    /// The same with another vote.
    fn with(self, vote: &Vote) -> Candidate {
        Candidate {
            spot: self.spot,
            executions: self.executions.saturating_add(1),
            distance: self.distance.saturating_add(u64::from(vote.distance)),
        }
    }

    /// What decides between candidates: the least is chosen.
    fn key(&self) -> (u32, u64, Spot) {
        (u32::MAX - self.executions, self.distance, self.spot)
    }
}

/// The better one of two candidates.
fn better(best: Option<Candidate>, other: Option<Candidate>) -> Option<Candidate> {
    match (best, other) {
        (Some(best), Some(other)) if other.key() < best.key() => Some(other),
        (None, other) => other,
        (best, _) => best,
    }
}

/// An execution votes for a spot, where no other of its gaps that has it is nearer.
fn add_vote(
    found: &Found,
    votes: &mut Vec<Vote>,
    spot: Spot,
    gap: &Gap,
) -> Result<(), OutOfMemory> {
    if found.nearest(spot) == Some(*gap) {
        votes.push(Vote {
            spot,
            distance: gap.distance,
        })?;
    }
    Ok(())
}

/// What decides which execution is shown at a spot: the least is chosen.
fn cost_of(found: &Found, spot: Spot) -> (u32, usize, u64, u32) {
    let distance = match found.nearest(spot) {
        Some(gap) => gap.distance,
        None => u32::MAX,
    };
    (
        distance,
        found.departures.len(),
        found.span.all,
        found.number,
    )
}

/// The executions that a fence at a spot forbids, which are taken away from all.
fn taken_away(alloc: Global, founds: &mut Vec<Found>, spot: Spot) -> Result<Vec<Found>, OutOfMemory>
    ensures { IfOk result (λ hit. length hit.items + length founds.new.items
        ≡ length founds.old.items) }
{
    let all = mem::replace(founds, Vec::new(alloc));
    let mut hit = Vec::new(alloc);
    for found in all {
        if found.nearest(spot).is_some() {
            hit.push(found)?;
        } else {
            founds.push(found)?;
        }
    }
    Ok(hit)
}

/// The gap of a spot where a fence forbids these executions, of these numbers.
fn weakness_at(
    alloc: Global,
    spot: Spot,
    numbers: Tally,
    hit: Vec<Found>,
) -> Result<Option<Weakness>, OutOfMemory>
    ensures { IfOk result (λ found. IfSome found (λ w. w.numbers ≡ numbers)) }
{
    match elected(gaps_of(alloc, &hit, spot)?) {
        Some(between) => Ok(told_at(spot, between, numbers, hit)),
        None => Ok(None),
    }
}

/// How many executions these are, and the least of their numbers.
fn numbers_of(founds: &[Found]) -> Tally
    requires { length founds.now < 2 ^ 32 }
    ensures { result.plans ≡ length founds.now }
{
    let mut first = u32::MAX;
    for found in founds {
        first = first.min(found.number);
    }
    Tally {
        plans: founds.len() as u32,
        first,
    }
}

/// The execution that is shown at a spot, which is taken away from these.
fn shown_at(spot: Spot, founds: &mut Vec<Found>) -> Option<Found> {
    let index = index_shown(spot, founds);
    if index < founds.len() {
        Some(founds.swap_remove(index))
    } else {
        None
    }
}

/// The index of the execution that is shown at a spot, where there is one.
fn index_shown(spot: Spot, founds: &[Found]) -> usize {
    let mut best = 0;
    for index in 1..founds.len() {
        if cost_of(&founds[index], spot) < cost_of(&founds[best], spot) {
            best = index;
        }
    }
    best
}

/// What is told of a spot where a fence forbids these executions, and of the gap in it that most have.
fn told_at(spot: Spot, between: Spot, numbers: Tally, hit: Vec<Found>) -> Option<Weakness>
    ensures { IfSome result (λ w. w.numbers ≡ numbers) }
{
    let mut others = hit;
    let shown = shown_at(between, &mut others)?;
    match shown.gap_at(between) {
        Some((gap, moved)) => Some(Weakness {
            earlier: gap.earlier,
            later: gap.later,
            spot,
            numbers,
            moved,
            shown,
            others,
        }),
        None => None,
    }
}
