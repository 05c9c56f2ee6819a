//! Where the user wants to go.

ghost use Rattle.std.specs.Prelude.{◌≡◌};
ghost use Rattle.gdb_resumes.specs.Resumes.{goal_passed, is_ahead, is_passed, passed_first};

use crate::searching::Reach;
use past_harts::Point;
use round_steps::Told;
use watching::Way;

/// The goal, where a search from here that has come so far comes there before what it has found.
pub(crate) fn goal_passed(
    reach: Reach,
    here: &Point,
    found: Option<Told>,
    goal: Option<Point>,
) -> Option<Point>
    ensures { result ≡ goal_passed reach.way reach.rounds here.now found goal }
{
    let goal = goal?;
    if is_ahead(reach.way, here, &goal) && passed_first(reach, &goal, found) {
        Some(goal)
    } else {
        None
    }
}

/// Whether the search has passed the goal, and found nothing before it.
fn passed_first(reach: Reach, goal: &Point, found: Option<Told>) -> bool
    ensures { result ≡ passed_first reach.way reach.rounds goal.now found }
{
    match found {
        Some(told) => !is_ahead(reach.way, &told.point, goal),
        None => is_passed(reach, goal),
    }
}

/// Whether the search has passed the goal.
fn is_passed(reach: Reach, goal: &Point) -> bool
    ensures { result ≡ is_passed reach.way reach.rounds goal.now }
{
    match reach.way {
        Way::On => goal.moment.rounds < reach.rounds,
        Way::Back => goal.moment.rounds >= reach.rounds,
    }
}

/// Whether a point is ahead of another one, on the way.
fn is_ahead(way: Way, here: &Point, goal: &Point) -> bool
    ensures { result ≡ is_ahead way here.now goal.now }
{
    match way {
        Way::On => here.is_before(goal),
        Way::Back => goal.is_before(here),
    }
}
