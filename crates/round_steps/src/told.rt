ghost use Rattle.std.specs.Prelude.{◌≡◌, filter, if◌then◌else◌, None};
ghost use Rattle.round_steps.specs.Points.{earliest, latest, later, sooner};
ghost use Rattle.past_harts.specs.Points.{point_before};

use past_harts::Point;

/// What is told at a point.
#[derive(Clone, Copy)]
pub struct Told {
    /// The point.
    pub point: Point,
    /// The watchpoint that tells it, by its index in the list, where one does.
    pub watch: Option<usize>,
}

/// The earlier one of two, the first of them where they are at one point.
fn sooner(told: Option<Told>, other: Told) -> Option<Told>
    ensures { result ≡ sooner told other }
{
    match told {
        None => Some(other),
        Some(told) => {
            if other.point.is_before(&told.point) {
                Some(other)
            } else {
                Some(told)
            }
        }
    }
}

/// The later one of two, the last of them where they are at one point.
fn later(told: Option<Told>, other: Told) -> Option<Told>
    ensures { result ≡ later told other }
{
    match told {
        None => Some(other),
        Some(told) => {
            if other.point.is_before(&told.point) {
                Some(told)
            } else {
                Some(other)
            }
        }
    }
}

/// The earlier one of two, where the other one is to be told.
fn sooner_if(tells: bool, told: Option<Told>, other: Told) -> Option<Told>
    ensures { result ≡ (if tells then sooner told other else told) }
{
    if tells { sooner(told, other) } else { told }
}

/// The later one of two, where the other one is to be told.
fn later_if(tells: bool, told: Option<Told>, other: Told) -> Option<Told>
    ensures { result ≡ (if tells then later told other else told) }
{
    if tells { later(told, other) } else { told }
}

/// The earliest one behind a point.
pub(crate) fn earliest_behind(here: &Point, told: &[Told]) -> Option<Told>
    ensures { result ≡ earliest None (filter (λ x. point_before here.now x.point) told.now) }
{
    let mut found = None;
    for one in told {
        found = sooner_if(here.is_before(&one.point), found, *one);
    }
    found
}

/// The latest one before a point.
pub(crate) fn latest_before(here: &Point, told: &[Told]) -> Option<Told>
    ensures { result ≡ latest None (filter (λ x. point_before x.point here.now) told.now) }
{
    let mut found = None;
    for one in told {
        found = later_if(one.point.is_before(here), found, *one);
    }
    found
}
