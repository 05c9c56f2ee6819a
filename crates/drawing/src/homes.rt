//! Where the program has an operation that is out of its hart's order.

use crate::scene::ExecutionScene;
use crate::strays::Stray;
use round_schedule::Event;

/// A neighbour in the program of an operation that is out of order: the nearest one of its hart, on the side where it belongs, that is
/// in order itself.
#[derive(Clone, Copy)]
pub(crate) struct Home {
    /// How the operation is out of order: where it is late it belongs before the neighbour, and where it is early behind it.
    pub stray: Stray,
    /// The neighbour's index among the instructions of all harts.
    pub neighbour: usize,
    /// How many instructions its hart does before the neighbour.
    pub number: u64,
}

/// Whether the operation at an index is nearer to another than what was found so far, on the side where that belongs.
fn is_nearer(stray: Stray, sought: usize, index: usize, found: Option<Home>) -> bool {
    match (stray, found) {
        (Stray::Late, None) => index > sought,
        (Stray::Early, None) => index < sought,
        (Stray::Late, Some(nearest)) => index > sought && index < nearest.neighbour,
        (Stray::Early, Some(nearest)) => index < sought && index > nearest.neighbour,
    }
}

/// Where the program has the operation of an event at an index, which is out of its hart's order in this way.
pub(crate) fn home_of(
    scene: &ExecutionScene<'_>,
    strays: &[Option<Stray>],
    stray: Stray,
    sought: usize,
    event: &Event,
) -> Option<Home> {
    let mut found = None;
    for (position, mark) in strays.iter().enumerate() {
        let Some((index, other)) = scene.operation(position) else {
            continue;
        };
        let is_own = other.hart == event.hart && mark.is_none();
        if is_own && is_nearer(stray, sought, index, found) {
            found = Some(Home {
                stray,
                neighbour: index,
                number: other.access.place(),
            });
        }
    }
    found
}
