//! Where the boxes of a picture stand: one below the other.

use crate::homes::{Home, home_of};
use crate::scene::ExecutionScene;
use crate::strays::strays_of;
use pages::OutOfMemory;
use picture::{EventBox, Site};
use std::alloc::Global;

/// The most boxes that a picture has.
pub(crate) const MOST: usize = 400;

/// How far the first box stands from the top.
const FIRST_TOP: u32 = 190;

/// How far a box stands below the one above it.
const STEP: u32 = 68;

/// The box of an operation.
#[derive(Clone, Copy)]
pub(crate) struct OperationBox<'a> {
    /// The position in the order.
    pub position: usize,
    /// The operation, and where the box stands.
    pub shown: EventBox,
    pub site: Site<'a>,
    /// Where the program has it, where it is out of its hart's order.
    pub home: Option<Home>,
}

/// The boxes of what is drawn of an execution.
pub(crate) fn boxes_of<'a>(
    alloc: Global,
    scene: &ExecutionScene<'a>,
) -> Result<Vec<OperationBox<'a>>, OutOfMemory> {
    let strays = strays_of(alloc, scene)?;
    let mut boxes = Vec::new(alloc);
    let mut top = FIRST_TOP;
    for (number, position) in scene.positions.iter().enumerate().take(MOST) {
        let Some((index, event)) = scene.operation(*position) else {
            continue;
        };
        let home = match strays.get(*position) {
            Some(Some(stray)) => home_of(scene, &strays, *stray, index, &event),
            _ => None,
        };
        boxes.push(OperationBox {
            position: *position,
            shown: EventBox {
                index,
                event,
                times: 1,
                top,
            },
            site: site_at(scene.sites, number),
            home,
        })?;
        top = top.saturating_add(STEP);
    }
    Ok(boxes)
}

/// What is known of the operation of a number; nothing past the list.
fn site_at<'a>(sites: &[Site<'a>], number: usize) -> Site<'a> {
    match sites.get(number) {
        Some(site) => *site,
        None => Site {
            pc: None,
            object: None,
        },
    }
}

/// How far the lower end of the last box is from the top, and where that of the first one would be at least.
pub(crate) fn bottom_of(boxes: &[OperationBox<'_>]) -> u64 {
    let top = match boxes.last() {
        Some(last) => last.shown.top,
        None => FIRST_TOP,
    };
    top as u64 + 48
}
