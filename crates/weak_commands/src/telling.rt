//! Lines that repeat what was found. They are told when what was asked for is out already, so it is no failure where they can't be
//! written, or there is no memory for them.

use crate::repeating::Repeating;
use command_line::Fences;
use fence_finder::{Compared, FoundFences};
use fence_table::FenceTable;
use hunt_commands::tell_bounds;
use program_files::World;
use std::alloc::{AllocError, Global};

/// Says on standard error, for each missing fence, the line that repeats the execution that shows it, or the file in which that is kept. One
/// that runs on past its own plan isn't that of its number as it is drawn.
pub(crate) fn tell_missing<W: World>(
    alloc: Global,
    asked: &Fences<'_>,
    found: &FoundFences,
    world: &W,
) -> Result<(), AllocError> {
    let repeating = Repeating::of(alloc, asked)?;
    for (index, missing) in found.table.missing.iter().enumerate() {
        let (number, shown) = (index.saturating_add(1), missing.shown);
        let is_drawn = asked.as_if_fence.is_empty() && shown.steps <= found.compared.own_steps;
        match asked.keep {
            Some(folder) if !is_drawn => {
                world.tell(format_args!("missing {number}: {folder}/{number}.execution"));
            }
            _ => {
                let said = format_args!("missing {number}");
                repeating.tell(world, said, shown.number, is_drawn);
            }
        }
    }
    Ok(())
}

/// Says on standard error how far executions were followed that still ran then, if there are some.
pub(crate) fn tell_running<W: World>(asked: &Fences<'_>, table: &FenceTable, world: &W) {
    if table.running.plans != 0 {
        tell_bounds(asked.steps, asked.search.program.rounds, world);
    }
}

/// Says on standard error what of the executions isn't compared with that of ordinary runs.
pub(crate) fn tell_compared<W: World>(compared: Compared, world: &W) {
    if !compared.ends_well {
        world.tell(format_args!(
            "some ordinary runs don't end well, so neither output nor bytes are compared"
        ));
        return;
    }
    if !compared.output {
        world.tell(format_args!("the output of ordinary runs differs, so it isn't compared"));
    }
    if !compared.seen {
        world.tell(format_args!("the bytes of ordinary runs differ, so they aren't compared"));
    }
}
