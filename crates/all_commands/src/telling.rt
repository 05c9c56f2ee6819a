//! What is said of a table that is out already, so it is no failure where that can't be written.

use command_line::AllEndings;
use endings_finder::FoundEndings;
use program_files::World;

/// Says on standard error how many endings the judge refused, if there are some, and how executions of the bad ones come to be written.
pub(crate) fn tell_found<W: World>(asked: &AllEndings<'_>, found: &FoundEndings, world: &W) {
    let refused = found.refused;
    if refused != 0 {
        world.tell(format_args!(
            "the checker refuses {refused} endings that were found: this is a fault of dethart, and this line, with the command, is a bug report"
        ));
    }
    if asked.keep.is_none() && found.table.endings.iter().any(|ending| ending.is_bad()) {
        world.tell(format_args!("--keep FOLDER writes an execution of each ending"));
    }
}
