ghost use Rattle.std.specs.Prelude.{IfOk};
ghost use Rattle.past_commands.specs.Checks.{IsCheckAnswer};

use crate::answer::Answer;
use execution_commands::{verdict_status, verdict_text};
use execution_scripts::Checked;
use pages::OutOfMemory;
use std::alloc::Global;

/// What is told of an execution that was checked, as `check` tells it.
pub(crate) fn check_answer(alloc: Global, checked: &Checked) -> Result<Answer, OutOfMemory>
    ensures { IfOk result (IsCheckAnswer checked.now) }
{
    Ok(Answer {
        text: verdict_text(alloc, checked)?,
        status: verdict_status(checked),
    })
}
