//! The harts that have stopped.

ghost use Rattle.std.specs.Prelude.{◌≡◌, ◌++◌, ◌≤◌, length, OnOk};
ghost use Rattle.execution_moments.specs.Courses.{stopped_from, stopped_one};

use crate::course::HartMoment;
use hart_step::Hart;
use pages::OutOfMemory;

/// Adds the moment of a hart, where it has stopped.
fn add_one(moments: &mut Vec<HartMoment>, number: u8, hart: &Hart) -> Result<(), OutOfMemory>
    ensures { OnOk result (moments.new.items ≡ moments.old.items ++ stopped_one number hart.now) }
{
    if hart.stop.is_some() {
        moments.push(HartMoment {
            number,
            index: None,
            hart: *hart,
        })?;
    }
    Ok(())
}

/// Adds the moments of those harts that have stopped.
pub(crate) fn add_stopped(moments: &mut Vec<HartMoment>, harts: &[Hart]) -> Result<(), OutOfMemory>
    requires { length harts.now ≤ 64 }
    ensures { OnOk result (moments.new.items ≡ moments.old.items ++ stopped_from 0 harts.now) }
{
    for number in 0..harts.len() {
        add_one(moments, number as u8, &harts[number])?;
    }
    Ok(())
}
