ghost use Rattle.std.specs.Prelude.{◌≡◌, ◌+◌, ◌<◌, ◌^◌, ◌++◌, OnOk, length};
ghost use Rattle.report_lines.specs.Text.{hart_text, hart_line, register_line, register_lines, stop_text};

use crate::line::Line;
use hart_step::{Hart, Stop};
use pages::OutOfMemory;

/// Adds why a hart stopped, or that it runs.
pub fn add_stop(line: &mut Line, stop: Option<Stop>) -> Result<(), OutOfMemory>
    ensures { OnOk result (line.new ≡ line.old ++ stop_text stop) }
{
    match stop {
        None => line.text("running"),
        Some(stop) => {
            if stop.code == 1 {
                line.text("exit ")?;
                line.hex(stop.value, 16)
            } else {
                line.text("stop ")?;
                line.decimal(stop.code as u64)
            }
        }
    }
}

#[tactic(auto, unfolding(crate::specs::Text::hart_line))]
fn hart_line(line: &mut Line, number: u64, hart: &Hart) -> Result<(), OutOfMemory>
    ensures { OnOk result (line.new ≡ line.old ++ hart_line number hart.now) }
{
    line.text("hart ")?;
    line.decimal(number)?;
    line.text(" pc ")?;
    line.hex(hart.pc, 16)?;
    line.text(" done ")?;
    line.decimal(hart.done)?;
    line.text(" ")?;
    add_stop(line, hart.stop)?;
    line.text("\n")
}

#[tactic(auto, unfolding(crate::specs::Text::register_line))]
fn register_line(line: &mut Line, number: u64, value: u64) -> Result<(), OutOfMemory>
    ensures { OnOk result (line.new ≡ line.old ++ register_line number value) }
{
    if number == 0 || value == 0 {
        return Ok(());
    }
    line.text("x")?;
    line.decimal(number)?;
    line.text(" ")?;
    line.hex(value, 16)?;
    line.text("\n")
}

fn register_lines(line: &mut Line, first: u64, values: &[u64]) -> Result<(), OutOfMemory>
    requires { first + length values.now < 2 ^ 64 }
    ensures { OnOk result (line.new ≡ line.old ++ register_lines first values.now) }
{
    match values {
        [] => Ok(()),
        [value, rest @ ..] => {
            register_line(line, first, *value)?;
            register_lines(line, first + 1, rest)
        }
    }
}

/// Adds a hart's lines: its state, and its registers 1 to 31 that are not 0.
#[tactic(auto, unfolding(crate::specs::Text::hart_text))]
pub fn hart_lines(line: &mut Line, number: u64, hart: &Hart) -> Result<(), OutOfMemory>
    ensures { OnOk result (line.new ≡ line.old ++ hart_text number hart.now) }
{
    hart_line(line, number, hart)?;
    register_lines(line, 0, &hart.x)
}
