//! The calls whose order a file tells: to put or get a byte, and to ask for the round.

ghost use Rattle.std.specs.Prelude.{◌≡◌, Some, slice_get};
ghost use Rattle.hart_step.specs.declared.hart.Hart.{Hart};
ghost use Rattle.hart_step.specs.Registers.{reg};
ghost use Rattle.execution_scripts.specs.Courses.{taken_as};
ghost use Rattle.execution_scripts.specs.Following.{is_call};

use execution_checker::Execution;
use execution_file::Turn;
use pages::OutOfMemory;
use rv64_decode::Instr;

/// What a step was.
#[derive(Clone, Copy)]
pub enum Taken {
    /// The hart did an instruction.
    Done,
    /// It did a call whose position among the calls makes a difference: to put or get a byte, or to ask for the round.
    Called { round: bool },
    /// It stopped.
    Stopped,
}

/// The number of the call that a hart's next instruction would be.
pub fn call_number(execution: &Execution, hart: u8) -> u64
    ensures { (g : Hart) → slice_get execution.now.standing.harts hart ≡ Some g →
        result ≡ reg g.x 17 }
{
    match execution.harts().get(usize::from(hart)) {
        Some(hart) => hart.x[17],
        None => 0,
    }
}

/// What the instruction at an index of the list was, where x17 was as `call` says.
pub fn taken_at(execution: &Execution, index: usize, call: u64) -> Taken
    ensures { result ≡ taken_as (slice_get execution.now.standing.instructions index) call }
{
    match execution.instructions().get(index) {
        Some(instruction) => taken_as(*instruction, call),
        None => Taken::Done,
    }
}

/// What an instruction is, where x17 is as `call` says.
fn taken_as(instruction: Instr, call: u64) -> Taken
    ensures { result ≡ taken_as (Some instruction) call }
{
    if is_call(instruction, call) {
        Taken::Called { round: call == 3 }
    } else {
        Taken::Done
    }
}

/// Whether it is a call whose position among the calls makes a difference.
fn is_call(instruction: Instr, call: u64) -> bool
    ensures { result ≡ is_call instruction call }
{
    match instruction {
        Instr::Ecall => 1 <= call && call <= 3,
        _ => false,
    }
}

/// Adds what a hart did in a round, if it is such a call.
pub fn add_call(
    calls: &mut Vec<Turn>,
    hart: u8,
    round: u32,
    taken: Taken,
) -> Result<(), OutOfMemory> {
    if let Taken::Called { round: asks } = taken {
        let number = if asks { Some(u64::from(round)) } else { None };
        calls.push(Turn { hart, number })?;
    }
    Ok(())
}

/// Forgets the calls where one hart alone makes them and none asks for the round, as they have no other order then.
pub fn forget_plain(calls: &mut Vec<Turn>) {
    if is_plain(calls) {
        calls.clear();
    }
}

/// Whether one hart makes all calls, and none asks for the round.
fn is_plain(calls: &[Turn]) -> bool {
    match calls.first() {
        Some(first) => calls
            .iter()
            .all(|turn| turn.hart == first.hart && turn.number.is_none()),
        None => true,
    }
}
