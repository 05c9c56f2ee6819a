//! Whether the number of a call is a constant of the code.
ghost use Rattle.std.specs.Prelude.{◌≡◌, IsTrue, false};
ghost use Rattle.run_places.specs.Constants.{GoesOnConstant, LeavesConstant, PutsConstant};
ghost use Rattle.run_places.specs.Following.{KnowsCall};
ghost use Rattle.run_places.specs.Spots.{spot_of};

use crate::place::Place;
use hart_moves::instruction_at;
use hart_states::answered;
use pages::Pages;
use rv64_decode::Instr;

/// The register of the number of a call.
const CALL_NUMBER: usize = 17;

/// Whether a call comes next whose number isn't a constant of the code.
pub fn is_open_call(pages: &Pages, place: &Place) -> bool
    ensures { result ≡ false → KnowsCall pages.now.memory (spot_of place.now) }
{
    match instruction_at(pages, place.state.pc) {
        Some(Instr::Ecall) => !place.constant,
        _ => false,
    }
}

/// Whether an instruction puts a constant of the code into a register: not all that do so are known.
fn puts_constant(i: &Instr) -> bool
    ensures { IsTrue result → PutsConstant i.now }
{
    match *i {
        Instr::Lui { .. } => true,
        Instr::Addi { rs1, .. } => rs1.index() == 0,
        _ => false,
    }
}

/// Whether the number in x17 is a constant of the code behind an instruction, where it was one before or not.
fn constant_behind(before: bool, i: &Instr) -> bool
    ensures { IsTrue result → LeavesConstant before i.now }
{
    if answered(i).index() == CALL_NUMBER {
        puts_constant(i)
    } else {
        before
    }
}

/// Whether the number in x17 is a constant of the code behind the next instruction of a place.
pub fn stays_constant(pages: &Pages, place: &Place) -> bool
    ensures { IsTrue result → GoesOnConstant pages.now.memory (spot_of place.now) }
{
    match instruction_at(pages, place.state.pc) {
        Some(i) => constant_behind(place.constant, &i),
        None => place.constant,
    }
}
