//! Whether a branch on what is loaded comes right behind a load.
ghost use Rattle.std.specs.Prelude.{◌≡◌, ◌≢◌, ◌⊎◌, ◌%◌, ℕ, true, IsTrue, Some};
ghost use Rattle.pages.specs.Memory.{Memory};
ghost use Rattle.hart_step.specs.DecodedCode.{decoded};
ghost use Rattle.hart_step.specs.Numbers.{plus};
ghost use Rattle.memory_order.specs.Registers.{registers_of};
ghost use Rattle.list_suffixes.specs.LateDebts.{IsBranchedOn};
ghost use Rattle.late_spots.specs.Branching.{BranchesAt, LoadsPlainly};

use early_reads::{Flow, flow_of};
use hart_moves::instruction_at;
use memory_order::used_registers;
use pages::Pages;
use rv64_decode::Instr;

/// Whether an instruction is a plain load.
fn is_plain_load(i: &Instr) -> bool
    ensures { IsTrue result → LoadsPlainly i.now }
{
    match *i {
        Instr::Lb { .. } => true,
        Instr::Lh { .. } => true,
        Instr::Lw { .. } => true,
        Instr::Ld { .. } => true,
        Instr::Lbu { .. } => true,
        Instr::Lhu { .. } => true,
        Instr::Lwu { .. } => true,
        _ => false,
    }
}

/// Whether an instruction can stand so far from an address.
fn is_whole(pc: u64, distance: u64) -> bool
    ensures { IsTrue result → plus pc distance % 4 ≡ 0 }
{
    pc.wrapping_add(distance) % 4 == 0
}

/// Whether it is a branch to where an instruction can stand.
fn branches_at(i: &Instr, pc: u64) -> bool
    ensures { IsTrue result → BranchesAt i.now pc }
{
    match flow_of(i) {
        Flow::Branch(distance) => is_whole(pc, distance),
        _ => false,
    }
}

/// Whether what a load puts into its register steers a branch.
fn steers_by(load: &Instr, branch: &Instr) -> bool
    ensures some { IsTrue result → (registers_of load.now).destination ≢ 0 }
    ensures steers { IsTrue result → (registers_of branch.now).steers ≡ true }
    ensures by_it { IsTrue result →
        ((registers_of branch.now).first ≡ (registers_of load.now).destination)
        ⊎ ((registers_of branch.now).second ≡ (registers_of load.now).destination) }
{
    let read = used_registers(load).destination.index();
    let used = used_registers(branch);
    read != 0 && used.steers && (used.first.index() == read || used.second.index() == read)
}

/// Whether an instruction is a plain load, and one at an address a branch on what it loads.
fn branches_on(load: &Instr, branch: &Instr, next: u64) -> bool
    ensures { IsTrue result → (image : Memory) (pc : ℕ) → next ≡ plus pc 4 →
        decoded image pc ≡ Some load.now → decoded image (plus pc 4) ≡ Some branch.now →
        IsBranchedOn image pc }
{
    if !is_plain_load(load) {
        return false;
    }
    if !branches_at(branch, next) {
        return false;
    }
    steers_by(load, branch)
}

/// Whether a plain load stands at an address, and right behind it a branch on what it loads.
pub(crate) fn is_branched_on(pages: &Pages, pc: u64) -> bool
    ensures { IsTrue result → IsBranchedOn pages.now.memory pc }
{
    let next = pc.wrapping_add(4);
    match instruction_at(pages, pc) {
        Some(load) => match instruction_at(pages, next) {
            Some(branch) => branches_on(&load, &branch, next),
            None => false,
        },
        None => false,
    }
}
