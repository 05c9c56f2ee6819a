//! Where an instruction leads, and which number it puts into a register.
ghost use Rattle.std.specs.Prelude.{◌≡◌, ◌*◌, ◌/◌, ℕ, IfSome, IsTrue, Some};
ghost use Rattle.hart_step.specs.Numbers.{low, minus, plus, sll};
ghost use Rattle.all_endings.specs.Locality.{view};
ghost use Rattle.early_reads.specs.Flows.{IsAmong, IsPut, MovesFrom, flow_of};

use hart_states::known;
use rv64_decode::{Instr, Reg};

/// How an instruction goes on.
#[derive(Clone, Copy)]
pub enum Flow {
    /// At the next word.
    On,
    /// So far on.
    Jump(u64),
    /// At an address that is so far from what a register holds.
    Turn(Reg, u64),
    /// At the next word, or so far on.
    Branch(u64),
}

/// Where an instruction may lead.
#[derive(Clone, Copy)]
pub(crate) enum Targets {
    /// To an address.
    One(u64),
    /// To one of two.
    Two(u64, u64),
    /// Anywhere.
    Anywhere,
}

/// How an instruction goes on.
pub fn flow_of(i: &Instr) -> Flow
    ensures { result ≡ flow_of i.now }
{
    match *i {
        Instr::Jal { imm, .. } => Flow::Jump(imm),
        Instr::Jalr { rs1, imm, .. } => Flow::Turn(rs1, imm),
        Instr::Beq { imm, .. } => Flow::Branch(imm),
        Instr::Bne { imm, .. } => Flow::Branch(imm),
        Instr::Blt { imm, .. } => Flow::Branch(imm),
        Instr::Bge { imm, .. } => Flow::Branch(imm),
        Instr::Bltu { imm, .. } => Flow::Branch(imm),
        Instr::Bgeu { imm, .. } => Flow::Branch(imm),
        _ => Flow::On,
    }
}

/// Where an indirect jump may lead.
fn turning(constants: &[Option<u64>; 32], base: Reg, distance: u64) -> Targets
    ensures { (next : ℕ) → ((n : ℕ) → view constants.now base ≡ Some n →
        next ≡ plus n distance / 2 * 2) → IsAmong result next }
{
    match known(constants, base) {
        Some(number) => Targets::One(number.wrapping_add(distance) / 2 * 2),
        None => Targets::Anywhere,
    }
}

/// Where an instruction at an address may lead.
pub(crate) fn targets_of(constants: &[Option<u64>; 32], pc: u64, i: &Instr) -> Targets
    ensures { MovesFrom constants.now pc i.now (λ a v. IsAmong result v.next) }
{
    match flow_of(i) {
        Flow::On => Targets::One(pc.wrapping_add(4)),
        Flow::Jump(distance) => Targets::One(pc.wrapping_add(distance)),
        Flow::Turn(base, distance) => turning(constants, base, distance),
        Flow::Branch(distance) => Targets::Two(pc.wrapping_add(4), pc.wrapping_add(distance)),
    }
}

fn is_zero(number: Option<u64>) -> bool
    ensures { IsTrue result → number ≡ Some 0 }
{
    match number {
        Some(number) => number == 0,
        None => false,
    }
}

/// Whether an instruction ends the hart: the call of the number 0. Then it leads nowhere.
pub(crate) fn is_exit(constants: &[Option<u64>; 32], i: &Instr) -> bool
    ensures { IsTrue result → (pc : ℕ) → MovesFrom constants.now pc i.now (λ a v. ⊥) }
{
    match *i {
        Instr::Ecall => is_zero(known(constants, Reg::new(17))),
        _ => false,
    }
}

/// The sum of what a register holds and a number, where that is known.
fn sum_with(constants: &[Option<u64>; 32], register: Reg, number: u64) -> Option<u64>
    ensures { IfSome result (λ n. (k : ℕ) × (view constants.now register ≡ Some k) ×
        (n ≡ plus k number)) }
{
    match known(constants, register) {
        Some(base) => Some(base.wrapping_add(number)),
        None => None,
    }
}

/// The sum of what two registers hold.
fn sum_of(constants: &[Option<u64>; 32], first: Reg, second: Reg) -> Option<u64>
    ensures { IfSome result (λ n. (k l : ℕ) × (view constants.now first ≡ Some k) ×
        (view constants.now second ≡ Some l) × (n ≡ plus k l)) }
{
    match known(constants, second) {
        Some(number) => match known(constants, first) {
            Some(base) => Some(base.wrapping_add(number)),
            None => None,
        },
        None => None,
    }
}

/// What a register holds less what another one does.
fn difference_of(constants: &[Option<u64>; 32], first: Reg, second: Reg) -> Option<u64>
    ensures { IfSome result (λ n. (k l : ℕ) × (view constants.now first ≡ Some k) ×
        (view constants.now second ≡ Some l) × (n ≡ minus k l)) }
{
    match known(constants, second) {
        Some(number) => match known(constants, first) {
            Some(base) => Some(base.wrapping_sub(number)),
            None => None,
        },
        None => None,
    }
}

/// What a register holds, shifted to the left.
fn shifted(constants: &[Option<u64>; 32], register: Reg, shift: u8) -> Option<u64>
    ensures { IfSome result (λ n. (k : ℕ) × (view constants.now register ≡ Some k) ×
        (n ≡ sll k (low 6 shift))) }
{
    match known(constants, register) {
        Some(base) => Some(base << (shift & 63)),
        None => None,
    }
}

/// The number that an instruction puts into its register, where it is known of its kind: it makes an address, or moves a number.
pub(crate) fn number_put(constants: &[Option<u64>; 32], pc: u64, i: &Instr) -> Option<u64>
    ensures { IfSome result (λ n. IsPut i.now constants.now pc n) }
{
    match *i {
        Instr::Lui { imm, .. } => Some(imm),
        Instr::Auipc { imm, .. } => Some(pc.wrapping_add(imm)),
        Instr::Addi { rs1, imm, .. } => sum_with(constants, rs1, imm),
        Instr::Add { rs1, rs2, .. } => sum_of(constants, rs1, rs2),
        Instr::Sub { rs1, rs2, .. } => difference_of(constants, rs1, rs2),
        Instr::Slli { rs1, shift, .. } => shifted(constants, rs1, shift),
        Instr::Jal { .. } => Some(pc.wrapping_add(4)),
        Instr::Jalr { .. } => Some(pc.wrapping_add(4)),
        _ => None,
    }
}
