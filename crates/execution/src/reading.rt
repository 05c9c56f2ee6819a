ghost use Rattle.std.specs.Prelude.{◌≡◌, ◌≢◌, ◌↔◌, ℕ, MatchOption, Some, true};
ghost use Rattle.execution.specs.Progressing.{IsRead};

use hart_step::Hart;
use pages::{Store, Width};
use round_schedule::Stepped;
use rv64_decode::{Atomic, AtomicWidth, Instr, Reg};

/// A number laid where the next instruction of a hart reads one; none where it reads none.
pub(crate) fn laid_for(h: &Hart, next: &Option<Instr>, number: Option<u64>) -> Option<Store> {
    match next {
        Some(instruction) => laid_at(h, instruction, number?),
        None => None,
    }
}

/// The same of an instruction and a number.
fn laid_at(h: &Hart, i: &Instr, number: u64) -> Option<Store> {
    match *i {
        Instr::Lb { rs1, imm, .. } | Instr::Lbu { rs1, imm, .. } => {
            Some(store(h, rs1, imm, Width::W1, number))
        }
        Instr::Lh { rs1, imm, .. } | Instr::Lhu { rs1, imm, .. } => {
            Some(store(h, rs1, imm, Width::W2, number))
        }
        Instr::Lw { rs1, imm, .. } | Instr::Lwu { rs1, imm, .. } => {
            Some(store(h, rs1, imm, Width::W4, number))
        }
        Instr::Ld { rs1, imm, .. } => Some(store(h, rs1, imm, Width::W8, number)),
        _ => laid_atomically(h, i, number),
    }
}

/// The same of an LR or an AMO.
fn laid_atomically(h: &Hart, i: &Instr, number: u64) -> Option<Store> {
    match i.atomic() {
        Some(word) => laid_by(h, word, number),
        None => None,
    }
}

fn laid_by(h: &Hart, word: Atomic, number: u64) -> Option<Store> {
    match word {
        Atomic::LoadReserved { rs1, width, .. } => Some(store(h, rs1, 0, width_of(width), number)),
        Atomic::StoreConditional { .. } => None,
        Atomic::Operation { rs1, width, .. } => Some(store(h, rs1, 0, width_of(width), number)),
    }
}

/// What an instruction read, where that isn't the number that it was given.
pub(crate) fn other_read(answer: Stepped, given: Option<u64>) -> Option<u64>
    ensures { MatchOption result ((v : ℕ) → IsRead answer v →
        given ≡ Some v) (λ v. IsRead answer v × (given ≢ Some v)) }
{
    let Stepped::Done(Some(access)) = answer else {
        return None;
    };
    match access.number_read() {
        Some(read) if !is_given(given, read) => Some(read),
        _ => None,
    }
}

fn is_given(given: Option<u64>, read: u64) -> bool
    ensures { result ≡ true ↔ given ≡ Some read }
{
    match given {
        Some(number) => number == read,
        None => false,
    }
}

fn width_of(width: AtomicWidth) -> Width {
    match width {
        AtomicWidth::Word => Width::W4,
        AtomicWidth::Doubleword => Width::W8,
    }
}

/// A store at an offset from what a register holds.
fn store(h: &Hart, r: Reg, offset: u64, width: Width, value: u64) -> Store {
    Store {
        address: h.reg(r).wrapping_add(offset),
        width,
        value,
    }
}
