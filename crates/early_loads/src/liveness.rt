//! Which registers may be read before they are written.
use crate::control_flow::{Next, next_of};
use crate::guest_code::{CodePart, instruction_in, live_in};
use crate::live_registers::LiveRegisters;
use memory_order::used_registers;
use pages::Pages;
use rv64_decode::{Atomic, Instr, Reg};

/// Finds the live registers of all words: from none on, as long as a word has more of them.
pub(crate) fn settle_live(pages: &Pages, parts: &mut Vec<CodePart>) {
    for _ in 0..u64::MAX {
        let mut grew = false;
        for number in 0..parts.len() {
            grew |= raise_part(pages, parts, number);
        }
        if !grew {
            break;
        }
    }
}

/// The same once for the words of one part, the last first.
fn raise_part(pages: &Pages, parts: &mut Vec<CodePart>, number: usize) -> bool {
    let mut grew = false;
    let count = match parts.get(number) {
        Some(part) => part.live.len(),
        None => 0,
    };
    for behind in 1..count.saturating_add(1) {
        grew |= raise_word(pages, parts, number, count.saturating_sub(behind));
    }
    grew
}

/// The same for one word.
fn raise_word(pages: &Pages, parts: &mut Vec<CodePart>, number: usize, word: usize) -> bool {
    let Some(found) = found_at(pages, parts, number, word) else {
        return false;
    };
    let Some(part) = parts.get_mut(number) else {
        return false;
    };
    let Some(live) = part.live.get_mut(word) else {
        return false;
    };
    let grew = *live != found;
    *live = found;
    grew
}

/// What is live before a word of a part, by what is known of the words that come next. A hart stops where a word is no instruction.
fn found_at(
    pages: &Pages,
    parts: &[CodePart],
    number: usize,
    word: usize,
) -> Option<LiveRegisters> {
    let first = parts.get(number)?.code.first();
    let pc = first.wrapping_add((word as u64).wrapping_mul(4));
    Some(match instruction_in(pages, parts, pc) {
        Some(i) => live_before(&i, live_behind(pages, parts, &i, pc)),
        None => LiveRegisters::NONE,
    })
}

/// What is live behind an instruction.
fn live_behind(pages: &Pages, parts: &[CodePart], i: &Instr, pc: u64) -> LiveRegisters {
    let next = pc.wrapping_add(4);
    match next_of(i) {
        Next::Nowhere => LiveRegisters::NONE,
        Next::On => live_in(pages, parts, next),
        Next::Jump(distance) => live_in(pages, parts, pc.wrapping_add(distance)),
        Next::Branch(distance) => {
            let far = live_in(pages, parts, pc.wrapping_add(distance));
            live_in(pages, parts, next).or(far)
        }
        Next::Anywhere => LiveRegisters::ALL,
    }
}

/// What is live before an instruction. An SC that fails leaves what its destination depended on, so that stays live; a call reads
/// x10 and x17.
fn live_before(i: &Instr, behind: LiveRegisters) -> LiveRegisters {
    let registers = used_registers(i);
    let kept = match i.atomic() {
        Some(Atomic::StoreConditional { .. }) => behind,
        _ => behind.without(registers.destination),
    };
    let read = kept
        .with(registers.address)
        .with(registers.value)
        .with(registers.first)
        .with(registers.second);
    match i {
        Instr::Ecall => read.with(Reg::new(10)).with(Reg::new(17)),
        _ => read,
    }
}
