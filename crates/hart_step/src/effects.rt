//! The effects that instructions have in common, one function for each.
ghost use Rattle.std.specs.Prelude.{◌≡◌, None};
ghost use Rattle.pages.specs.Memory.{loaded, store_fault};
ghost use Rattle.hart_step.specs.declared.answer.Answer.TheVariants.{Halted};
ghost use Rattle.hart_step.specs.Answers.{with_access};
ghost use Rattle.hart_step.specs.Numbers.{sx};
ghost use Rattle.hart_step.specs.Performs.{IsQuiet, Performs};
ghost use Rattle.hart_step.specs.Step.{cut, extended_to, width_bits, fault_code, went_on, next_pc, stopped_with, put_to, jumped, branched, read_by, written_by, ordered};

use crate::answer::Answer;
use crate::bus::Bus;
use crate::hart::Hart;
use crate::numbers::{extend_byte, extend_halfword, extend_word, low_word};
use pages::{Fault, OutOfMemory, Store, Width};
use round_schedule::Access;
use rv64_decode::{FenceMode, FenceSet, Reg};

/// Gives rd a value, and goes on at an address.
#[inline(always)]
fn put_and_go(h: &mut Hart, rd: Reg, value: u64, pc: u64)
    ensures { h.new ≡ went_on h.old rd value pc }
{
    h.set_reg(rd, value);
    h.go_to(pc);
}

/// Stops the hart, and changes nothing else.
#[inline(always)]
pub(crate) fn halt(h: &mut Hart, code: u8) -> Answer
    ensures answer { result ≡ Halted code }
    ensures hart { h.new ≡ stopped_with h.old code 0 }
{
    h.halt(code, 0);
    Answer::Halted(code)
}

/// The stop code of a fault, 5 to 9.
#[inline]
pub fn stop_code(fault: Fault) -> u8
    ensures { result ≡ fault_code fault }
{
    match fault {
        Fault::LoadMisaligned => 5,
        Fault::LoadOutside => 6,
        Fault::StoreMisaligned => 7,
        Fault::StoreOutside => 8,
        Fault::StoreToCode => 9,
    }
}

/// A value for rd.
#[inline(always)]
pub(crate) fn put(h: &mut Hart, rd: Reg, value: u64) -> Result<Answer, OutOfMemory>
    ensures { IsQuiet (put_to h.old rd value (next_pc h.old)) result None h.new }
{
    h.go_on(rd, value);
    Ok(Answer::Went)
}

/// A taken jump.
#[inline(always)]
pub(crate) fn jump(h: &mut Hart, rd: Reg, target: u64) -> Result<Answer, OutOfMemory>
    ensures { IsQuiet (jumped h.old rd target) result None h.new }
{
    if target % 4 != 0 {
        return Ok(halt(h, 4));
    }
    let next = h.pc.wrapping_add(4);
    put_and_go(h, rd, next, target);
    Ok(Answer::Went)
}

/// A branch.
#[inline(always)]
pub(crate) fn branch(h: &mut Hart, taken: bool, target: u64) -> Result<Answer, OutOfMemory>
    ensures { IsQuiet (branched h.old taken target) result None h.new }
{
    if taken {
        return jump(h, Reg::new(0), target);
    }
    let next = h.pc.wrapping_add(4);
    h.go_to(next);
    Ok(Answer::Went)
}

/// The register that a loaded number gives.
#[inline(always)]
fn extend(signed: bool, width: Width, value: u64) -> u64
    ensures { result ≡ extended_to signed width value }
{
    if signed {
        sign_extended(width, value)
    } else {
        value
    }
}

/// The low bytes of a number as a register, sign-extended.
#[inline(always)]
pub fn sign_extended(width: Width, value: u64) -> u64
    ensures { result ≡ sx (width_bits width) value }
{
    match width {
        Width::W1 => extend_byte(value),
        Width::W2 => extend_halfword(value),
        Width::W4 => extend_word(value),
        Width::W8 => value,
    }
}

/// The low bytes of a register: the number that a store of it leaves in memory.
#[inline(always)]
pub fn cut_to(width: Width, value: u64) -> u64
    ensures { result ≡ cut width value }
{
    match width {
        Width::W1 => value % 0x100,
        Width::W2 => value % 0x1_0000,
        Width::W4 => low_word(value),
        Width::W8 => value,
    }
}

/// A load.
#[inline(always)]
pub(crate) fn load<B: Bus>(
    h: &mut Hart,
    b: &B,
    seen: &mut Option<Access>,
    rd: Reg,
    address: u64,
    width: Width,
    signed: bool,
) -> Result<Answer, OutOfMemory>
    requires { seen.old ≡ None }
    ensures { IsQuiet (read_by h.old rd address width signed
        (loaded (B.memory b.now) address width))
        result seen.new h.new }
{
    match b.load(address, width) {
        Err(f) => Ok(halt(h, stop_code(f))),
        Ok(read) => {
            *seen = Some(Access::Load {
                width,
                place: h.done,
                address,
                read,
            });
            put(h, rd, extend(signed, width, read))
        }
    }
}

/// A store.
#[inline(always)]
pub(crate) fn store<B: Bus>(
    h: &mut Hart,
    b: &mut B,
    seen: &mut Option<Access>,
    address: u64,
    width: Width,
    value: u64,
) -> Result<Answer, OutOfMemory>
    requires { seen.old ≡ None }
    ensures { Performs (with_access seen.new) (B.has_room b.old) (B.takes b.old)
        (record { hart = h.old; memory = B.memory b.old })
        (written_by h.old address width value (store_fault (B.memory b.old) address width))
        (record {
          result = result;
          hart = h.new;
          memory = B.memory b.new;
          bus = b.new;
        }) }
{
    let s = Store {
        address,
        width,
        value,
    };
    match b.store(s)? {
        Err(f) => Ok(halt(h, stop_code(f))),
        Ok(()) => {
            *seen = Some(Access::Store {
                width,
                place: h.done,
                address,
                written: cut_to(width, value),
            });
            let next = h.pc.wrapping_add(4);
            h.go_to(next);
            Ok(Answer::Went)
        }
    }
}

/// A fence: a full one has to wait.
#[inline(always)]
pub(crate) fn order(
    h: &mut Hart,
    seen: &mut Option<Access>,
    before: FenceSet,
    after: FenceSet,
    mode: FenceMode,
) -> Result<Answer, OutOfMemory>
    requires { seen.old ≡ None }
    ensures { IsQuiet (ordered h.old before after mode) result seen.new h.new }
{
    match mode {
        FenceMode::Normal if before.writes && after.reads => Ok(Answer::Waited),
        _ => {
            *seen = Some(h.pass_fence(before, after, mode));
            Ok(Answer::Went)
        }
    }
}
