ghost use Rattle.std.specs.Prelude.{◌≡◌, ◌≢◌, true, Some};
ghost use Rattle.round_schedule.specs.declared.access.Stepped.TheVariants.{Done};
ghost use Rattle.hart_step.specs.Registers.{HoldsZero, reg, set_reg};
ghost use Rattle.hart_step.specs.Step.{fenced, next_pc, stopped_with, went_on};

use round_schedule::Access;
use rv64_decode::{FenceMode, FenceSet, Reg};

/// Why a hart has stopped, for good.
#[derive(Clone, Copy, Debug, PartialEq, Eq)]
pub struct Stop {
    /// 1 for the exit call, 2 for an illegal word, 3 for a fetch outside code, 4 for a taken jump to a target
    /// that is not a multiple of 4, 5 to 9 for the fault of an access, 10 for EBREAK.
    pub code: u8,
    /// The value that the exit call gave, and 0 with every other code.
    pub value: u64,
}

/// The state of one hart (manual, section 2.1).
#[derive(Clone, Copy, PartialEq, Eq)]
pub struct Hart {
    /// The registers. `x[0]` is not looked at: register x0 reads 0.
    pub x: [u64; 32],
    /// The address of the next instruction.
    pub pc: u64,
    /// Why the hart has stopped, or `None` while it runs.
    pub stop: Option<Stop>,
    /// How many instructions the hart has done, modulo 2^64.
    // Not beside `pc`. Each instruction writes both, and of two neighbours the compiler reads and writes 16 bytes at once
    // where it can: such a read waits until the two writes before it are through.
    pub done: u64,
}

impl Hart {
    /// A register's value; x0 reads 0 (manual, section 2.1).
    #[inline(always)]
    pub fn reg(&self, r: Reg) -> u64
        ensures { result ≡ reg self.now.x r }
    {
        self.read::<false>(r)
    }

    /// The same. Where `x[0]` is known to hold 0, x0 is read like any other.
    #[inline(always)]
    pub(crate) fn read<const ZEROED: bool>(&self, r: Reg) -> u64
        requires { ZEROED ≡ true → HoldsZero self.now.x }
        ensures { result ≡ reg self.now.x r }
    {
        // Read in any case, so that x0 takes no jump.
        let value = self.x[r.index()];
        if !ZEROED && r.index() == 0 { 0 } else { value }
    }

    /// Sets a register; x0 keeps its 0.
    #[inline(always)]
    pub fn set_reg(&mut self, r: Reg, value: u64)
        ensures { self.new ≡ record self.old { x = set_reg self.old.x r value } }
    {
        if r.index() != 0 {
            self.x[r.index()] = value;
        }
    }

    /// Sets a register other than x0, with no look whether it is x0.
    #[inline(always)]
    pub(crate) fn set_other_reg(&mut self, r: Reg, value: u64)
        requires { r ≢ 0 }
        ensures { self.new ≡ record self.old { x = set_reg self.old.x r value } }
    {
        self.x[r.index()] = value;
    }

    /// Counts the instruction as done, and goes on at an address.
    #[inline(always)]
    pub(crate) fn go_to(&mut self, pc: u64)
        ensures { self.new ≡ went_on self.old 0 0 pc }
    {
        self.pc = pc;
        self.done = self.done.wrapping_add(1);
    }

    /// Counts the instruction as done, gives rd a value, and goes on behind the instruction.
    #[inline(always)]
    pub fn go_on(&mut self, rd: Reg, value: u64)
        ensures { self.new ≡ went_on self.old rd value (next_pc self.old) }
    {
        let next = self.pc.wrapping_add(4);
        self.set_reg(rd, value);
        self.go_to(next);
    }

    /// Counts a fence as done, and goes on behind it. Gives the access that it is (manual, section 2.7).
    #[inline(always)]
    pub fn pass_fence(&mut self, before: FenceSet, after: FenceSet, mode: FenceMode) -> Access
        ensures access { Done (Some result) ≡ (fenced self.old before after mode).answer }
        ensures hart { self.new ≡ (fenced self.old before after mode).hart }
    {
        let place = self.done;
        let next = self.pc.wrapping_add(4);
        self.go_to(next);
        Access::Fence {
            before,
            after,
            mode,
            place,
        }
    }

    /// Stops the hart for good with a code and a value, and changes nothing else.
    #[inline(always)]
    pub fn halt(&mut self, code: u8, value: u64)
        ensures { self.new ≡ stopped_with self.old code value }
    {
        self.stop = Some(Stop { code, value });
    }
}
