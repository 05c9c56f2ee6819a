ghost use Rattle.std.specs.Prelude.{◌≡◌, ◌<◌, ◌≤◌, All, length, slice_index, Some, None, true, IfOk, IfErr};
ghost use Rattle.pages.specs.Memory.{IsBytes};
ghost use Rattle.host_io.specs.declared.error.RunError.TheVariants as refusals;
ghost use Rattle.hart_step.specs.Stops.{has_stop};
ghost use Rattle.machine.specs.Machine.{Running, opening};
ghost use Rattle.machine.specs.Untraced.{IsUntraced, untraced_of};

use elf_loader::Image;
use guest_rounds::GuestState;
use hart_step::Hart;
use host_io::RunError;
use laid_image::LaidImage;
use lasting_workers::RoundWork;
use pages::Pages;
use round_planner::Plan;
use round_schedule::Reservations;
use serial_phase::Console;
use std::alloc::Global;
use std::marker::Model;

/// A guest program between two rounds that keeps no trace, but the number of events that the trace would have. Its memory
/// grows with the guest, and never with the run.
// docs/decisions/untraced-and-pictures.md
pub struct UntracedMachine {
    pub(crate) guest: GuestState,
    pub(crate) plan: Plan,
    pub(crate) rounds: u32,
    pub(crate) events: u64,
    /// About how much the next round has to do.
    pub(crate) work: RoundWork,
}

// By hand, so that a proof has one step for it wherever one is dropped, in this crate and above.
impl Drop for UntracedMachine {
    fn drop(self) {
        let UntracedMachine {
            guest,
            plan,
            rounds: _,
            events: _,
            work: _,
        } = self;
        drop(guest);
        drop(plan);
    }
}

impl Model for UntracedMachine {
    ghost use Rattle.machine.specs.Held.{HoldsRun};
    ghost use Rattle.machine.specs.Untraced.{Untraced, untraced_of};

    ghost Value = { Untraced };

    ghost view = { λ m. untraced_of m.guest m.plan m.events m.rounds };

    ghost invariant = { λ m. HoldsRun m.guest m.plan.harts m.events m.rounds };
}

/// What a machine without a trace is made of, for whoever does something else with its next round than end it.
#[derive(Drop)]
pub struct MachineFields {
    /// The harts, and what they share.
    pub guest: GuestState,
    /// The plan of the run.
    pub plan: Plan,
    /// How many rounds were done.
    pub rounds: u32,
}

impl UntracedMachine {
    /// The machine of an image, an input and a plan, before the first round.
    ///
    /// # Errors
    ///
    /// `OutOfMemory` alone.
    pub fn new(
        alloc: Global,
        image: Image,
        input: Vec<u8>,
        plan: Plan,
    ) -> Result<UntracedMachine, RunError>
        ensures machine { IfOk result (λ u. IsUntraced (opening image input.items plan) u) }
        ensures refused { IfErr result (λ e. e ≡ refusals.OutOfMemory) }
    {
        let opened = UntracedMachine::open(alloc, &image, input, plan);
        drop(image);
        opened
    }

    /// The same of an image that is lent, so that one image opens many machines.
    ///
    /// # Errors
    ///
    /// `OutOfMemory` alone.
    pub fn open(
        alloc: Global,
        image: &Image,
        input: Vec<u8>,
        plan: Plan,
    ) -> Result<UntracedMachine, RunError>
        ensures machine { IfOk result (λ u. IsUntraced (opening image.now input.items plan) u) }
        ensures refused { IfErr result (λ e. e ≡ refusals.OutOfMemory) }
    {
        let guest = GuestState::open(alloc, image, input, plan.harts())?;
        Ok(UntracedMachine::begin(guest, plan))
    }

    /// The same of an image that was laid into memory: the machines that it opens share what its pages hold.
    ///
    /// # Errors
    ///
    /// `OutOfMemory` alone.
    pub fn open_laid(
        alloc: Global,
        laid: &LaidImage,
        input: Vec<u8>,
        plan: Plan,
    ) -> Result<UntracedMachine, RunError>
        ensures machine { IfOk result (λ u. IsUntraced (opening laid.now input.items plan) u) }
        ensures refused { IfErr result (λ e. e ≡ refusals.OutOfMemory) }
    {
        let guest = GuestState::open_laid(alloc, laid, input, plan.harts())?;
        Ok(UntracedMachine::begin(guest, plan))
    }

    /// The machine of a guest before the first round under a plan for its harts.
    fn begin(guest: GuestState, plan: Plan) -> UntracedMachine
        requires { length guest.harts ≡ plan.harts }
        ensures { result ≡ untraced_of guest plan 0 0 }
    {
        UntracedMachine {
            guest,
            plan,
            rounds: 0,
            events: 0,
            work: RoundWork::unknown(),
        }
    }

    /// The harts, in hart order. One that has stopped did so with a code of 1 to 10, and with a value in the exit call alone.
    pub fn harts(&self) -> &[Hart]
        ensures harts { result.now ≡ self.now.harts }
        ensures count { length result.now ≡ self.now.plan.harts }
        ensures stops { (m : Running) → IsUntraced m self.now →
            All (λ h. has_stop h.stop ≡ true) result.now }
    {
        self.guest.harts()
    }

    /// The byte at an address, or `None` outside guest memory.
    pub fn byte(&self, address: u64) -> Option<u8>
        ensures inside { address < length self.now.bytes →
            result ≡ Some (slice_index self.now.bytes address) }
        ensures outside { length self.now.bytes ≤ address → result ≡ None }
    {
        let pages = self.guest.pages();
        if address >= 4096 * u64::from(pages.count()) {
            return None;
        }
        Some(pages.byte(address))
    }

    /// The output so far.
    pub fn output(&self) -> &[u8]
        ensures { result.now ≡ self.now.console.output }
    {
        self.guest.output()
    }

    /// The input and the output.
    pub fn console(&self) -> &Console
        ensures { result.now.console ≡ self.now.console }
    {
        self.guest.console()
    }

    /// The reservations of the harts, in hart order.
    pub fn reservations(&self) -> &Reservations
        ensures reservations { result.now ≡ self.now.reservations }
        ensures count { length result.now ≡ length self.now.harts }
    {
        self.guest.sizes_agree();
        self.guest.reservations()
    }

    /// The plan.
    pub fn plan(&self) -> &Plan
        ensures { result.now ≡ self.now.plan }
    {
        &self.plan
    }

    /// How many events the trace would have.
    pub fn events(&self) -> u64
        ensures { result ≡ self.now.events }
    {
        self.events
    }

    /// How many rounds were done.
    pub fn rounds(&self) -> u32
        ensures { result ≡ self.now.rounds }
    {
        self.rounds
    }

    /// Memory.
    pub fn pages(&self) -> &Pages
        ensures bytes { result.now.memory.bytes ≡ self.now.bytes }
        ensures code { result.now.memory.code ≡ self.now.code }
    {
        self.guest.pages()
    }

    /// What it is made of. Each hart of the plan is one of the guest's.
    pub fn into_fields(self) -> MachineFields
        ensures machine { untraced_of result.guest result.plan self.events result.rounds ≡ self }
        ensures harts { length result.guest.harts ≡ result.plan.harts }
    {
        let UntracedMachine {
            guest,
            plan,
            rounds,
            events: _,
            work: _,
        } = self;
        MachineFields {
            guest,
            plan,
            rounds,
        }
    }

    /// Where its memory comes from.
    pub(crate) fn allocator(&self) -> Global {
        self.guest.pages().allocator()
    }

    /// Each byte of memory is a byte.
    pub(crate) fn bytes_fit(&self)
        ensures { IsBytes self.now.bytes }
    {
        self.guest.pages().bytes_fit();
    }
}
