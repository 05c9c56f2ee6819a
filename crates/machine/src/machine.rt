ghost use Rattle.std.specs.Prelude.{◌≡◌, ℕ, ◌<◌, ◌≤◌, All, length, slice_index, Some, None, true, IfOk, IfErr};
ghost use Rattle.host_io.specs.declared.error.RunError.TheVariants as refusals;
ghost use Rattle.trace.specs.Traced.{opening_at};
ghost use Rattle.hart_step.specs.Stops.{has_stop};
ghost use Rattle.round_schedule.specs.RoundTrace.{IsRoundTrace};
ghost use Rattle.machine.specs.Machine.{opening};
ghost use Rattle.machine.specs.Untraced.{IsUntraced};

use crate::untraced::UntracedMachine;
use elf_loader::Image;
use hart_step::Hart;
use host_io::RunError;
use pages::Pages;
use round_planner::Plan;
use std::alloc::Global;
use std::marker::Model;
use trace::Trace;

/// A guest program between two rounds, and the trace of its run.
pub struct Machine {
    pub(crate) bare: UntracedMachine,
    pub(crate) trace: Trace,
}

// By hand, so that a proof has one step for it wherever one is dropped, in this crate and above.
impl Drop for Machine {
    fn drop(self) {
        let Machine { bare, trace } = self;
        drop(bare);
        drop(trace);
    }
}

impl Model for Machine {
    ghost use Rattle.machine.specs.Machine.{Running};
    ghost use Rattle.machine.specs.Untraced.{HoldsTogether, traced};

    ghost Value = { Running };

    ghost view = { λ m. traced m.bare m.trace };

    ghost invariant = { λ m. HoldsTogether m.bare m.trace };
}

impl Machine {
    /// The machine of an image, an input and a plan, before the first round.
    ///
    /// # Errors
    ///
    /// `OutOfMemory` alone.
    pub fn new(alloc: Global, image: Image, input: Vec<u8>, plan: Plan) -> Result<Machine, RunError>
        ensures machine { IfOk result (λ m. m ≡ opening image input.items plan) }
        ensures refused { IfErr result (λ e. e ≡ refusals.OutOfMemory) }
    {
        // It tells how many bytes the pieces fill.
        let _pieces = image.pieces();
        let bare = UntracedMachine::open(alloc, &image, input, plan)?;
        bare.bytes_fit();
        let trace = Trace::new(alloc, image.into_pieces());
        Ok(Machine { bare, trace })
    }

    /// The harts, in hart order. One that has stopped did so with a code of 1 to 10, and with a value in the exit call alone.
    pub fn harts(&self) -> &[Hart]
        ensures harts { result.now ≡ self.now.state.harts }
        ensures count { length result.now ≡ self.now.plan.harts }
        ensures stops { All (λ h. has_stop h.stop ≡ true) result.now }
    {
        self.bare.harts()
    }

    /// The byte at an address, or `None` outside guest memory.
    pub fn byte(&self, address: u64) -> Option<u8>
        ensures inside { address < length self.now.state.bytes →
            result ≡ Some (slice_index self.now.state.bytes address) }
        ensures outside { length self.now.state.bytes ≤ address → result ≡ None }
    {
        self.bare.byte(address)
    }

    /// How many rounds were done.
    pub fn rounds(&self) -> u32
        ensures { result ≡ self.now.state.rounds }
    {
        self.bare.rounds()
    }

    /// Memory.
    pub fn pages(&self) -> &Pages
        ensures { result.now.memory.bytes ≡ self.now.state.bytes }
    {
        self.bare.pages()
    }

    /// The output so far.
    pub fn output(&self) -> &[u8]
        ensures { result.now ≡ self.now.state.console.output }
    {
        self.bare.output()
    }

    /// The trace so far, over the bytes that memory opened with: that of a run in rounds, so that its order by rounds meets
    /// RVWMO.
    pub fn trace(&self) -> &Trace
        ensures events { result.now.events ≡ self.now.state.trace }
        ensures rounds { IsRoundTrace result.now.events (opening_at result.now.opening)
            self.now.plan.budget }
        ensures opening { (x : ℕ) → opening_at result.now.opening x ≡
            slice_index self.now.opening x }
    {
        &self.trace
    }

    /// The same trace, handed over.
    pub fn into_trace(self) -> Trace
        ensures events { result.events ≡ self.state.trace }
        ensures rounds { IsRoundTrace result.events (opening_at result.opening) self.plan.budget }
        ensures opening { (x : ℕ) → opening_at result.opening x ≡ slice_index self.opening x }
    {
        let Machine { bare, trace } = self;
        drop(bare);
        trace
    }

    /// The machine of the same run without its trace, which is let go.
    pub fn into_untraced(self) -> UntracedMachine
        ensures run { IsUntraced self result }
    {
        let Machine { bare, trace } = self;
        drop(trace);
        bare
    }
}
