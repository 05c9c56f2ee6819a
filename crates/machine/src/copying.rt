ghost use Rattle.std.specs.Prelude.{◌≡◌, IfOk, IfErr};
ghost use Rattle.host_io.specs.declared.error.RunError.TheVariants as refusals;
ghost use Rattle.machine.specs.Untraced.{IsUntraced, untraced_of};

use crate::machine::Machine;
use crate::untraced::UntracedMachine;
use guest_rounds::GuestState;
use host_io::RunError;

impl Machine {
    /// A machine that is equal to this one.
    ///
    /// Pages that were written to are copied; of the trace, most is shared. The decoded words of the code are copied.
    ///
    /// # Errors
    ///
    /// `OutOfMemory` alone.
    pub fn copy(&self) -> Result<Machine, RunError>
        ensures same { IfOk result (λ m. m ≡ self.now) }
        ensures refused { IfErr result (λ e. e ≡ refusals.OutOfMemory) }
    {
        let trace = self.trace.copy(self.bare.allocator())?;
        let bare = self.bare.copy()?;
        Ok(Machine { bare, trace })
    }

    /// A machine that is equal to this one and shares its pages: each of the two gets its own of a page when it writes there.
    ///
    /// So it takes no memory for a page that was not written to since this machine last shared its pages. Of the trace, most is
    /// shared. The decoded words of the code are copied.
    ///
    /// # Errors
    ///
    /// `OutOfMemory` alone.
    pub fn share(&mut self) -> Result<Machine, RunError>
        ensures same { IfOk result (λ m. m ≡ self.old) }
        ensures stays { self.new ≡ self.old }
        ensures refused { IfErr result (λ e. e ≡ refusals.OutOfMemory) }
    {
        let trace = self.trace.copy(self.bare.allocator())?;
        let bare = self.bare.share()?;
        Ok(Machine { bare, trace })
    }

    /// The machine of the same run without its trace.
    ///
    /// Pages that were written to are copied. The decoded words of the code are copied.
    ///
    /// # Errors
    ///
    /// `OutOfMemory` alone.
    pub fn copy_untraced(&self) -> Result<UntracedMachine, RunError>
        ensures run { IfOk result (λ u. IsUntraced self.now u) }
        ensures refused { IfErr result (λ e. e ≡ refusals.OutOfMemory) }
    {
        self.bare.copy()
    }
}

impl UntracedMachine {
    /// A machine that is equal to this one.
    ///
    /// Pages that were written to are copied. The decoded words of the code are copied.
    ///
    /// # Errors
    ///
    /// `OutOfMemory` alone.
    pub fn copy(&self) -> Result<UntracedMachine, RunError>
        ensures same { IfOk result (λ u. u ≡ self.now) }
        ensures refused { IfErr result (λ e. e ≡ refusals.OutOfMemory) }
    {
        self.over(self.guest.copy()?)
    }

    /// A machine that is equal to this one and shares its pages: each of the two gets its own of a page when it writes there.
    ///
    /// The decoded words of the code are copied.
    ///
    /// # Errors
    ///
    /// `OutOfMemory` alone.
    pub fn share(&mut self) -> Result<UntracedMachine, RunError>
        ensures same { IfOk result (λ u. u ≡ self.old) }
        ensures stays { self.new ≡ self.old }
        ensures refused { IfErr result (λ e. e ≡ refusals.OutOfMemory) }
    {
        let guest = self.guest.share()?;
        self.over(guest)
    }

    /// The same machine over an equal guest.
    fn over(&self, guest: GuestState) -> Result<UntracedMachine, RunError>
        requires { untraced_of guest self.now.plan self.now.events self.now.rounds ≡ self.now }
        ensures same { IfOk result (λ u. u ≡ self.now) }
        ensures refused { IfErr result (λ e. e ≡ refusals.OutOfMemory) }
    {
        let plan = self.plan.copy(guest.pages().allocator())?;
        Ok(UntracedMachine {
            guest,
            plan,
            rounds: self.rounds,
            events: self.events,
            work: self.work,
        })
    }
}
