ghost use Rattle.std.specs.Prelude.{◌≡◌, ◌<◌, length, None};

use crate::doubleword::shift_of;
use crate::serving::{lay, serve_next};
use hart_step::{Buffered, Hart, step};
use pages::{OutOfMemory, Pages, Store, Width};
use round_schedule::{MOST_HARTS, Reservations, Stepped};
use rv64_decode::{Instr, decode};
use serial_phase::SharedState;

/// Guest memory as it is now, with the console and the reservations. Instructions are done on it as in a serial phase.
#[derive(Drop)]
pub struct Memory {
    state: SharedState,
    ghost reservations: { length state.reservations ≡ 64 },
}

impl Memory {
    /// What the harts share, where no hart has a reservation.
    pub fn new(shared: SharedState) -> Memory {
        let mut state = shared;
        state.reservations = Reservations::new(MOST_HARTS);
        Memory { state }
    }

    /// How many pages it has.
    pub fn pages(&self) -> u32 {
        self.state.pages.count()
    }

    /// Guest memory.
    pub fn guest(&self) -> &Pages {
        &self.state.pages
    }

    /// What was put out.
    pub fn output(&self) -> &[u8] {
        self.state.console.output()
    }

    /// The instruction at an address.
    #[inline]
    pub fn instruction_at(&self, pc: u64) -> Option<Instr> {
        match self.state.code.get(pc) {
            Some(i) => Some(i),
            None => self.fetched_at(pc),
        }
    }

    #[inline(never)]
    fn fetched_at(&self, pc: u64) -> Option<Instr> {
        match self.state.pages.fetch(pc) {
            Some(word) => decode(word),
            None => None,
        }
    }

    /// The aligned doubleword that has the byte at an address; 0 outside memory.
    #[inline]
    pub fn doubleword(&self, address: u64) -> u64 {
        self.state
            .pages
            .read(address / 8 * 8, Width::W8)
            .unwrap_or(0)
    }

    /// A hart does its next instruction.
    #[inline]
    pub fn serve(&mut self, h: &mut Hart, hart: u8, round: u32) -> Result<Stepped, OutOfMemory>
        requires running { h.old.stop ≡ None }
        requires hart { hart < 64 }
    {
        serve_next(h, &mut self.state, hart, round)
    }

    /// The same of an operation that finds a number at its bytes which was laid there for it. Memory stays as it is.
    pub fn serve_on(
        &mut self,
        h: &mut Hart,
        hart: u8,
        round: u32,
        laid: Store,
    ) -> Result<Stepped, OutOfMemory>
        requires running { h.old.stop ≡ None }
        requires hart { hart < 64 }
    {
        let value = self.doubleword(laid.address) >> shift_of(laid.address);
        lay(&mut self.state.pages, laid)?;
        let answer = serve_next(h, &mut self.state, hart, round)?;
        lay(&mut self.state.pages, Store { value, ..laid })?;
        Ok(answer)
    }

    /// A hart does its next instruction, a plain store, which doesn't go to memory.
    pub fn hold_back(&self, h: &mut Hart) -> Result<Stepped, OutOfMemory>
        requires { h.old.stop ≡ None }
    {
        let pages = &self.state.pages;
        let mut view = Buffered::new(pages.allocator(), pages);
        step(h, &mut view)
    }

    /// A store of a hart goes to memory, and breaks the reservations of others.
    pub fn put(&mut self, hart: u8, store: Store) -> Result<(), OutOfMemory> {
        lay(&mut self.state.pages, store)?;
        self.state
            .reservations
            .break_by(u32::from(hart), store.address, store.width);
        Ok(())
    }

    /// Gives a hart the reservation of a store's bytes.
    pub fn reserve(&mut self, hart: u8, store: Store)
        requires { hart < 64 }
    {
        self.state
            .reservations
            .set(u32::from(hart), store.address, store.width);
    }

    /// Whether a hart has the reservation of just a store's bytes. Any other one is lost.
    pub fn has_reservation(&mut self, hart: u8, store: Store) -> bool
        requires { hart < 64 }
    {
        let holds = self
            .state
            .reservations
            .take(u32::from(hart), store.address, store.width);
        if holds {
            self.reserve(hart, store);
        }
        holds
    }

    /// A hart loses its reservation.
    pub fn lose_reservation(&mut self, hart: u8)
        requires { hart < 64 }
    {
        let _held = self.state.reservations.take(u32::from(hart), 0, Width::W1);
    }
}
