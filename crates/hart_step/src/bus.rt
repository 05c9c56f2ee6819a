use pages::{Fault, OutOfMemory, Store, Width};

/// What a hart reads and writes memory through.
pub trait Bus {
    ghost use Rattle.std.specs.Prelude.{◌≡◌, List, [], ◌∷◌, ◌++◌, None, IfOk, OnErr, IsOk};
    ghost use Rattle.pages.specs.Memory.{Memory, loaded, store_fault, fetched};
    ghost use Rattle.pages.specs.declared.access.Store.{Store};
    ghost use Rattle.hart_step.specs.Buses.{Stores, taken_of};

    /// The bytes and code ranges that the hart sees.
    ghost memory: { Self → Memory };

    /// This store is taken without a refusal of memory.
    ghost has_room: { Self → Store → Type 0 };

    /// From one bus, exactly these stores lead to the other.
    ghost takes: { Self → List Store → Self → Type 0 };

    /// The word at an address, or `None` where one of its bytes is not code.
    fn fetch(&self, pc: u64) -> Option<u32>
        ensures { result ≡ fetched (memory self.now) pc };

    /// The number in the bytes from an address on, without any extension.
    fn load(&self, address: u64, width: Width) -> Result<u64, Fault>
        ensures { result ≡ loaded (memory self.now) address width };

    /// Takes a store, or answers its fault.
    fn store(&mut self, s: Store) -> Result<Result<(), Fault>, OutOfMemory>
        ensures ok { IfOk result (λ r. Stores r s (memory self.old) (memory self.new)) }
        ensures takes { IfOk result (λ r. takes self.old (taken_of r s) self.new) }
        ensures err { OnErr result (memory self.new ≡ memory self.old) }
        ensures room { (store_fault (memory self.old) s.address s.width ≡ None →
            has_room self.old s) → IsOk result };

    ghost takes_none: { (b : Self) → takes b [] b };

    ghost takes_more: { (b c d : Self) (ss ts : List Store) → takes b ss c → takes c ts d →
        takes b (ss ++ ts) d };
}
