//! What a hart's round adds its accesses to: a list, or their number alone.
ghost use Rattle.std.specs.Prelude.{◌≡◌, ◌+◌, ◌%◌, ◌^◌, length, IsOk};

use pages::OutOfMemory;
use round_schedule::Access;

/// What a hart's round adds its accesses to.
pub trait AccessLog {
    ghost use Rattle.std.specs.Prelude.{List, [], ◌∷◌, ◌++◌, OnOk};
    ghost use Rattle.round_schedule.specs.declared.access.Access.{Access};

    /// It holds these accesses.
    ghost holds: { Self → List Access → Type 0 };

    /// Adds an access.
    fn add(&mut self, access: Access) -> Result<(), OutOfMemory>
        ensures { OnOk result ((es : List Access) → holds self.old es →
            holds self.new (es ++ access ∷ [])) };
}

impl AccessLog for Vec<Access> {
    ghost holds = { λ log es. log.items ≡ es };

    #[inline(always)]
    fn add(&mut self, access: Access) -> Result<(), OutOfMemory> {
        self.push(access).map_err(|_| OutOfMemory)
    }
}

/// How many accesses there were, where nobody asks for more.
// docs/decisions/storage.md
#[derive(Clone, Copy)]
pub struct AccessCount {
    /// The number, modulo 2^64.
    pub count: u64,
}

impl AccessLog for AccessCount {
    ghost holds = { λ log es. log.count ≡ length es % 2 ^ 64 };

    #[inline(always)]
    fn add(&mut self, _access: Access) -> Result<(), OutOfMemory>
        ensures counted { self.new.count ≡ (self.old.count + 1) % 2 ^ 64 }
        ensures never_refused { IsOk result }
    {
        self.count = self.count.wrapping_add(1);
        Ok(())
    }
}
