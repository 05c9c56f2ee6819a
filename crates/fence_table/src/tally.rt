ghost use Rattle.std.specs.Prelude.{◌≡◌, ◌+◌, ◌<◌, ◌^◌};
ghost use Rattle.fence_table.specs.Counting.{with_number};

/// Numbers of executions, by how many they are and the first of them.
#[derive(Clone, Copy)]
pub struct Tally {
    pub plans: u32,
    /// 0 where they are none.
    pub first: u32,
}

impl Tally {
    /// No number.
    pub fn none() -> Tally
        ensures plans { result.plans ≡ 0 }
        ensures first { result.first ≡ 0 }
    {
        Tally { plans: 0, first: 0 }
    }

    /// Counts another number, which comes after those before.
    pub fn count(&mut self, number: u32)
        requires { self.old.plans + 1 < 2 ^ 32 }
        ensures { self.new ≡ with_number number self.old }
    {
        if self.plans == 0 {
            self.first = number;
        }
        self.plans += 1;
    }

    /// The numbers of two tallies that have none in common.
    pub fn joined(self, other: Tally) -> Tally
        ensures { self.plans + other.plans < 2 ^ 32 → result.plans ≡ self.plans + other.plans }
    {
        if self.plans == 0 {
            return other;
        }
        if other.plans == 0 {
            return self;
        }
        Tally {
            plans: self.plans.saturating_add(other.plans),
            first: self.first.min(other.first),
        }
    }
}
